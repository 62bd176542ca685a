//! What is true of all words: a law is the contract of a function that does nothing.
ghost use Rattle.std.specs.Prelude.{◌≡◌, List, ℕ};
ghost use Rattle.command_words.specs.Commands.{AsksFor};
ghost use Rattle.command_words.specs.declared.commands.Command.{Command};

/// Words ask for one command at most.
pub fn words_name_one_command()
    ensures { (words : List (List ℕ)) (a b : Command) → AsksFor words a → AsksFor words b → a ≡ b }
{}
