//! The word that asks for `lint`.
ghost use Rattle.std.specs.Prelude.{IsTrue, ◌↔◌};
ghost use Rattle.lint_command.specs.Words.{AsksForLint};

use drmaa_types::TextList;

/// Whether the words ask for `lint`: they are this word alone.
pub fn asks_for_lint(words: &TextList) -> bool
    ensures { IsTrue result ↔ AsksForLint words.now }
{
    match words.as_slice() {
        [word] => word.as_str() == "lint",
        _ => false,
    }
}
