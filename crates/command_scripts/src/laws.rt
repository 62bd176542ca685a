//! Laws of batches and their scripts: each is the contract of a function that does nothing.
ghost use Rattle.std.specs.Prelude.{◌≡◌, ℕ, List, true, IsUtf8};
ghost use Rattle.std.specs.List.{AllByRecursion};
ghost use Rattle.text_lines.specs.Lines.{IsTextOf};
ghost use Rattle.text_lines.specs.Skipping.{SpellsUnskipped};
ghost use Rattle.script_text.specs.declared.scripts.Mode.TheVariants.{Threads};
ghost use Rattle.script_text.specs.declared.scripts.Script.{Script};
ghost use Rattle.script_text.specs.Header.{is_machine};
ghost use Rattle.script_text.specs.Scripts.{Spells};
ghost use Rattle.command_scripts.specs.declared.batches.Batch.{Batch};
ghost use Rattle.command_scripts.specs.declared.batches.Machine.{Machine};
ghost use Rattle.command_scripts.specs.Batches.{IsBatch, SpellsBatch};
ghost use Rattle.command_scripts.specs.Scripts.{script_of};
ghost use Rattle.command_scripts.specs.TakenLaws.{IsTaken};
ghost use Rattle.command_scripts.specs.Texts.{script_lines, script_text};

/// The lines of a batch's script are those of a script for threads, which has a template, a run, a wait and an info for each
/// command, and nothing else; its text, each line with its line feed, is that script's, and no other's.
pub fn a_batch_is_one_script()
    ensures lines { (batch : Batch) → IsBatch batch → Spells Threads (script_lines batch) (script_of batch) }
    ensures text { (batch : Batch) → IsBatch batch → IsTextOf (SpellsUnskipped (Spells Threads)) 16_777_216 (script_text batch) (script_of batch) }
    ensures one { (batch : Batch) (script : Script) → IsBatch batch → IsTextOf (SpellsUnskipped (Spells Threads)) 16_777_216 (script_text batch) script
        → script ≡ script_of batch }
{}

/// What is read for a machine that a script may have is a batch.
pub fn what_is_read_is_a_batch()
    ensures { (machine : Machine) (lines : List (List ℕ)) (batch : Batch) → is_machine machine.slots machine.name ≡ true → IsUtf8 machine.name
        → SpellsBatch machine lines batch → IsBatch batch }
{}

/// Such a machine refuses the template of no command, whatever the moment is.
pub fn each_template_is_taken()
    ensures { (batch : Batch) (now : ℕ) → IsBatch batch → AllByRecursion (λ t. IsTaken batch.machine.slots now t.1) (script_of batch).jobs }
{}
