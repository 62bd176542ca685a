//! What is true of every run.
ghost use Rattle.std.specs.Prelude.{ℕ, List, Option};
ghost use Rattle.child_spawner.specs.declared.fates.Asked.{Asked};
ghost use Rattle.child_spawner.specs.declared.fates.Fate.{Fate};
ghost use Rattle.drmaa_model.specs.declared.entries.Entry.{Entry};
ghost use Rattle.journal_text.specs.Printing.{IsPrintable};
ghost use Rattle.script_text.specs.declared.scripts.Script.{Script};
ghost use Rattle.thread_play.specs.Runs.{IsForThreads, HasRun};

use drmaa_types::Clocks;
use script_journals::{
    a_history_is_printable, calls_of_every_caller_may_stand, what_a_block_asks_may_stand,
    what_the_attendant_asks_may_stand,
};

/// The journal of a run may be printed, and read again.
pub fn a_run_is_printable<K: Clocks>()
    ensures { (s : Script) (history : List Entry) (asked asked_after : Option (List Asked)) (fate : ℕ → Fate) (clocks : List K.One) (full : Option ℕ) →
        IsForThreads s → HasRun K.One.given s history asked asked_after fate clocks full → IsPrintable s.config history }
{
    what_a_block_asks_may_stand();
    what_the_attendant_asks_may_stand();
    calls_of_every_caller_may_stand();
    a_history_is_printable();
}
