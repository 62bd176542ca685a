//! Each law is the contract of a function that does nothing.
ghost use Rattle.std.specs.Prelude.{◌≡◌, ℕ, List, Some, true};
ghost use Rattle.std.specs.List.{AllByRecursion, slice_get};
ghost use Rattle.drmaa_model.specs.declared.calls.Call.{Call};
ghost use Rattle.drmaa_model.specs.declared.entries.Entry.{Entry};
ghost use Rattle.drmaa_model.specs.declared.replies.Reply.{Reply};
ghost use Rattle.drmaa_model.specs.Effects.{gives};
ghost use Rattle.drmaa_model.specs.History.{IsLegal};
ghost use Rattle.drmaa_model.specs.Steps.{answer};
ghost use Rattle.drmaa_model.specs.World.{World};
ghost use Rattle.journal_text.specs.Printing.{IsPrintable};
ghost use Rattle.journal_forms.specs.Replies.{may_answer};
ghost use Rattle.script_lines.specs.declared.lines.Line.{Line};
ghost use Rattle.script_text.specs.declared.scripts.Mode.{Mode};
ghost use Rattle.script_text.specs.declared.scripts.Mode.TheVariants as mode;
ghost use Rattle.script_text.specs.declared.scripts.Script.{Script};
ghost use Rattle.script_text.specs.Scripts.{Spells};
ghost use Rattle.script_asks.specs.declared.given.Given.{Given};
ghost use Rattle.script_asks.specs.Plays.{calls_of, Plays, PlaysPart, serial_play};
ghost use Rattle.script_journals.specs.Calls.{CallMayStand, IsBlockOf, IsClientsEntry, IsNoRegister, is_attendants};

/// What the machine answers is a reply that a journal may have.
pub fn a_reply_may_stand()
    ensures { (w : World) (at : ℕ) (asked : Call) (told : Reply) (next : World) → answer w at asked ≡ gives told next → may_answer told ≡ true }
{}

/// The journal of the play of a script may be printed, and read again.
pub fn a_play_is_printable()
    ensures { (mode : Mode) (lines : List (List ℕ)) (script : Script) → Spells mode lines script → IsPrintable script.config (serial_play script).entries }
{}

/// What the lines of a script's block ask may stand in a journal, and so may what its first lines ask.
pub fn what_a_block_asks_may_stand()
    ensures whole { (mode : Mode) (lines : List (List ℕ)) (script : Script) (names : List (List ℕ × Given)) (before : ℕ) (block : List Line) (entries : List Entry)
        → Spells mode lines script → Plays script names before block entries → AllByRecursion CallMayStand entries }
    ensures part { (mode : Mode) (lines : List (List ℕ)) (script : Script) (names : List (List ℕ × Given)) (before : ℕ) (block : List Line) (entries : List Entry)
        → Spells mode lines script → PlaysPart script names before block entries → AllByRecursion CallMayStand entries }
{}

/// The calls of the launcher and of the reaper may stand in a journal.
pub fn what_the_attendant_asks_may_stand()
    ensures { (entry : Entry) → is_attendants entry.call ≡ true → CallMayStand entry }
{}

/// What the blocks of a script for threads ask is no call of the launcher or of the reaper.
pub fn no_client_asks_what_the_attendant_asks()
    ensures whole { (lines : List (List ℕ)) (script : Script) (names : List (List ℕ × Given)) (before : ℕ) (block : List Line) (entries : List Entry)
        → Spells mode.Threads lines script → IsBlockOf script block → Plays script names before block entries → AllByRecursion IsClientsEntry entries }
    ensures part { (lines : List (List ℕ)) (script : Script) (names : List (List ℕ × Given)) (before : ℕ) (block : List Line) (entries : List Entry)
        → Spells mode.Threads lines script → IsBlockOf script block → PlaysPart script names before block entries → AllByRecursion IsClientsEntry entries }
{}

/// What a client's block of a script for threads asks registers no callback.
pub fn no_client_registers()
    ensures whole { (lines : List (List ℕ)) (script : Script) (names : List (List ℕ × Given)) (before place : ℕ) (block : List Line) (entries : List Entry)
        → Spells mode.Threads lines script → slice_get script.clients place ≡ Some block → Plays script names before block entries → AllByRecursion IsNoRegister entries }
    ensures part { (lines : List (List ℕ)) (script : Script) (names : List (List ℕ × Given)) (before place : ℕ) (block : List Line) (entries : List Entry)
        → Spells mode.Threads lines script → slice_get script.clients place ≡ Some block → PlaysPart script names before block entries → AllByRecursion IsNoRegister entries }
{}

/// Where the calls of each caller may stand in a journal, so may all calls of a history.
pub fn calls_of_every_caller_may_stand()
    ensures { (history : List Entry) → ((caller : ℕ) → AllByRecursion CallMayStand (calls_of caller history)) → AllByRecursion CallMayStand history }
{}

/// The journal of a legal history, on the machine of a script, may be printed and read again where its calls may stand there.
pub fn a_history_is_printable()
    ensures { (mode : Mode) (lines : List (List ℕ)) (script : Script) (history : List Entry) → Spells mode lines script → AllByRecursion CallMayStand history → IsLegal script.config history
        → IsPrintable script.config history }
{}
