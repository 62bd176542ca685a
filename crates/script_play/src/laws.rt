//! Laws of plays. Each is the contract of a function that does nothing.
ghost use Rattle.std.specs.Prelude.{ℕ, ◌<◌, List, length};
ghost use Rattle.drmaa_model.specs.History.{Ledger, now_of};
ghost use Rattle.change_callbacks.specs.Ears.{Listening};
ghost use Rattle.script_text.specs.declared.scripts.Mode.{Mode};
ghost use Rattle.script_text.specs.declared.scripts.Script.{Script};
ghost use Rattle.script_text.specs.Scripts.{Spells};
ghost use Rattle.script_play.specs.Along.{along_play, HeardPlay, HeardBehind};
ghost use Rattle.script_play.specs.Playable.{IsPlayable};

use change_callbacks::Callback;

/// Each script that some lines spell can be played.
pub fn each_script_can_be_played()
    ensures { (mode : Mode) (lines : List (List ℕ)) (script : Script) → Spells mode lines script → IsPlayable script }
{}

/// What `along` of a play says of each beginning of the script's lines, none and all of them among these: behind it each callback had
/// heard exactly what the history by then has for its number, and the other pumps go on from there.
pub fn each_beginning_is_heard<B: Callback>()
    ensures { (ledger : Ledger) (script : Script) (before after : Listening B) → HeardPlay B.counted B.told ledger script before after
        → (lines : ℕ) → lines < length (along_play (now_of ledger) script) → HeardBehind B.counted B.told ledger script lines before after }
{}
