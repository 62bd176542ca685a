//! The script of a soak, and its play.
ghost use Rattle.std.specs.Prelude.{◌≡◌, ◌≤◌, ℕ, None};
ghost use Rattle.text_lines.specs.Lines.{IsTextOf};
ghost use Rattle.text_lines.specs.Skipping.{SpellsUnskipped};
ghost use Rattle.script_text.specs.declared.scripts.Mode.TheVariants.{Serial};
ghost use Rattle.script_text.specs.declared.scripts.Script.{Script};
ghost use Rattle.script_text.specs.Scripts.{Spells};
ghost use Rattle.script_asks.specs.Plays.{serial_play};
ghost use Rattle.soak_script.specs.Lines.{soak_script, soak_text};
ghost use Rattle.soak_laws.specs.Scripts.{soak_of};

/// The lines of a soak of up to 100,000 steps are those of a script for one thread, which has the templates, and one client that goes
/// through the steps; its text, each line with its line feed, is that script's, and no other's.
pub fn each_soak_is_one_script()
    ensures lines { (steps seed : ℕ) → steps ≤ 100_000 → Spells Serial (soak_script steps seed) (soak_of steps seed) }
    ensures text { (steps seed : ℕ) → steps ≤ 100_000 → IsTextOf (SpellsUnskipped (Spells Serial)) 16_777_216 (soak_text steps seed) (soak_of steps seed) }
    ensures one { (steps seed : ℕ) (script : Script) → steps ≤ 100_000 → IsTextOf (SpellsUnskipped (Spells Serial)) 16_777_216 (soak_text steps seed) script
        → script ≡ soak_of steps seed }
{}

/// The play of a soak's script on one thread goes to its end: the greatest size of the journal, 4,000,000, stops none of up to
/// 100,000 steps.
pub fn no_soak_fills_the_journal()
    ensures { (steps seed : ℕ) → steps ≤ 100_000 → (serial_play (soak_of steps seed)).full ≡ None }
{}
