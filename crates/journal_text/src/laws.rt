//! What is true of every journal: each law is the contract of a function that does nothing.
ghost use Rattle.std.specs.Prelude.{◌≡◌, ℕ, List, IsUtf8};
ghost use Rattle.std.specs.List.{AllByRecursion};
ghost use Rattle.drmaa_model.specs.RecordedCalls.{recorded};
ghost use Rattle.drmaa_model.specs.declared.configs.Config.{Config};
ghost use Rattle.drmaa_model.specs.declared.entries.Entry.{Entry};
ghost use Rattle.text_lines.specs.Lines.{IsFirstBad};
ghost use Rattle.journal_text.specs.Journals.{IsText, IsWritable, Spells, byte_limit};

/// A text is of one journal: two that can be written, with a text in common, are one, whatever its version.
pub fn one_journal()
    ensures { (c d : Config) (g h : List Entry) (bytes : List ℕ) → IsWritable c g → IsWritable d h → IsText c g bytes → IsText d h bytes → (c ≡ d) × (g ≡ h) }
{}

/// A text of a journal that can be written is UTF-8.
pub fn a_journal_is_utf8()
    ensures { (c : Config) (h : List Entry) (bytes : List ℕ) → IsWritable c h → IsText c h bytes → IsUtf8 bytes }
{}

/// Each call of a journal that can be written is its own recorded call.
pub fn a_writable_journal_has_recorded_calls()
    ensures { (c : Config) (h : List Entry) → IsWritable c h → AllByRecursion (λ (e : Entry). recorded e.call ≡ e.call) h }
{}

/// The number of the first bad line is one.
pub fn one_bad_line()
    ensures { (bytes : List ℕ) (n m : ℕ) → IsFirstBad Spells byte_limit bytes n → IsFirstBad Spells byte_limit bytes m → n ≡ m }
{}
