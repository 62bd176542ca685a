//! What is true of every text: each law is the contract of a function that does nothing.
ghost use Rattle.std.specs.Prelude.{◌≡◌, ◌+◌, ◌++◌, ◌↔◌, ℕ, List, length, min};
ghost use Rattle.text_lines.specs.Lines.{ended, IsTextOf, IsFirstBad};
ghost use Rattle.journal_text.specs.Journals as journals;
ghost use Rattle.journal_text.specs.declared.journals.Journal.{Journal};
ghost use Rattle.continued_text.specs.Texts.{Spells, IsContinued, byte_limit};
ghost use Rattle.continued_text.specs.declared.texts.Continued.{Continued};

/// No lines spell two pairs of a journal and a script, and no bytes are two. The number of the first bad line is one.
pub fn one_pair()
    ensures lines { (lines : List (List ℕ)) (c d : Continued) → Spells lines c → Spells lines d → c ≡ d }
    ensures bytes { (bytes : List ℕ) (c d : Continued) → IsContinued bytes c → IsContinued bytes d → c ≡ d }
    ensures line { (bytes : List ℕ) (n m : ℕ) → IsFirstBad Spells (byte_limit bytes) bytes n → IsFirstBad Spells (byte_limit bytes) bytes m → n ≡ m }
{}

/// A text of a journal with a script behind it is what its lines spell within the limit, and the other way round.
pub fn the_lines_of_a_text()
    ensures { (bytes : List ℕ) (c : Continued) → IsContinued bytes c ↔ IsTextOf Spells (byte_limit bytes) bytes c }
{}

/// Behind the lines of a journal 16,777,216 bytes more may stand, where the whole has no more than 268,435,456.
pub fn the_limit_behind_a_journal()
    ensures { (lines : List (List ℕ)) (j : Journal) (rest : List ℕ) → journals.Spells lines j
        → byte_limit (ended lines ++ rest) ≡ min 268_435_456 (length (ended lines) + 16_777_216) }
{}
