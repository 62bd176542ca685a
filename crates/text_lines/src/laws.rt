//! Laws of lines and of texts: each is the contract of a function that does nothing.
ghost use Rattle.std.specs.Prelude.{◌≡◌, ◌≤◌, ℕ, List, length, IsUtf8, true};
ghost use Rattle.std.specs.List.{list_all, AllByRecursion};
ghost use Rattle.text_codec.specs.Lexical.{no_feed, IsClean};
ghost use Rattle.text_lines.specs.Lines.{whole_lines, ended, IsTextOf, IsFirstBad};

use crate::LineReader;

/// Lines without a line feed that are printed, each with its line feed, are read as these lines.
pub fn lines_are_read_again()
    ensures { (lines : List (List ℕ)) → AllByRecursion (λ line. list_all no_feed line ≡ true) lines → whole_lines (ended lines) ≡ lines }
{}

/// Lines that are UTF-8 make a text that is UTF-8.
pub fn printed_is_utf8()
    ensures { (lines : List (List ℕ)) → AllByRecursion IsClean lines → IsUtf8 (ended lines) }
{}

/// Lines that spell a text, printed, are this text where they are within the limit.
pub fn printed_is_the_text<R: LineReader>()
    ensures { (first : R) (lines : List (List ℕ)) (text : R.Read) (limit : ℕ) → AllByRecursion (λ line. list_all no_feed line ≡ true) lines
        → R.stepping.Spells first lines text → length (ended lines) ≤ limit → IsTextOf (R.stepping.Spells first) limit (ended lines) text }
{}

/// No lines spell two texts, and no bytes are two.
pub fn one_text<R: LineReader>()
    ensures lines { (first : R) (lines : List (List ℕ)) (text other : R.Read) → R.stepping.is_first first
        → R.stepping.Spells first lines text → R.stepping.Spells first lines other → text ≡ other }
    ensures bytes { (first : R) (limit : ℕ) (bytes : List ℕ) (text other : R.Read) → R.stepping.is_first first
        → IsTextOf (R.stepping.Spells first) limit bytes text → IsTextOf (R.stepping.Spells first) limit bytes other → text ≡ other }
{}

/// The number of the first bad line is one.
pub fn one_first_bad_line<R: LineReader>()
    ensures { (first : R) (limit : ℕ) (bytes : List ℕ) (n m : ℕ) → IsFirstBad (R.stepping.Spells first) limit bytes n
        → IsFirstBad (R.stepping.Spells first) limit bytes m → n ≡ m }
{}
