//! Laws of every form: each is the contract of a function that does nothing.
ghost use Rattle.std.specs.Prelude.{◌≡◌, ◌++◌, List, ℕ, Some, true, IsUtf8};
ghost use Rattle.std.specs.List.{list_all};
ghost use Rattle.text_codec.specs.Lexical.{parts, no_feed};
ghost use Rattle.text_codec.specs.Formats.{read_line};

use crate::Form;

/// What is printed of a value is read again as this value, with what follows, where that parts it.
pub fn printed_is_read<T: Form>()
    ensures { (x : T) (rest : List ℕ) → T.form.valid x → parts rest ≡ true → T.form.read (T.form.spell x ++ rest) ≡ Some (x, rest) }
{}

/// A line on which a value is printed is read as this value.
pub fn printed_line_is_read<T: Form>()
    ensures { (x : T) → T.form.valid x → read_line T.form (T.form.spell x) ≡ Some x }
{}

/// A line that is read is what is printed of the value, and of no other: a value has one spelling, and a line one value.
pub fn one_spelling<T: Form>()
    ensures line { (line : List ℕ) (x : T) → read_line T.form line ≡ Some x → line ≡ T.form.spell x }
    ensures value { (x y : T) → T.form.valid x → T.form.valid y → T.form.spell x ≡ T.form.spell y → x ≡ y }
{}

/// What is printed of a value is UTF-8 without a line feed.
pub fn printed_is_one_line<T: Form>()
    ensures utf8 { (x : T) → T.form.valid x → IsUtf8 (T.form.spell x) }
    ensures one { (x : T) → T.form.valid x → list_all no_feed (T.form.spell x) ≡ true }
{}
