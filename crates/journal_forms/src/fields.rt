//! Fields of calls and replies: one to three values, or a list, each behind a space.
ghost use Rattle.std.specs.Prelude.{◌≡◌, ◌++◌, OnOk, IfOk, IfErr};
ghost use Rattle.text_codec.specs.declared.unread.Unread.{Unread};
ghost use Rattle.text_codec.specs.Formats.{Answers, list_of, pair};
ghost use Rattle.text_codec.specs.Sums.{arm, keyed};

use drmaa_types::{Boxed, ListOf, Shared};
use std::alloc::AllocError;
use text_codec::{Cursor, Form, Print, Unread, push_behind, read_list};

/// Reads one value.
pub(crate) fn one<A: Form>(cursor: &mut Cursor) -> Result<A, Unread>
    ensures { Answers (arm A.form (λ x. x)) cursor.old result cursor.new }
{
    cursor.expect(b" ")?;
    let first = A::read(cursor)?;
    Ok(first)
}

/// Reads one value, which is to lie in memory of its own.
pub(crate) fn boxed<A: Form + Drop>(cursor: &mut Cursor) -> Result<Boxed<A>, Unread>
    ensures { Answers (arm A.form (λ x. x)) cursor.old result cursor.new }
{
    let value = one(cursor)?;
    own(cursor, value)
}

/// This value, which was read, in memory of its own.
pub(crate) fn own<T: Drop>(cursor: &Cursor, value: T) -> Result<Boxed<T>, Unread>
    ensures ok { IfOk result (λ b. b ≡ value) }
    ensures err { IfErr result (λ why. why ≡ Unread.OutOfMemory) }
{
    Ok(Boxed::new(cursor.alloc(), value)?)
}

/// This value, which was read, in memory that others may share.
pub(crate) fn shared<T: Drop>(cursor: &Cursor, value: T) -> Result<Shared<T>, Unread>
    ensures ok { IfOk result (λ s. s ≡ value) }
    ensures err { IfErr result (λ why. why ≡ Unread.OutOfMemory) }
{
    Ok(Shared::new(cursor.alloc(), value)?)
}

/// Reads a list.
pub(crate) fn listed<A: Form>(cursor: &mut Cursor) -> Result<ListOf<A>, Unread>
    ensures { Answers (arm (list_of A.form) (λ x. x)) cursor.old result cursor.new }
{
    cursor.expect(b" ")?;
    read_list(cursor)
}

/// Reads two values.
#[tactic(auto, unfolding(text_codec::specs::Formats::pair))]
pub(crate) fn two<A: Form, B: Form>(cursor: &mut Cursor) -> Result<(A, B), Unread>
    ensures { Answers (arm (pair A.form B.form) (λ x. x)) cursor.old result cursor.new }
{
    let first = one(cursor)?;
    let second = one(cursor)?;
    Ok((first, second))
}

/// Reads three values.
#[tactic(auto, unfolding(text_codec::specs::Formats::pair))]
pub(crate) fn three<A: Form, B: Form, C: Form>(cursor: &mut Cursor) -> Result<(A, (B, C)), Unread>
    ensures { Answers (arm (pair A.form (pair B.form C.form)) (λ x. x)) cursor.old result cursor.new }
{
    let first = one(cursor)?;
    let others = two(cursor)?;
    Ok((first, others))
}

/// Prints a word and one value.
pub(crate) fn push_one<A: Print>(
    out: &mut Vec<u8>,
    word: &[u8],
    first: &A,
) -> Result<(), AllocError>
    ensures text { OnOk result (out.new.items ≡ out.old.items ++ (keyed word.now A.form first.now).text) }
    ensures valid { OnOk result ((keyed word.now A.form first.now).valid) }
{
    out.extend_from_slice(word)?;
    push_behind(out, b" ", first)
}

/// Prints a word and two values.
#[tactic(auto, unfolding(text_codec::specs::Formats::pair))]
pub(crate) fn push_two<A: Print, B: Print>(
    out: &mut Vec<u8>,
    word: &[u8],
    first: &A,
    second: &B,
) -> Result<(), AllocError>
    ensures text { OnOk result (out.new.items ≡ out.old.items ++ (keyed word.now (pair A.form B.form) (first.now, second.now)).text) }
    ensures valid { OnOk result ((keyed word.now (pair A.form B.form) (first.now, second.now)).valid) }
{
    push_one(out, word, first)?;
    push_behind(out, b" ", second)
}

/// Prints a word and three values.
#[tactic(auto, unfolding(text_codec::specs::Formats::pair))]
pub(crate) fn push_three<A: Print, B: Print, C: Print>(
    out: &mut Vec<u8>,
    word: &[u8],
    first: &A,
    second: &B,
    third: &C,
) -> Result<(), AllocError>
    ensures text { OnOk result (out.new.items ≡ out.old.items ++ (keyed word.now (pair A.form (pair B.form C.form)) (first.now, (second.now, third.now))).text) }
    ensures valid { OnOk result ((keyed word.now (pair A.form (pair B.form C.form)) (first.now, (second.now, third.now))).valid) }
{
    push_two(out, word, first, second)?;
    push_behind(out, b" ", third)
}
