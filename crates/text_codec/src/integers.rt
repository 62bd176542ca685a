//! Whole numbers: read and printed.
ghost use Rattle.std.specs.Prelude.{◌≡◌, ◌++◌, ◌^◌, ℕ, List, IfErr, OnOk, nat_le, Option, Some, None, if◌then◌else◌};
ghost use Rattle.text_codec.specs.Integers as integers;
ghost use Rattle.text_codec.specs.IntegerLaws as laws;
ghost use Rattle.text_codec.specs.Formats.{Answers};
ghost use Rattle.text_codec.specs.declared.unread.Unread.{Unread};

use crate::cursor::{behind_key, number_of};
use crate::printing::push_number;
use crate::{Cursor, Form, Print, Unread};
use std::alloc::AllocError;

/// The negative of a number other than 0, down to -2^31.
fn negative(number: u64) -> Option<i32>
    ensures { result ≡ (if nat_le number (2 ^ 31) then integers.negative number else None) }
{
    if number == 0 || number > 1 << 31 {
        return None;
    }
    i32::try_from(-(number as i64)).ok()
}

/// The whole number from -2^31 to 2^31 - 1 that a word spells.
#[tactic(auto, unfolding(crate::specs::Integers::integer_of, crate::specs::Formats::number_of))]
pub fn integer_of(word: &[u8]) -> Option<i32>
    ensures { result ≡ integers.integer_of (2 ^ 31) word.now }
{
    match behind_key(word, b"-") {
        Some(digits) => negative(number_of(digits)?),
        None => i32::try_from(number_of(word)?).ok(),
    }
}

impl Form for i32 {
    ghost form = { integers.integer (2 ^ 31) };

    ghost laws = { laws.integer_laws_32 };

    #[tactic(auto, unfolding(crate::specs::Integers::integer))]
    fn read(cursor: &mut Cursor) -> Result<i32, Unread>
        ensures reads { Answers (integers.integer (2 ^ 31)).read cursor.old result cursor.new }
        ensures memory { IfErr result (λ e. e ≡ Unread.Unspelled) }
    {
        match integer_of(cursor.word()) {
            Some(n) => Ok(n),
            None => Err(Unread::Unspelled),
        }
    }
}

impl Print for i32 {
    ghost form = { integers.integer (2 ^ 31) };

    #[tactic(auto, unfolding(crate::specs::Integers::integer))]
    fn push(&self, out: &mut Vec<u8>) -> Result<(), AllocError> {
        let number = *self;
        if number < 0 {
            out.extend_from_slice(b"-")?;
        }
        push_number(out, u64::from(number.unsigned_abs()))
    }
}
