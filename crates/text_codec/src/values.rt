//! The forms of numbers, moments and texts.
ghost use Rattle.std.specs.Prelude.{◌≡◌, ◌++◌, ◌^◌, ℕ, List, IfErr, OnOk};
ghost use Rattle.text_codec.specs.Formats.{Answers};
ghost use Rattle.text_codec.specs.Formats as form;
ghost use Rattle.text_codec.specs.Quotes as quotes;
ghost use Rattle.text_codec.specs.BaseLaws as laws;
ghost use Rattle.text_codec.specs.declared.unread.Unread.{Unread};

use crate::printing::push_number;
use crate::quotes::push_quoted;
use crate::{Cursor, Form, Print, Unread};
use drmaa_types::{Moment, Text};
use std::alloc::AllocError;

impl Form for Text {
    ghost form = { quotes.text };

    ghost laws = { laws.text_laws };

    fn read(cursor: &mut Cursor) -> Result<Text, Unread> {
        cursor.text()
    }
}

impl Print for Text {
    ghost form = { quotes.text };

    #[tactic(auto, unfolding(crate::specs::Quotes::text))]
    fn push(&self, out: &mut Vec<u8>) -> Result<(), AllocError> {
        push_quoted(out, self)
    }
}

impl Form for Moment {
    ghost form = { form.moment };

    ghost laws = { laws.moment_laws };

    fn read(cursor: &mut Cursor) -> Result<Moment, Unread>
        ensures reads { Answers form.moment.read cursor.old result cursor.new }
        ensures memory { IfErr result (λ e. e ≡ Unread.Unspelled) }
    {
        cursor.moment()
    }
}

impl Print for Moment {
    ghost form = { form.moment };

    #[tactic(auto, unfolding(crate::specs::Formats::moment, crate::specs::Formats::behind, crate::specs::Formats::number))]
    fn push(&self, out: &mut Vec<u8>) -> Result<(), AllocError> {
        out.extend_from_slice(b"@")?;
        push_number(out, self.number())
    }
}

impl Form for u64 {
    ghost form = { form.number (2 ^ 64) };

    ghost laws = { laws.number_laws_64 };

    fn read(cursor: &mut Cursor) -> Result<u64, Unread>
        ensures reads { Answers (form.number (2 ^ 64)).read cursor.old result cursor.new }
        ensures memory { IfErr result (λ e. e ≡ Unread.Unspelled) }
    {
        cursor.u64()
    }
}

impl Print for u64 {
    ghost form = { form.number (2 ^ 64) };

    #[tactic(auto, unfolding(crate::specs::Formats::number))]
    fn push(&self, out: &mut Vec<u8>) -> Result<(), AllocError> {
        push_number(out, *self)
    }
}

impl Form for u32 {
    ghost form = { form.number (2 ^ 32) };

    ghost laws = { laws.number_laws_32 };

    fn read(cursor: &mut Cursor) -> Result<u32, Unread>
        ensures reads { Answers (form.number (2 ^ 32)).read cursor.old result cursor.new }
        ensures memory { IfErr result (λ e. e ≡ Unread.Unspelled) }
    {
        cursor.u32()
    }
}

impl Print for u32 {
    ghost form = { form.number (2 ^ 32) };

    #[tactic(auto, unfolding(crate::specs::Formats::number))]
    fn push(&self, out: &mut Vec<u8>) -> Result<(), AllocError> {
        push_number(out, u64::from(*self))
    }
}

impl Form for u8 {
    ghost form = { form.number (2 ^ 8) };

    ghost laws = { laws.number_laws_8 };

    fn read(cursor: &mut Cursor) -> Result<u8, Unread>
        ensures reads { Answers (form.number (2 ^ 8)).read cursor.old result cursor.new }
        ensures memory { IfErr result (λ e. e ≡ Unread.Unspelled) }
    {
        cursor.u8()
    }
}

impl Print for u8 {
    ghost form = { form.number (2 ^ 8) };

    #[tactic(auto, unfolding(crate::specs::Formats::number))]
    fn push(&self, out: &mut Vec<u8>) -> Result<(), AllocError> {
        push_number(out, u64::from(*self))
    }
}
