//! The parts of templates that have a form of their own: variables, limits, and when a reservation is to start.
ghost use Rattle.std.specs.Prelude.{◌≡◌, ◌++◌, IfErr, OnOk};
ghost use Rattle.text_codec.specs.declared.unread.Unread.{Unread};
ghost use Rattle.text_codec.specs.Formats.{Answers};
ghost use Rattle.text_codec.specs.TemplateParts as parts;
ghost use Rattle.text_codec.specs.TemplatePartLaws as laws;

use crate::{Cursor, Form, Print, Unread, read_capitals};
use drmaa_types::{Pair, ResourceLimit, Start};
use std::alloc::AllocError;

impl Form for Pair {
    ghost form = { parts.variable };

    ghost laws = { laws.variable_laws };

    #[tactic(auto, unfolding(crate::specs::TemplateParts::variable, crate::specs::Formats::mapped, crate::specs::Formats::pair))]
    fn read(cursor: &mut Cursor) -> Result<Pair, Unread> {
        let name = cursor.text()?;
        cursor.expect(b" ")?;
        let value = cursor.text()?;
        Ok(Pair { name, value })
    }
}

impl Form for ResourceLimit {
    ghost form = { parts.resource_limit };

    ghost laws = { laws.resource_limit_laws };

    #[tactic(auto, unfolding(crate::specs::TemplateParts::resource_limit, crate::specs::Formats::mapped, crate::specs::Formats::pair))]
    fn read(cursor: &mut Cursor) -> Result<ResourceLimit, Unread> {
        let name = read_capitals(cursor)?;
        cursor.expect(b" ")?;
        let value = cursor.u64()?;
        Ok(ResourceLimit { name, value })
    }
}

impl Form for Start {
    ghost form = { parts.start };

    ghost laws = { laws.start_laws };

    #[tactic(auto, unfolding(crate::specs::TemplateParts::start, crate::specs::Formats::mapped, crate::specs::Formats::or_else))]
    fn read(cursor: &mut Cursor) -> Result<Start, Unread>
        ensures reads { Answers parts.start.read cursor.old result cursor.new }
        ensures memory { IfErr result (λ e. e ≡ Unread.Unspelled) }
    {
        if cursor.skip(b"now") {
            return Ok(Start::Now);
        }
        Ok(Start::At(cursor.moment()?))
    }
}

impl Print for Pair {
    ghost form = { parts.variable };

    #[tactic(auto, unfolding(crate::specs::TemplateParts::variable, crate::specs::Formats::mapped, crate::specs::Formats::pair))]
    fn push(&self, out: &mut Vec<u8>) -> Result<(), AllocError> {
        self.name.push(out)?;
        out.extend_from_slice(b" ")?;
        self.value.push(out)
    }
}

impl Print for Start {
    ghost form = { parts.start };

    #[tactic(auto, unfolding(crate::specs::TemplateParts::start, crate::specs::Formats::mapped, crate::specs::Formats::or_else))]
    fn push(&self, out: &mut Vec<u8>) -> Result<(), AllocError> {
        match *self {
            Start::At(moment) => moment.push(out),
            Start::Now => out.extend_from_slice(b"now"),
        }
    }
}
