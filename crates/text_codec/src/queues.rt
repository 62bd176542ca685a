//! A queue of a machine: its name and its limit.
ghost use Rattle.std.specs.Prelude.{◌≡◌, ◌++◌, OnOk};
ghost use Rattle.text_codec.specs.Formats.{Answers};
ghost use Rattle.text_codec.specs.Queues as forms;
ghost use Rattle.text_codec.specs.QueueLaws as laws;

use crate::{Cursor, Form, Print, Unread};
use drmaa_types::QueueSpec;
use std::alloc::AllocError;

impl Form for QueueSpec {
    ghost form = { forms.queue };

    ghost laws = { laws.queue_laws };

    #[tactic(auto, unfolding(crate::specs::Queues::queue, crate::specs::Formats::mapped, crate::specs::Formats::pair))]
    fn read(cursor: &mut Cursor) -> Result<QueueSpec, Unread> {
        let name = cursor.text()?;
        cursor.expect(b" ")?;
        let limit = cursor.u32()?;
        Ok(QueueSpec { name, limit })
    }
}

impl Print for QueueSpec {
    ghost form = { forms.queue };

    #[tactic(auto, unfolding(crate::specs::Queues::queue, crate::specs::Formats::mapped, crate::specs::Formats::pair))]
    fn push(&self, out: &mut Vec<u8>) -> Result<(), AllocError> {
        self.name.push(out)?;
        out.extend_from_slice(b" ")?;
        self.limit.push(out)
    }
}
