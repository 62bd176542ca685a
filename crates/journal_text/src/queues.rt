//! The queues of a journal's machine, as the first line says them.
ghost use Rattle.std.specs.Prelude.{◌≡◌, ◌++◌, OnOk};
ghost use Rattle.text_codec.specs.Formats.{Answers};
ghost use Rattle.journal_text.specs.Queues as forms;

use drmaa_types::QueueList;
use std::alloc::AllocError;
use text_codec::{Cursor, Unread, push_list, read_list};

/// Reads the queues.
#[tactic(auto, unfolding(crate::specs::Queues::queues))]
pub(crate) fn queues_at(cursor: &mut Cursor) -> Result<QueueList, Unread>
    ensures { Answers forms.queues.read cursor.old result cursor.new }
{
    read_list(cursor)
}

/// Prints the queues.
#[tactic(auto, unfolding(crate::specs::Queues::queues))]
pub(crate) fn push_queues(out: &mut Vec<u8>, queues: &QueueList) -> Result<(), AllocError>
    ensures text { OnOk result (out.new.items ≡ out.old.items ++ forms.queues.spell queues.now) }
    ensures valid { OnOk result (forms.queues.valid queues.now) }
{
    push_list(out, queues.as_slice())
}
