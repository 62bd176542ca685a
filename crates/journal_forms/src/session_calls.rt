//! Calls of sessions: made, opened, destroyed, named and closed.
ghost use Rattle.std.specs.Prelude.{◌≡◌, ◌++◌, OnOk};
ghost use Rattle.text_codec.specs.Formats.{Answers};
ghost use Rattle.text_codec.specs.Sums.{fielded};
ghost use Rattle.text_forms.specs.Templates.{template, frame};
ghost use Rattle.journal_forms.specs.Calls as calls;
ghost use Rattle.journal_forms.specs.WordGroups as groups;

use crate::fields::{one, push_one};
use crate::word_groups::{CreateWord, NameWord, SessionWord};
use drmaa_model::Call;
use drmaa_types::Text;
use std::alloc::AllocError;
use text_codec::{Cursor, Unread};

/// Reads the name that a session is made with, which may be left out.
#[tactic(auto, unfolding(crate::specs::Calls::named, text_codec::specs::Fields::field, text_codec::specs::Fields::no_more))]
pub(crate) fn create_at(cursor: &mut Cursor, word: CreateWord) -> Result<Call, Unread>
    ensures { Answers (calls.call_arms template frame (groups.create_word word)) cursor.old result cursor.new }
{
    let name = cursor.name()?;
    Ok(match word {
        CreateWord::CreateJobs => Call::CreateJobSession { name },
        CreateWord::CreateReservations => Call::CreateReservationSession { name },
    })
}

/// Reads the name of a session that is opened or destroyed.
pub(crate) fn name_at(cursor: &mut Cursor, word: NameWord) -> Result<Call, Unread>
    ensures { Answers (calls.call_arms template frame (groups.name_word word)) cursor.old result cursor.new }
{
    let name = one(cursor)?;
    Ok(match word {
        NameWord::OpenJobs => Call::OpenJobSession { name },
        NameWord::OpenReservations => Call::OpenReservationSession { name },
        NameWord::DestroyJobs => Call::DestroyJobSession { name },
        NameWord::DestroyReservations => Call::DestroyReservationSession { name },
    })
}

/// Reads a session alone.
pub(crate) fn session_at(cursor: &mut Cursor, word: SessionWord) -> Result<Call, Unread>
    ensures { Answers (calls.call_arms template frame (groups.session_word word)) cursor.old result cursor.new }
{
    let session = one(cursor)?;
    Ok(match word {
        SessionWord::Close => Call::CloseSession { session },
        SessionWord::Reservations => Call::GetReservations { session },
        SessionWord::AllReservations => Call::AllReservations { session },
        SessionWord::Queues => Call::AllQueues { session },
        SessionWord::Machines => Call::AllMachines { session },
    })
}

/// Prints a word and a name, which may be left out.
#[tactic(auto, unfolding(crate::specs::Calls::named, text_codec::specs::Fields::field, text_codec::specs::Fields::no_more, text_codec::specs::Quotes::text, text_codec::specs::Quotes::inside))]
pub(crate) fn push_named(
    out: &mut Vec<u8>,
    word: &[u8],
    name: &Option<Text>,
) -> Result<(), AllocError>
    ensures text { OnOk result (out.new.items ≡ out.old.items ++ (fielded word.now calls.named (name.now, tt)).text) }
    ensures valid { OnOk result ((fielded word.now calls.named (name.now, tt)).valid) }
{
    match name {
        Some(name) => push_one(out, word, name),
        None => out.extend_from_slice(word),
    }
}
