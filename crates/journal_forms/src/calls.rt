//! Calls: read.
ghost use Rattle.std.specs.Prelude.{◌≡◌};
ghost use Rattle.text_codec.specs.Formats.{Answers};
ghost use Rattle.text_forms.specs.Templates.{template, frame};
ghost use Rattle.journal_forms.specs.Calls as calls;

use crate::control_calls::{array_at, job_at};
use crate::job_calls::{bulk_at, run_at, sought_at, wait_at};
use crate::report_calls::{exit_at, launched_at, signalled_at};
use crate::reservation_calls::{reservation_at, reserve_at};
use crate::session_calls::{create_at, name_at, session_at};
use crate::word_groups::{GroupedWord, group_of};
use drmaa_model::Call;
use drmaa_types::WaitKind;
use text_codec::{CallWord, Cursor, Unread, call_word_of};

/// What stands behind the word of a call.
fn fields_at(word: CallWord, cursor: &mut Cursor) -> Result<Call, Unread>
    ensures { Answers (calls.call_arms template frame word) cursor.old result cursor.new }
{
    match group_of(word) {
        GroupedWord::Create(word) => create_at(cursor, word),
        GroupedWord::Name(word) => name_at(cursor, word),
        GroupedWord::NamesJobs => Ok(Call::JobSessionNames),
        GroupedWord::NamesReservations => Ok(Call::ReservationSessionNames),
        GroupedWord::Monitor => Ok(Call::OpenMonitoring),
        GroupedWord::Session(word) => session_at(cursor, word),
        GroupedWord::Run => run_at(cursor),
        GroupedWord::Bulk => bulk_at(cursor),
        GroupedWord::Sought(word) => sought_at(cursor, word),
        GroupedWord::Array(word) => array_at(cursor, word),
        GroupedWord::Job(word) => job_at(cursor, word),
        GroupedWord::WaitStarted => wait_at(cursor, WaitKind::Started),
        GroupedWord::WaitTerminated => wait_at(cursor, WaitKind::Terminated),
        GroupedWord::Reserve => reserve_at(cursor),
        GroupedWord::Reservation(word) => reservation_at(cursor, word),
        GroupedWord::Register => Ok(Call::Register),
        GroupedWord::Launch => Ok(Call::TakeLaunch),
        GroupedWord::Launched(word) => launched_at(cursor, word),
        GroupedWord::Exit => exit_at(cursor),
        GroupedWord::Signal => Ok(Call::TakeSignal),
        GroupedWord::Signalled(word) => signalled_at(cursor, word),
    }
}

/// Reads a call.
#[tactic(auto, unfolding(crate::specs::Calls::calls, crate::specs::Calls::calls_with, text_codec::specs::Sums::sum_of))]
pub fn read_call(cursor: &mut Cursor) -> Result<Call, Unread>
    ensures { Answers calls.calls.body.read cursor.old result cursor.new }
{
    match call_word_of(cursor.word()) {
        Some(word) => fields_at(word, cursor),
        None => Err(Unread::Unspelled),
    }
}
