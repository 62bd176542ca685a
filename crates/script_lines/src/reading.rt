//! How client lines are read.
ghost use Rattle.std.specs.Prelude.{◌≡◌};
ghost use Rattle.text_codec.specs.Formats.{Answers, Says};
ghost use Rattle.text_codec.specs.Formats as form;
ghost use Rattle.script_lines.specs.Lines as lines;
ghost use Rattle.script_lines.specs.WordGroups as groups;

use crate::job_lines::{bulk_line, reserve_line, run_line, sought_line, wait_line};
use crate::play_lines::{at_line, ended_line, signalled_line};
use crate::session_lines::{create_line, destroy_line, monitor_line, open_line};
use crate::shapes::{one_behind, two_behind};
use crate::word_groups::{GroupedWord, OneWord, TwoWord, group_of};
use crate::{Line, LineWord, line_word_of};
use std::alloc::Global;
use text_codec::{Cursor, Unread};

/// The reference that stands behind such a word.
#[tactic(auto, unfolding(crate::specs::Shapes::ref_fields))]
fn one_line(word: OneWord, cursor: &mut Cursor) -> Result<Line, Unread>
    ensures { Answers (lines.line_arms (groups.one_word word)) cursor.old result cursor.new }
{
    let (reference, ()) = one_behind(cursor)?;
    Ok(match word {
        OneWord::Close => Line::Close { session: reference },
        OneWord::Reservations => Line::Reservations { session: reference },
        OneWord::AllReservations => Line::AllReservations { session: reference },
        OneWord::Queues => Line::Queues { session: reference },
        OneWord::Machines => Line::Machines { session: reference },
        OneWord::Started => Line::Started { job: reference },
        OneWord::StartFailed => Line::StartFailed { job: reference },
        OneWord::ExitUnknown => Line::ExitUnknown { job: reference },
    })
}

/// The session that stands behind such a word, and what it has.
fn two_line(word: TwoWord, cursor: &mut Cursor) -> Result<Line, Unread>
    ensures { Answers (lines.line_arms (groups.two_word word)) cursor.old result cursor.new }
{
    let (session, (other, ())) = two_behind(cursor)?;
    Ok(match word {
        TwoWord::Array => Line::Array {
            session,
            array: other,
        },
        TwoWord::Suspend => Line::Suspend {
            session,
            job: other,
        },
        TwoWord::Resume => Line::Resume {
            session,
            job: other,
        },
        TwoWord::Hold => Line::Hold {
            session,
            job: other,
        },
        TwoWord::Release => Line::Release {
            session,
            job: other,
        },
        TwoWord::Terminate => Line::Terminate {
            session,
            job: other,
        },
        TwoWord::SuspendArray => Line::SuspendArray {
            session,
            array: other,
        },
        TwoWord::ResumeArray => Line::ResumeArray {
            session,
            array: other,
        },
        TwoWord::HoldArray => Line::HoldArray {
            session,
            array: other,
        },
        TwoWord::ReleaseArray => Line::ReleaseArray {
            session,
            array: other,
        },
        TwoWord::TerminateArray => Line::TerminateArray {
            session,
            array: other,
        },
        TwoWord::Reap => Line::Reap {
            session,
            job: other,
        },
        TwoWord::ReapArray => Line::ReapArray {
            session,
            array: other,
        },
        TwoWord::State => Line::State {
            session,
            job: other,
        },
        TwoWord::Info => Line::Info {
            session,
            job: other,
        },
        TwoWord::Reservation => Line::Reservation {
            session,
            reservation: other,
        },
        TwoWord::Cancel => Line::Cancel {
            session,
            reservation: other,
        },
    })
}

/// What stands behind the word of a client line.
fn behind_word(word: LineWord, cursor: &mut Cursor) -> Result<Line, Unread>
    ensures { Answers (lines.line_arms word) cursor.old result cursor.new }
{
    match group_of(word) {
        GroupedWord::Create(word) => create_line(word, cursor),
        GroupedWord::Open(word) => open_line(word, cursor),
        GroupedWord::Destroy(word) => destroy_line(word, cursor),
        GroupedWord::NamesJobs => Ok(Line::NamesJobs),
        GroupedWord::NamesReservations => Ok(Line::NamesReservations),
        GroupedWord::Monitor => monitor_line(cursor),
        GroupedWord::One(word) => one_line(word, cursor),
        GroupedWord::Run => run_line(cursor),
        GroupedWord::Bulk => bulk_line(cursor),
        GroupedWord::Sought(word) => sought_line(word, cursor),
        GroupedWord::Two(word) => two_line(word, cursor),
        GroupedWord::Wait(word) => wait_line(word, cursor),
        GroupedWord::Reserve => reserve_line(cursor),
        GroupedWord::Register => Ok(Line::Register),
        GroupedWord::At => at_line(cursor),
        GroupedWord::Launch => Ok(Line::Launch),
        GroupedWord::Ended(word) => ended_line(word, cursor),
        GroupedWord::Signal => Ok(Line::Signal),
        GroupedWord::Signalled(word) => signalled_line(word, cursor),
    }
}

#[tactic(auto, unfolding(crate::specs::Lines::line_sum, text_codec::specs::Sums::sum_of))]
fn line_at(cursor: &mut Cursor) -> Result<Line, Unread>
    ensures { Answers lines.line_sum.body.read cursor.old result cursor.new }
{
    match line_word_of(cursor.word()) {
        Some(word) => behind_word(word, cursor),
        None => Err(Unread::Unspelled),
    }
}

/// What was read, where nothing follows it.
pub(crate) fn alone<T: Drop>(cursor: &Cursor, value: T) -> Result<T, Unread>
    ensures { Says (form.whole value cursor.now) result }
{
    cursor.end()?;
    Ok(value)
}

/// What a client line says.
///
/// # Errors
/// `Unspelled` exactly where it is none.
#[tactic(auto, unfolding(crate::specs::Lines::read_line))]
pub fn read_line(alloc: Global, line: &[u8]) -> Result<Line, Unread>
    ensures { Says (lines.read_line line.now) result }
{
    let mut cursor = Cursor::new(alloc, line);
    let said = line_at(&mut cursor)?;
    alone(&cursor, said)
}
