//! What stands behind each word.
use crate::items::Item;
use script_lines::{JobFieldWord, LineWord, ReservationFieldWord};

/// What stands behind the word of the machine line.
pub(crate) const MACHINE: &[Item] = &[Item::Slots, Item::ShortText, Item::Suspend];

/// What stands behind the word of a queue's line.
pub(crate) const QUEUE: &[Item] = &[Item::ShortText, Item::Number];

/// What stands behind the word that begins a template.
pub(crate) const TEMPLATE: &[Item] = &[Item::TemplateName];

// What stands behind the words of lines of blocks.
const NOTHING: &[Item] = &[];

const NEW_SESSION: &[Item] = &[Item::Name, Item::MaybeText];

const OPEN_SESSION: &[Item] = &[Item::Name, Item::Text];

const SESSION_NAME: &[Item] = &[Item::Text];

const NEW_MONITOR: &[Item] = &[Item::Name];

const NEW_JOB: &[Item] = &[Item::Name, Item::Session, Item::Template, Item::Reserved];

const NEW_ARRAY: &[Item] = &[
    Item::Name,
    Item::Session,
    Item::Template,
    Item::Number,
    Item::Number,
    Item::Number,
    Item::Bound,
    Item::Reserved,
];

const NEW_RESERVATION: &[Item] = &[Item::Name, Item::Session, Item::ReservationTemplate];

const SESSION: &[Item] = &[Item::Session];

const FILTERED: &[Item] = &[Item::Session, Item::Filters];

const JOB: &[Item] = &[Item::Session, Item::Job];

const ARRAY: &[Item] = &[Item::Session, Item::Array];

const RESERVATION: &[Item] = &[Item::Session, Item::Reservation];

const WAIT: &[Item] = &[Item::Session, Item::Timeout, Item::Jobs];

const MOMENT: &[Item] = &[Item::Moment];

const REPORT: &[Item] = &[Item::Job];

const EXIT: &[Item] = &[Item::Job, Item::Byte];

const SIGNALLED: &[Item] = &[Item::Job, Item::Kind];

/// What stands behind the word of a line.
pub(crate) fn items_of(word: LineWord) -> &'static [Item] {
    match word {
        LineWord::CreateJobs | LineWord::CreateReservations => NEW_SESSION,
        LineWord::OpenJobs | LineWord::OpenReservations => OPEN_SESSION,
        LineWord::DestroyJobs | LineWord::DestroyReservations => SESSION_NAME,
        LineWord::NamesJobs
        | LineWord::NamesReservations
        | LineWord::Register
        | LineWord::Launch
        | LineWord::Signal => NOTHING,
        LineWord::Monitor => NEW_MONITOR,
        LineWord::Run => NEW_JOB,
        LineWord::Bulk => NEW_ARRAY,
        LineWord::Jobs | LineWord::AllJobs => FILTERED,
        LineWord::Close
        | LineWord::Reservations
        | LineWord::AllReservations
        | LineWord::Queues
        | LineWord::Machines => SESSION,
        LineWord::Array
        | LineWord::SuspendArray
        | LineWord::ResumeArray
        | LineWord::HoldArray
        | LineWord::ReleaseArray
        | LineWord::TerminateArray
        | LineWord::ReapArray => ARRAY,
        LineWord::Suspend
        | LineWord::Resume
        | LineWord::Hold
        | LineWord::Release
        | LineWord::Terminate
        | LineWord::Reap
        | LineWord::State
        | LineWord::Info => JOB,
        LineWord::WaitStarted | LineWord::WaitTerminated => WAIT,
        LineWord::Reserve => NEW_RESERVATION,
        LineWord::Reservation | LineWord::Cancel => RESERVATION,
        LineWord::At => MOMENT,
        LineWord::Started | LineWord::StartFailed | LineWord::ExitUnknown => REPORT,
        LineWord::Exit | LineWord::ExitSignal => EXIT,
        LineWord::SignalDone | LineWord::SignalFailed => SIGNALLED,
    }
}

/// Whether a serial script alone has such lines.
pub(crate) fn is_serial(word: LineWord) -> bool {
    matches!(
        word,
        LineWord::At
            | LineWord::Launch
            | LineWord::Started
            | LineWord::StartFailed
            | LineWord::Exit
            | LineWord::ExitSignal
            | LineWord::ExitUnknown
            | LineWord::Signal
            | LineWord::SignalDone
            | LineWord::SignalFailed
    )
}

/// Whether such lines wait for jobs.
pub(crate) fn is_wait(word: LineWord) -> bool {
    matches!(word, LineWord::WaitStarted | LineWord::WaitTerminated)
}

/// What stands behind the word of a line of a job's template.
pub(crate) fn items_of_job_field(word: JobFieldWord) -> &'static [Item] {
    match word {
        JobFieldWord::Command
        | JobFieldWord::Arg
        | JobFieldWord::Directory
        | JobFieldWord::Name
        | JobFieldWord::Input
        | JobFieldWord::Output
        | JobFieldWord::Error
        | JobFieldWord::Queue => &[Item::Text],
        JobFieldWord::Hold | JobFieldWord::Rerunnable | JobFieldWord::Join => &[],
        JobFieldWord::Env => &[Item::Text, Item::Text],
        JobFieldWord::MinSlots | JobFieldWord::MaxSlots => &[Item::Number],
        JobFieldWord::Priority => &[Item::Integer],
        JobFieldWord::Start | JobFieldWord::Deadline => &[Item::Moment],
        JobFieldWord::Limit => &[Item::Limit, Item::LongNumber],
        JobFieldWord::Other => &[Item::Attribute],
    }
}

/// What stands behind the word of a line of a reservation's template.
pub(crate) fn items_of_reservation_field(word: ReservationFieldWord) -> &'static [Item] {
    match word {
        ReservationFieldWord::Name => &[Item::Text],
        ReservationFieldWord::Start => &[Item::Beginning],
        ReservationFieldWord::End => &[Item::Moment],
        ReservationFieldWord::Duration => &[Item::LongNumber],
        ReservationFieldWord::MinSlots | ReservationFieldWord::MaxSlots => &[Item::Number],
        ReservationFieldWord::Other => &[Item::Attribute],
    }
}
