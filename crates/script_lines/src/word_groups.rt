//! The words of client lines in groups, by what stands behind them.
ghost use Rattle.std.specs.Prelude.{◌≡◌};
ghost use Rattle.script_lines.specs.WordGroups as groups;

use crate::LineWord;

/// The words of lines that make sessions.
#[derive(Clone, Copy)]
pub(crate) enum CreateWord {
    CreateJobs,
    CreateReservations,
}

/// The words of lines that open sessions.
#[derive(Clone, Copy)]
pub(crate) enum OpenWord {
    OpenJobs,
    OpenReservations,
}

/// The words of lines that destroy sessions.
#[derive(Clone, Copy)]
pub(crate) enum DestroyWord {
    DestroyJobs,
    DestroyReservations,
}

/// The words behind which a session stands, and a filter.
#[derive(Clone, Copy)]
pub(crate) enum SoughtWord {
    Jobs,
    AllJobs,
}

/// The words of waits.
#[derive(Clone, Copy)]
pub(crate) enum WaitWord {
    WaitStarted,
    WaitTerminated,
}

/// The words behind which one reference stands.
#[derive(Clone, Copy)]
pub(crate) enum OneWord {
    Close,
    Reservations,
    AllReservations,
    Queues,
    Machines,
    Started,
    StartFailed,
    ExitUnknown,
}

/// The words behind which a session stands, and what it has.
#[derive(Clone, Copy)]
pub(crate) enum TwoWord {
    Array,
    Suspend,
    Resume,
    Hold,
    Release,
    Terminate,
    SuspendArray,
    ResumeArray,
    HoldArray,
    ReleaseArray,
    TerminateArray,
    Reap,
    ReapArray,
    State,
    Info,
    Reservation,
    Cancel,
}

/// The words behind which a job stands, and how it ended.
#[derive(Clone, Copy)]
pub(crate) enum EndedWord {
    Exit,
    ExitSignal,
}

/// The words behind which a job stands, and the kind of a signal.
#[derive(Clone, Copy)]
pub(crate) enum SignalledWord {
    SignalDone,
    SignalFailed,
}

/// A word in its group, or by itself.
pub(crate) enum GroupedWord {
    Create(CreateWord),
    Open(OpenWord),
    Destroy(DestroyWord),
    NamesJobs,
    NamesReservations,
    Monitor,
    One(OneWord),
    Run,
    Bulk,
    Sought(SoughtWord),
    Two(TwoWord),
    Wait(WaitWord),
    Reserve,
    Register,
    At,
    Launch,
    Ended(EndedWord),
    Signal,
    Signalled(SignalledWord),
}

/// The word in its group.
pub(crate) fn group_of(word: LineWord) -> GroupedWord
    ensures { groups.word_of result ≡ word }
{
    match word {
        LineWord::CreateJobs => GroupedWord::Create(CreateWord::CreateJobs),
        LineWord::CreateReservations => GroupedWord::Create(CreateWord::CreateReservations),
        LineWord::OpenJobs => GroupedWord::Open(OpenWord::OpenJobs),
        LineWord::OpenReservations => GroupedWord::Open(OpenWord::OpenReservations),
        LineWord::DestroyJobs => GroupedWord::Destroy(DestroyWord::DestroyJobs),
        LineWord::DestroyReservations => GroupedWord::Destroy(DestroyWord::DestroyReservations),
        LineWord::NamesJobs => GroupedWord::NamesJobs,
        LineWord::NamesReservations => GroupedWord::NamesReservations,
        LineWord::Monitor => GroupedWord::Monitor,
        LineWord::Close => GroupedWord::One(OneWord::Close),
        LineWord::Run => GroupedWord::Run,
        LineWord::Bulk => GroupedWord::Bulk,
        LineWord::Jobs => GroupedWord::Sought(SoughtWord::Jobs),
        LineWord::Array => GroupedWord::Two(TwoWord::Array),
        LineWord::Suspend => GroupedWord::Two(TwoWord::Suspend),
        LineWord::Resume => GroupedWord::Two(TwoWord::Resume),
        LineWord::Hold => GroupedWord::Two(TwoWord::Hold),
        LineWord::Release => GroupedWord::Two(TwoWord::Release),
        LineWord::Terminate => GroupedWord::Two(TwoWord::Terminate),
        LineWord::SuspendArray => GroupedWord::Two(TwoWord::SuspendArray),
        LineWord::ResumeArray => GroupedWord::Two(TwoWord::ResumeArray),
        LineWord::HoldArray => GroupedWord::Two(TwoWord::HoldArray),
        LineWord::ReleaseArray => GroupedWord::Two(TwoWord::ReleaseArray),
        LineWord::TerminateArray => GroupedWord::Two(TwoWord::TerminateArray),
        LineWord::Reap => GroupedWord::Two(TwoWord::Reap),
        LineWord::ReapArray => GroupedWord::Two(TwoWord::ReapArray),
        LineWord::State => GroupedWord::Two(TwoWord::State),
        LineWord::Info => GroupedWord::Two(TwoWord::Info),
        LineWord::WaitStarted => GroupedWord::Wait(WaitWord::WaitStarted),
        LineWord::WaitTerminated => GroupedWord::Wait(WaitWord::WaitTerminated),
        LineWord::Reserve => GroupedWord::Reserve,
        LineWord::Reservation => GroupedWord::Two(TwoWord::Reservation),
        LineWord::Reservations => GroupedWord::One(OneWord::Reservations),
        LineWord::Cancel => GroupedWord::Two(TwoWord::Cancel),
        LineWord::AllJobs => GroupedWord::Sought(SoughtWord::AllJobs),
        LineWord::AllReservations => GroupedWord::One(OneWord::AllReservations),
        LineWord::Queues => GroupedWord::One(OneWord::Queues),
        LineWord::Machines => GroupedWord::One(OneWord::Machines),
        LineWord::Register => GroupedWord::Register,
        LineWord::At => GroupedWord::At,
        LineWord::Launch => GroupedWord::Launch,
        LineWord::Started => GroupedWord::One(OneWord::Started),
        LineWord::StartFailed => GroupedWord::One(OneWord::StartFailed),
        LineWord::Exit => GroupedWord::Ended(EndedWord::Exit),
        LineWord::ExitSignal => GroupedWord::Ended(EndedWord::ExitSignal),
        LineWord::ExitUnknown => GroupedWord::One(OneWord::ExitUnknown),
        LineWord::Signal => GroupedWord::Signal,
        LineWord::SignalDone => GroupedWord::Signalled(SignalledWord::SignalDone),
        LineWord::SignalFailed => GroupedWord::Signalled(SignalledWord::SignalFailed),
    }
}
