//! The words of calls in groups, by what stands behind them.
ghost use Rattle.std.specs.Prelude.{◌≡◌};
ghost use Rattle.journal_forms.specs.WordGroups as groups;

use text_codec::CallWord;

/// The words of calls that make sessions: a name may stand behind them.
#[derive(Clone, Copy)]
pub(crate) enum CreateWord {
    CreateJobs,
    CreateReservations,
}

/// The words of calls that open and destroy sessions: a name stands behind them.
#[derive(Clone, Copy)]
pub(crate) enum NameWord {
    OpenJobs,
    OpenReservations,
    DestroyJobs,
    DestroyReservations,
}

/// The words behind which a session alone stands.
#[derive(Clone, Copy)]
pub(crate) enum SessionWord {
    Close,
    Reservations,
    AllReservations,
    Queues,
    Machines,
}

/// The words behind which a session stands, and a filter.
#[derive(Clone, Copy)]
pub(crate) enum SoughtWord {
    Jobs,
    AllJobs,
}

/// The words behind which a session stands, and a job.
#[derive(Clone, Copy)]
pub(crate) enum JobWord {
    Suspend,
    Resume,
    Hold,
    Release,
    Terminate,
    Reap,
    State,
    Info,
}

/// The words behind which a session stands, and an array.
#[derive(Clone, Copy)]
pub(crate) enum ArrayWord {
    Array,
    SuspendArray,
    ResumeArray,
    HoldArray,
    ReleaseArray,
    TerminateArray,
    ReapArray,
}

/// The words behind which a session stands, and a reservation.
#[derive(Clone, Copy)]
pub(crate) enum ReservationWord {
    Reservation,
    Cancel,
}

/// The words behind which a job stands, and an attempt.
#[derive(Clone, Copy)]
pub(crate) enum LaunchedWord {
    Started,
    StartFailed,
    ExitUnknown,
}

/// The words behind which a job stands, an attempt, and the kind of a signal.
#[derive(Clone, Copy)]
pub(crate) enum SignalledWord {
    SignalDone,
    SignalFailed,
}

/// A word in its group, or by itself.
pub(crate) enum GroupedWord {
    Create(CreateWord),
    Name(NameWord),
    NamesJobs,
    NamesReservations,
    Monitor,
    Session(SessionWord),
    Run,
    Bulk,
    Sought(SoughtWord),
    Array(ArrayWord),
    Job(JobWord),
    WaitStarted,
    WaitTerminated,
    Reserve,
    Reservation(ReservationWord),
    Register,
    Launch,
    Launched(LaunchedWord),
    Exit,
    Signal,
    Signalled(SignalledWord),
}

/// The word in its group.
pub(crate) fn group_of(word: CallWord) -> GroupedWord
    ensures { groups.word_of result ≡ word }
{
    match word {
        CallWord::CreateJobs => GroupedWord::Create(CreateWord::CreateJobs),
        CallWord::CreateReservations => GroupedWord::Create(CreateWord::CreateReservations),
        CallWord::OpenJobs => GroupedWord::Name(NameWord::OpenJobs),
        CallWord::OpenReservations => GroupedWord::Name(NameWord::OpenReservations),
        CallWord::DestroyJobs => GroupedWord::Name(NameWord::DestroyJobs),
        CallWord::DestroyReservations => GroupedWord::Name(NameWord::DestroyReservations),
        CallWord::NamesJobs => GroupedWord::NamesJobs,
        CallWord::NamesReservations => GroupedWord::NamesReservations,
        CallWord::Monitor => GroupedWord::Monitor,
        CallWord::Close => GroupedWord::Session(SessionWord::Close),
        CallWord::Run => GroupedWord::Run,
        CallWord::Bulk => GroupedWord::Bulk,
        CallWord::Jobs => GroupedWord::Sought(SoughtWord::Jobs),
        CallWord::Array => GroupedWord::Array(ArrayWord::Array),
        CallWord::Suspend => GroupedWord::Job(JobWord::Suspend),
        CallWord::Resume => GroupedWord::Job(JobWord::Resume),
        CallWord::Hold => GroupedWord::Job(JobWord::Hold),
        CallWord::Release => GroupedWord::Job(JobWord::Release),
        CallWord::Terminate => GroupedWord::Job(JobWord::Terminate),
        CallWord::SuspendArray => GroupedWord::Array(ArrayWord::SuspendArray),
        CallWord::ResumeArray => GroupedWord::Array(ArrayWord::ResumeArray),
        CallWord::HoldArray => GroupedWord::Array(ArrayWord::HoldArray),
        CallWord::ReleaseArray => GroupedWord::Array(ArrayWord::ReleaseArray),
        CallWord::TerminateArray => GroupedWord::Array(ArrayWord::TerminateArray),
        CallWord::Reap => GroupedWord::Job(JobWord::Reap),
        CallWord::ReapArray => GroupedWord::Array(ArrayWord::ReapArray),
        CallWord::State => GroupedWord::Job(JobWord::State),
        CallWord::Info => GroupedWord::Job(JobWord::Info),
        CallWord::WaitStarted => GroupedWord::WaitStarted,
        CallWord::WaitTerminated => GroupedWord::WaitTerminated,
        CallWord::Reserve => GroupedWord::Reserve,
        CallWord::Reservation => GroupedWord::Reservation(ReservationWord::Reservation),
        CallWord::Reservations => GroupedWord::Session(SessionWord::Reservations),
        CallWord::Cancel => GroupedWord::Reservation(ReservationWord::Cancel),
        CallWord::AllJobs => GroupedWord::Sought(SoughtWord::AllJobs),
        CallWord::AllReservations => GroupedWord::Session(SessionWord::AllReservations),
        CallWord::Queues => GroupedWord::Session(SessionWord::Queues),
        CallWord::Machines => GroupedWord::Session(SessionWord::Machines),
        CallWord::Register => GroupedWord::Register,
        CallWord::Launch => GroupedWord::Launch,
        CallWord::Started => GroupedWord::Launched(LaunchedWord::Started),
        CallWord::StartFailed => GroupedWord::Launched(LaunchedWord::StartFailed),
        CallWord::Exit => GroupedWord::Exit,
        CallWord::ExitUnknown => GroupedWord::Launched(LaunchedWord::ExitUnknown),
        CallWord::Signal => GroupedWord::Signal,
        CallWord::SignalDone => GroupedWord::Signalled(SignalledWord::SignalDone),
        CallWord::SignalFailed => GroupedWord::Signalled(SignalledWord::SignalFailed),
    }
}
