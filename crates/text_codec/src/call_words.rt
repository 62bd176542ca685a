//! The words of calls, which scripts and journals share.
ghost use Rattle.std.specs.Prelude.{◌≡◌, Some};
ghost use Rattle.text_codec.specs.declared.call_words.CallWord.{CallWord};
ghost use Rattle.text_codec.specs.Formats.{first_spelled};
ghost use Rattle.text_codec.specs.CallWords as words;

/// The calls of scripts and journals, one for each word.
#[derive(Clone, Copy, Debug, PartialEq, Eq)]
pub enum CallWord {
    CreateJobs,
    CreateReservations,
    OpenJobs,
    OpenReservations,
    DestroyJobs,
    DestroyReservations,
    NamesJobs,
    NamesReservations,
    Monitor,
    Close,
    Run,
    Bulk,
    Jobs,
    Array,
    Suspend,
    Resume,
    Hold,
    Release,
    Terminate,
    SuspendArray,
    ResumeArray,
    HoldArray,
    ReleaseArray,
    TerminateArray,
    Reap,
    ReapArray,
    State,
    Info,
    WaitStarted,
    WaitTerminated,
    Reserve,
    Reservation,
    Reservations,
    Cancel,
    AllJobs,
    AllReservations,
    Queues,
    Machines,
    Register,
    Launch,
    Started,
    StartFailed,
    Exit,
    ExitUnknown,
    Signal,
    SignalDone,
    SignalFailed,
}

/// All of them.
pub const CALL_WORDS: [CallWord; 47] = [
    CallWord::CreateJobs,
    CallWord::CreateReservations,
    CallWord::OpenJobs,
    CallWord::OpenReservations,
    CallWord::DestroyJobs,
    CallWord::DestroyReservations,
    CallWord::NamesJobs,
    CallWord::NamesReservations,
    CallWord::Monitor,
    CallWord::Close,
    CallWord::Run,
    CallWord::Bulk,
    CallWord::Jobs,
    CallWord::Array,
    CallWord::Suspend,
    CallWord::Resume,
    CallWord::Hold,
    CallWord::Release,
    CallWord::Terminate,
    CallWord::SuspendArray,
    CallWord::ResumeArray,
    CallWord::HoldArray,
    CallWord::ReleaseArray,
    CallWord::TerminateArray,
    CallWord::Reap,
    CallWord::ReapArray,
    CallWord::State,
    CallWord::Info,
    CallWord::WaitStarted,
    CallWord::WaitTerminated,
    CallWord::Reserve,
    CallWord::Reservation,
    CallWord::Reservations,
    CallWord::Cancel,
    CallWord::AllJobs,
    CallWord::AllReservations,
    CallWord::Queues,
    CallWord::Machines,
    CallWord::Register,
    CallWord::Launch,
    CallWord::Started,
    CallWord::StartFailed,
    CallWord::Exit,
    CallWord::ExitUnknown,
    CallWord::Signal,
    CallWord::SignalDone,
    CallWord::SignalFailed,
];

/// How a call is spelled.
pub fn spell_call_word(word: CallWord) -> &'static str
    ensures { result.now ≡ words.call_word word }
{
    match word {
        CallWord::CreateJobs => "create-jobs",
        CallWord::CreateReservations => "create-reservations",
        CallWord::OpenJobs => "open-jobs",
        CallWord::OpenReservations => "open-reservations",
        CallWord::DestroyJobs => "destroy-jobs",
        CallWord::DestroyReservations => "destroy-reservations",
        CallWord::NamesJobs => "names-jobs",
        CallWord::NamesReservations => "names-reservations",
        CallWord::Monitor => "monitor",
        CallWord::Close => "close",
        CallWord::Run => "run",
        CallWord::Bulk => "bulk",
        CallWord::Jobs => "jobs",
        CallWord::Array => "array",
        CallWord::Suspend => "suspend",
        CallWord::Resume => "resume",
        CallWord::Hold => "hold",
        CallWord::Release => "release",
        CallWord::Terminate => "terminate",
        CallWord::SuspendArray => "suspend-array",
        CallWord::ResumeArray => "resume-array",
        CallWord::HoldArray => "hold-array",
        CallWord::ReleaseArray => "release-array",
        CallWord::TerminateArray => "terminate-array",
        CallWord::Reap => "reap",
        CallWord::ReapArray => "reap-array",
        CallWord::State => "state",
        CallWord::Info => "info",
        CallWord::WaitStarted => "wait-started",
        CallWord::WaitTerminated => "wait-terminated",
        CallWord::Reserve => "reserve",
        CallWord::Reservation => "reservation",
        CallWord::Reservations => "reservations",
        CallWord::Cancel => "cancel",
        CallWord::AllJobs => "all-jobs",
        CallWord::AllReservations => "all-reservations",
        CallWord::Queues => "queues",
        CallWord::Machines => "machines",
        CallWord::Register => "register",
        CallWord::Launch => "launch",
        CallWord::Started => "started",
        CallWord::StartFailed => "start-failed",
        CallWord::Exit => "exit",
        CallWord::ExitUnknown => "exit-unknown",
        CallWord::Signal => "signal",
        CallWord::SignalDone => "signal-done",
        CallWord::SignalFailed => "signal-failed",
    }
}

/// The first call of the table that is spelled so.
fn first_call_word(word: &[u8]) -> Option<CallWord>
    ensures { result ≡ first_spelled words.call_word CALL_WORDS word.now }
{
    CALL_WORDS
        .iter()
        .copied()
        .find(|call| spell_call_word(*call).as_bytes() == word)
}

/// The call that is spelled so: each call has a word, and no two share one.
pub fn call_word_of(word: &[u8]) -> Option<CallWord>
    ensures first { result ≡ first_spelled words.call_word CALL_WORDS word.now }
    ensures only { (call : CallWord) → word.now ≡ words.call_word call → result ≡ Some call }
{
    first_call_word(word)
}
