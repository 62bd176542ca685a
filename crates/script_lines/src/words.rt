//! The words of client lines.
ghost use Rattle.std.specs.Prelude.{◌≡◌};
ghost use Rattle.text_codec.specs.Formats.{first_spelled};
ghost use Rattle.script_lines.specs.LineWords as words;
ghost use Rattle.script_lines.specs.declared.words.TheConstants.{LINE_WORDS};

/// The client lines of scripts, one for each word.
#[derive(Clone, Copy, Debug, PartialEq, Eq)]
pub enum LineWord {
    CreateJobs,
    CreateReservations,
    OpenJobs,
    OpenReservations,
    DestroyJobs,
    DestroyReservations,
    NamesJobs,
    NamesReservations,
    Monitor,
    Close,
    Run,
    Bulk,
    Jobs,
    Array,
    Suspend,
    Resume,
    Hold,
    Release,
    Terminate,
    SuspendArray,
    ResumeArray,
    HoldArray,
    ReleaseArray,
    TerminateArray,
    Reap,
    ReapArray,
    State,
    Info,
    WaitStarted,
    WaitTerminated,
    Reserve,
    Reservation,
    Reservations,
    Cancel,
    AllJobs,
    AllReservations,
    Queues,
    Machines,
    Register,
    At,
    Launch,
    Started,
    StartFailed,
    Exit,
    ExitSignal,
    ExitUnknown,
    Signal,
    SignalDone,
    SignalFailed,
}

/// All of them.
pub const LINE_WORDS: [LineWord; 49] = [
    LineWord::CreateJobs,
    LineWord::CreateReservations,
    LineWord::OpenJobs,
    LineWord::OpenReservations,
    LineWord::DestroyJobs,
    LineWord::DestroyReservations,
    LineWord::NamesJobs,
    LineWord::NamesReservations,
    LineWord::Monitor,
    LineWord::Close,
    LineWord::Run,
    LineWord::Bulk,
    LineWord::Jobs,
    LineWord::Array,
    LineWord::Suspend,
    LineWord::Resume,
    LineWord::Hold,
    LineWord::Release,
    LineWord::Terminate,
    LineWord::SuspendArray,
    LineWord::ResumeArray,
    LineWord::HoldArray,
    LineWord::ReleaseArray,
    LineWord::TerminateArray,
    LineWord::Reap,
    LineWord::ReapArray,
    LineWord::State,
    LineWord::Info,
    LineWord::WaitStarted,
    LineWord::WaitTerminated,
    LineWord::Reserve,
    LineWord::Reservation,
    LineWord::Reservations,
    LineWord::Cancel,
    LineWord::AllJobs,
    LineWord::AllReservations,
    LineWord::Queues,
    LineWord::Machines,
    LineWord::Register,
    LineWord::At,
    LineWord::Launch,
    LineWord::Started,
    LineWord::StartFailed,
    LineWord::Exit,
    LineWord::ExitSignal,
    LineWord::ExitUnknown,
    LineWord::Signal,
    LineWord::SignalDone,
    LineWord::SignalFailed,
];

/// How the word of a line is spelled.
pub fn spell_line_word(word: LineWord) -> &'static str
    ensures { result.now ≡ words.line_word word }
{
    match word {
        LineWord::CreateJobs => "create-jobs",
        LineWord::CreateReservations => "create-reservations",
        LineWord::OpenJobs => "open-jobs",
        LineWord::OpenReservations => "open-reservations",
        LineWord::DestroyJobs => "destroy-jobs",
        LineWord::DestroyReservations => "destroy-reservations",
        LineWord::NamesJobs => "names-jobs",
        LineWord::NamesReservations => "names-reservations",
        LineWord::Monitor => "monitor",
        LineWord::Close => "close",
        LineWord::Run => "run",
        LineWord::Bulk => "bulk",
        LineWord::Jobs => "jobs",
        LineWord::Array => "array",
        LineWord::Suspend => "suspend",
        LineWord::Resume => "resume",
        LineWord::Hold => "hold",
        LineWord::Release => "release",
        LineWord::Terminate => "terminate",
        LineWord::SuspendArray => "suspend-array",
        LineWord::ResumeArray => "resume-array",
        LineWord::HoldArray => "hold-array",
        LineWord::ReleaseArray => "release-array",
        LineWord::TerminateArray => "terminate-array",
        LineWord::Reap => "reap",
        LineWord::ReapArray => "reap-array",
        LineWord::State => "state",
        LineWord::Info => "info",
        LineWord::WaitStarted => "wait-started",
        LineWord::WaitTerminated => "wait-terminated",
        LineWord::Reserve => "reserve",
        LineWord::Reservation => "reservation",
        LineWord::Reservations => "reservations",
        LineWord::Cancel => "cancel",
        LineWord::AllJobs => "all-jobs",
        LineWord::AllReservations => "all-reservations",
        LineWord::Queues => "queues",
        LineWord::Machines => "machines",
        LineWord::Register => "register",
        LineWord::At => "at",
        LineWord::Launch => "launch",
        LineWord::Started => "started",
        LineWord::StartFailed => "start-failed",
        LineWord::Exit => "exit",
        LineWord::ExitSignal => "exit-signal",
        LineWord::ExitUnknown => "exit-unknown",
        LineWord::Signal => "signal",
        LineWord::SignalDone => "signal-done",
        LineWord::SignalFailed => "signal-failed",
    }
}

/// A few of all words, among which each word of so many bytes is found as it is among all.
fn words_of_size(size: usize) -> &'static [LineWord]
    ensures { words.HasAllOfSize size result.now }
{
    match size {
        0..=3 => &[LineWord::Run, LineWord::At],
        4 => &[
            LineWord::Bulk,
            LineWord::Jobs,
            LineWord::Hold,
            LineWord::Reap,
            LineWord::Info,
            LineWord::Exit,
        ],
        5 => &[LineWord::Close, LineWord::Array, LineWord::State],
        6 => &[
            LineWord::Resume,
            LineWord::Cancel,
            LineWord::Queues,
            LineWord::Launch,
            LineWord::Signal,
        ],
        7 => &[
            LineWord::Monitor,
            LineWord::Suspend,
            LineWord::Release,
            LineWord::Reserve,
            LineWord::Started,
        ],
        8 => &[LineWord::AllJobs, LineWord::Machines, LineWord::Register],
        9..=10 => &[
            LineWord::OpenJobs,
            LineWord::NamesJobs,
            LineWord::Terminate,
            LineWord::HoldArray,
            LineWord::ReapArray,
        ],
        11 => &[
            LineWord::CreateJobs,
            LineWord::Reservation,
            LineWord::ExitSignal,
            LineWord::SignalDone,
        ],
        12 => &[
            LineWord::DestroyJobs,
            LineWord::ResumeArray,
            LineWord::WaitStarted,
            LineWord::Reservations,
            LineWord::StartFailed,
            LineWord::ExitUnknown,
        ],
        13..=15 => &[
            LineWord::SuspendArray,
            LineWord::ReleaseArray,
            LineWord::TerminateArray,
            LineWord::WaitTerminated,
            LineWord::SignalFailed,
        ],
        _ => &[
            LineWord::CreateReservations,
            LineWord::OpenReservations,
            LineWord::DestroyReservations,
            LineWord::NamesReservations,
            LineWord::AllReservations,
        ],
    }
}

/// The first of these words that is spelled so.
fn first_among(among: &[LineWord], word: &[u8]) -> Option<LineWord>
    ensures { result ≡ first_spelled words.line_word among.now word.now }
{
    among
        .iter()
        .copied()
        .find(|line| spell_line_word(*line).as_bytes() == word)
}

/// The word that is spelled so. Only words of about its size are compared with it.
pub fn line_word_of(word: &[u8]) -> Option<LineWord>
    ensures { result ≡ first_spelled words.line_word LINE_WORDS word.now }
{
    first_among(words_of_size(word.len()), word)
}
