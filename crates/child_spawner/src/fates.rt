//! What becomes of a child, and what was asked of a spawner.
use drmaa_types::{Exit, JobId, ListOf, TextList};

/// What a child that tells its fate does: for how many polls it runs, how it then ends, and which of
/// its polls and signals fail, counted from 1.
#[derive(Clone, Copy, Debug, PartialEq, Eq)]
pub struct Fate {
    /// How many polls are answered that it still runs.
    pub polls: u32,
    pub exit: Exit,
    pub failing_poll: Option<u32>,
    pub failing_signal: Option<u32>,
}

/// Fates, in the order of the starts.
pub type FateList = ListOf<Fate>;

/// One start that was asked of a spawner.
#[derive(Drop)]
pub struct Asked {
    pub job: JobId,
    pub attempt: u32,
    /// The launch words.
    pub words: TextList,
    /// Whether the start was answered Ok.
    pub began: bool,
}
