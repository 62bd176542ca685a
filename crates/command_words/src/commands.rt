//! What the program can be asked to do.

use drmaa_types::{Moment, Text};

/// What the program can be asked to do.
#[derive(Debug, Drop)]
pub enum Command {
    /// Plays a script on one thread, and writes the journal.
    Serial,
    /// Plays a script in threads, and writes the journal.
    Threads,
    /// Plays a script on one thread, and lists all jobs as they are then.
    Table,
    /// Reads a journal, and says whether it is legal.
    Check,
    /// Reads a journal, and writes it as version 2.
    Migrate,
    /// Reads a journal, and writes it as JSON.
    Json,
    /// Reads a journal, and lists when its waiting jobs would start.
    Forecast,
    /// Reads a journal and a script behind it, plays the script on the machine that goes on from the journal, and writes the journal.
    Continue,
    /// Reads a journal, and goes on with it by requests of reservations at equal steps.
    Recur(RecurWords),
    /// Plays a script of so many steps, made of drawn numbers, and counts what came of it.
    Soak(SoakWords),
}

/// What the steps from one reservation to the next are counted in.
#[derive(Clone, Copy, Debug, PartialEq, Eq)]
pub enum Unit {
    Days,
    Weeks,
    Months,
}

/// What the words behind `recur` say.
#[derive(Debug, Drop)]
pub struct RecurWords {
    /// The name of the reservation session, as it stands there.
    pub session: Text,
    pub unit: Unit,
    /// How many of the unit lie between two starts, from 1 to 1,000.
    pub number: u32,
    /// How many reservations, from 1 to 1,000.
    pub count: u32,
    /// When the first one starts.
    pub start: Moment,
    /// How many seconds each lasts.
    pub duration: u64,
    /// How many slots each has, from 1 to 65,535.
    pub slots: u32,
}

/// What the words behind `soak` say.
#[derive(Debug, Drop)]
pub struct SoakWords {
    /// How many steps the script has, up to 100,000.
    pub steps: u32,
    /// Which number the draws begin from, up to 2,147,483,647.
    pub seed: u32,
}
