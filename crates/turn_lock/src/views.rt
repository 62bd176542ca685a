//! What each seat of the lock knows. No value of these types is made: they stand in the proofs alone.
use drmaa_types::ChronicleEntry;
use std::collections::LinkedList;

/// Whose view it is.
pub enum Kind {
    /// Nobody's any more: it was joined to another.
    Spent,
    /// A note of what a pass had seen.
    Note,
    /// The opener's.
    Opener,
    /// A pass's.
    Caller,
}

/// Where a pass stands in the queue of tickets.
pub enum Stage {
    /// It has no ticket.
    Idle,
    /// It has drawn this ticket, and its turn has not come.
    Waiting(u64),
    /// It holds the turn with this ticket.
    Turn(u64),
}

/// What one seat knows.
pub struct View<Ask, Answer, Fixed> {
    /// Whose it is.
    pub kind: Kind,
    /// Its ticket.
    pub stage: Stage,
    /// The fixed part of the value; a spent view has none.
    pub fixed: Option<Fixed>,
    /// The caller's number.
    pub number: u64,
    /// A beginning of the history.
    pub seen: LinkedList<ChronicleEntry<Ask, Answer>>,
    /// The caller's own entries.
    pub mine: LinkedList<ChronicleEntry<Ask, Answer>>,
    /// The last reading of the tickets served.
    pub low: u64,
    /// The last reading of the tickets drawn.
    pub high: u64,
    /// What it had seen itself before its last join.
    pub before: LinkedList<ChronicleEntry<Ask, Answer>>,
    /// What the other one had seen at its last join.
    pub learnt: LinkedList<ChronicleEntry<Ask, Answer>>,
    /// How often it read the tickets served.
    pub looks: u64,
    /// How often it tried to draw a ticket without waiting.
    pub tries: u64,
    /// How many tickets it drew.
    pub draws: u64,
    /// The opener's list by number: the entries of a pass that was retired, or none.
    pub retired: LinkedList<Option<LinkedList<ChronicleEntry<Ask, Answer>>>>,
    /// How many passes the opener has retired.
    pub gone: u64,
}
