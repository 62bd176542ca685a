//! Why a try came to nothing.
use drmaa_machine::NoEntry;
use std::error::Error;
use std::fmt;

/// Why a call that doesn't wait made no entry.
#[derive(Clone, Copy, Debug, PartialEq, Eq)]
pub enum TryFault {
    /// Another client had the turn: at one moment this many tickets were served, and at a later one more were drawn.
    Busy { served: u64, drawn: u64 },
    /// The machine made no entry.
    Not(NoEntry),
}

impl fmt::Display for TryFault {
    ghost use Rattle.std.specs.Prelude.{Some};
    ghost use Rattle.call_history.specs.Said.{try_text};

    ghost output = { λ why. Some (try_text why) };

    fn fmt<W: fmt::Write>(&self, f: &mut fmt::Formatter<W>) -> fmt::Result {
        match self {
            TryFault::Busy { .. } => write!(f, "another client has the turn"),
            TryFault::Not(why) => write!(f, "{why}"),
        }
    }
}

impl Error for TryFault {}
