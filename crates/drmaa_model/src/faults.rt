//! Why a call made no entry.
use drmaa_types::{Limit, Refusal};
use std::alloc::AllocError;
use std::error::Error;
use std::fmt;

/// Why a call made no entry. The machine is then as it was.
#[derive(Clone, Copy, Debug, PartialEq, Eq)]
pub enum NoEntry {
    /// Memory ran out.
    OutOfMemory,
    /// No listed job has reached the state, and the timeout is not over.
    NotYet,
    /// There is no job to launch, or no signal to send.
    Nothing,
    /// The journal would have this size, which is above the greatest.
    Journal { size: u64 },
}

impl From<AllocError> for NoEntry {
    ghost use Rattle.std.specs.Prelude.{◌≡◌};
    ghost use Rattle.drmaa_model.specs.declared.faults.NoEntry.TheVariants.{OutOfMemory};

    ghost from_gives = { λ _ e. e ≡ OutOfMemory };

    fn from(_: AllocError) -> NoEntry {
        NoEntry::OutOfMemory
    }
}

// What a caller is refused for that was given no entry.
impl From<NoEntry> for Refusal {
    ghost use Rattle.std.specs.Prelude.{◌≡◌};
    ghost use Rattle.drmaa_model.specs.Faults.{refusal_for};

    ghost from_gives = { λ fault why. why ≡ refusal_for fault };

    fn from(fault: NoEntry) -> Refusal {
        match fault {
            NoEntry::Journal { size } => Refusal::OutOfResource(Limit::Journal { size }),
            NoEntry::OutOfMemory | NoEntry::NotYet | NoEntry::Nothing => Refusal::OutOfMemory,
        }
    }
}

impl fmt::Display for NoEntry {
    ghost use Rattle.std.specs.Prelude.{Some};
    ghost use Rattle.drmaa_model.specs.Said.{fault_text};

    ghost output = { λ why. Some (fault_text why) };

    fn fmt<W: fmt::Write>(&self, f: &mut fmt::Formatter<W>) -> fmt::Result {
        match self {
            NoEntry::OutOfMemory => write!(f, "out of memory"),
            NoEntry::NotYet => write!(f, "no listed job has reached the state yet"),
            NoEntry::Nothing => write!(f, "there is no job to launch, or no signal to send"),
            NoEntry::Journal { size } => write!(f, "the journal would have the size {size}"),
        }
    }
}

impl Error for NoEntry {}
