//! What a forecast tells.
use drmaa_types::{JobId, ListOf, Moment};
use std::error::Error;
use std::fmt;

/// A start that is to come.
#[derive(Clone, Copy, Debug, PartialEq, Eq)]
pub struct Predicted {
    pub job: JobId,
    /// The moment at which the job would be launched.
    pub at: Moment,
    /// How many slots it would get.
    pub slots: u32,
}

/// The starts that are to come, in order.
pub type PredictedList = ListOf<Predicted>;

/// Why there is no forecast.
#[derive(Clone, Copy, Debug, PartialEq, Eq)]
pub enum ForecastFault {
    /// Memory ran out.
    OutOfMemory,
    /// With one launch more the journal would have this size, which is above the greatest.
    Journal { size: u64 },
}

impl fmt::Display for ForecastFault {
    ghost use Rattle.std.specs.Prelude.{Some};
    ghost use Rattle.forecast.specs.Said.{fault_text};

    ghost output = { λ why. Some (fault_text why) };

    fn fmt<W: fmt::Write>(&self, f: &mut fmt::Formatter<W>) -> fmt::Result {
        match self {
            ForecastFault::OutOfMemory => write!(f, "out of memory"),
            ForecastFault::Journal { size } => write!(f, "the journal would have the size {size}"),
        }
    }
}

impl Error for ForecastFault {}
