//! What is asked for where a reservation is to recur, and why it is not given.

use drmaa_types::{IdList, ListOf, Refusal};
use job_template::ReservationTemplate;
use std::error::Error;
use std::fmt;

/// How far each occurrence is from the one before it, by a number from 1 to 1,000.
#[derive(Clone, Copy, Debug, PartialEq, Eq)]
pub enum Every {
    Days(u32),
    Weeks(u32),
    /// By the calendar. Each is counted from the first: its day is that of the first, or the last of its month where
    /// the month is shorter.
    Months(u32),
}

/// A reservation that is to recur.
#[derive(Drop)]
pub struct Recurring {
    /// The first of them. It has a moment as its start, a duration, and no end.
    pub template: ReservationTemplate,
    pub every: Every,
    /// How many they are, with the first; from 1 to 1,000.
    pub count: u32,
}

/// Templates of reservations, in order.
pub type TemplateList = ListOf<ReservationTemplate>;

/// Why a reservation does not recur.
#[derive(Drop)]
pub struct RecurFault {
    /// Why the first of the requests was not accepted that was not.
    pub refusal: Refusal,
    /// The reservations that were accepted and are not ended, by number: empty but where the machine made no entry of
    /// the end of the last of them.
    pub kept: IdList,
}

impl fmt::Debug for RecurFault {
    fn fmt<W: fmt::Write>(&self, f: &mut fmt::Formatter<W>) -> fmt::Result {
        let kept = self.kept.len();
        write!(
            f,
            "RecurFault {{ refusal: {:?}, kept: {kept} }}",
            self.refusal
        )
    }
}

/// Why the first request was not accepted that was not.
impl fmt::Display for RecurFault {
    ghost use Rattle.std.specs.Prelude.{Some};
    ghost use Rattle.drmaa_types.specs.Said.{refusal_text};

    ghost output = { λ why. Some (refusal_text why.refusal) };

    fn fmt<W: fmt::Write>(&self, f: &mut fmt::Formatter<W>) -> fmt::Result {
        write!(f, "{}", self.refusal)
    }
}

impl Error for RecurFault {}
