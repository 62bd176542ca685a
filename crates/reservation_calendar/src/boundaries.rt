//! The boundaries of bookings in order, each with the load from it to the next one: finding them, and
//! changing loads between two of them.
ghost use Rattle.std.specs.Prelude.{◌≡◌, ℕ, ◌+◌, ◌^◌, ◌<◌, ◌≤◌, nat_le, length, vec_len, IfOk, IfErr};
ghost use Rattle.reservation_calendar.specs.Loads.{is_before};
ghost use Rattle.reservation_calendar.specs.Timelines.{IsRising, IsPlace, IsRaised, IsAt, IsGapFor, load_before, load_of};

use crate::bookings::is_before;
use drmaa_types::{End, Moment};

/// A moment at which bookings start or end.
#[derive(Clone, Copy, Debug, PartialEq, Eq)]
pub struct Boundary {
    pub moment: Moment,
    /// The slots that are taken from this moment until the next boundary.
    pub load: u32,
    /// How many bookings start here, and how many end here.
    pub edges: u64,
}

/// How many boundaries come at or before the moment.
pub fn count_until(steps: &[Boundary], x: Moment) -> usize
    requires { IsRising steps.now }
    ensures { IsPlace (λ m. nat_le m x) steps.now result }
{
    steps.partition_point(|step| step.moment <= x)
}

/// How many boundaries come before the end.
pub fn count_before(steps: &[Boundary], until: &End) -> usize
    requires { IsRising steps.now }
    ensures { IsPlace (λ m. is_before m until.now) steps.now result }
{
    steps.partition_point(|step| is_before(step.moment, until))
}

/// The place of the boundary at the moment, or the place where it would go.
pub fn search(steps: &[Boundary], x: Moment) -> Result<usize, usize>
    requires { IsRising steps.now }
    ensures found { IfOk result (IsAt steps.now x) }
    ensures absent { IfErr result (IsGapFor steps.now x) }
{
    let count = count_until(steps, x);
    if count > 0 && steps[count - 1].moment == x {
        Ok(count - 1)
    } else {
        Err(count)
    }
}

/// The load that the first so many boundaries leave.
pub fn load_before(steps: &[Boundary], count: usize) -> u32
    requires { count ≤ length steps.now }
    ensures { result ≡ load_before steps.now count }
{
    if count == 0 { 0 } else { steps[count - 1].load }
}

/// Adds slots to the loads from one place to another.
pub fn raise(steps: &mut Vec<Boundary>, first: usize, last: usize, slots: u32)
    requires order { first ≤ last }
    requires range { last ≤ vec_len steps.old }
    requires fits { (k : ℕ) → first ≤ k → k < last → load_of steps.old.items k + slots < 2 ^ 32 }
    ensures { IsRaised steps.old.items steps.new.items first last slots }
{
    for k in first..last {
        steps[k].load += slots;
    }
}

/// Takes slots off the loads from one place to another.
pub fn lower(steps: &mut Vec<Boundary>, first: usize, last: usize, slots: u32)
    requires order { first ≤ last }
    requires range { last ≤ vec_len steps.old }
    requires fits { (k : ℕ) → first ≤ k → k < last → slots ≤ load_of steps.old.items k }
    ensures { IsRaised steps.new.items steps.old.items first last slots }
{
    for k in first..last {
        steps[k].load -= slots;
    }
}
