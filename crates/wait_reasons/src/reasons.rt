//! Reasons why a job is not launched.
use drmaa_types::{JobState, ListOf, Moment, ReservationId};

/// Why a job is not launched: a condition of readiness that fails.
#[derive(Clone, Copy, Debug, PartialEq, Eq)]
pub enum Reason {
    /// It is in this state, and so is not queued.
    NotQueued(JobState),
    /// It is not launched before this moment.
    StartsAt(Moment),
    /// So many members of its array hold slots, and no more than the bound may.
    ArrayFull {
        holding: u32,
        bound: u32,
    },
    /// It wants so many slots, and fewer are free.
    FewFree {
        wants: u32,
        free: u32,
    },
    /// So many slots more would be too many at this moment, which its run would cover; the first reservation that covers the
    /// moment, where one does.
    Overfull {
        wants: u32,
        at: Moment,
        reservation: Option<ReservationId>,
    },
    /// The jobs of its queue, which is at this place, hold so many slots; with those that it wants they would pass the limit.
    QueueFull {
        queue: u32,
        used: u32,
        limit: u32,
    },
    /// Its reservation is not there any more.
    ReservationGone(ReservationId),
    /// Its reservation covers each moment from one on and before another, and now is none of them.
    ReservationOutside {
        reservation: ReservationId,
        from: Moment,
        until: Moment,
    },
    /// The jobs of its reservation hold so many of its slots, and those that it wants are not left.
    ReservationFull {
        reservation: ReservationId,
        used: u32,
        slots: u32,
    },
}

/// Reasons, in the order of the conditions.
pub type ReasonList = ListOf<Reason>;
