//! Infos that are the same.
ghost use Rattle.std.specs.Prelude.{◌≡◌, ◌↔◌, IsTrue};
ghost use Rattle.drmaa_types.specs.Infos as infos;

use crate::{JobInfo, MachineInfo, ReservationInfo, Reserved, Same};

/// Whether two jobs have the same number, name, session and place in an array.
fn is_same_job(one: &JobInfo, other: &JobInfo) -> bool
    ensures { IsTrue result ↔ infos.IsSameJob one.now other.now }
{
    one.job.is_same(&other.job)
        && one.session.is_same(&other.session)
        && one.name.is_same(&other.name)
        && one.array.is_same(&other.array)
        && one.index.is_same(&other.index)
}

/// Whether two jobs stand the same: state, slots, queue, exit and note.
fn is_same_stand(one: &JobInfo, other: &JobInfo) -> bool
    ensures { IsTrue result ↔ infos.IsSameStand one.now other.now }
{
    one.state.is_same(&other.state)
        && one.slots.is_same(&other.slots)
        && one.queue.is_same(&other.queue)
        && one.exit.is_same(&other.exit)
        && one.note.is_same(&other.note)
}

/// Whether two jobs have the same times.
fn is_same_time(one: &JobInfo, other: &JobInfo) -> bool
    ensures { IsTrue result ↔ infos.IsSameTime one.now other.now }
{
    one.wallclock.is_same(&other.wallclock)
        && one.submitted.is_same(&other.submitted)
        && one.dispatched.is_same(&other.dispatched)
        && one.finished.is_same(&other.finished)
}

impl Same for JobInfo {
    fn is_same(&self, other: &JobInfo) -> bool {
        is_same_job(self, other) && is_same_stand(self, other) && is_same_time(self, other)
    }
}

impl Same for ReservationInfo {
    fn is_same(&self, other: &ReservationInfo) -> bool {
        self.reservation.is_same(&other.reservation)
            && self.session.is_same(&other.session)
            && self.name.is_same(&other.name)
            && self.slots.is_same(&other.slots)
            && self.from.is_same(&other.from)
            && self.until.is_same(&other.until)
    }
}

impl Same for Reserved {
    fn is_same(&self, other: &Reserved) -> bool {
        self.reservation.is_same(&other.reservation)
            && self.slots.is_same(&other.slots)
            && self.from.is_same(&other.from)
            && self.until.is_same(&other.until)
    }
}

impl Same for MachineInfo {
    fn is_same(&self, other: &MachineInfo) -> bool {
        self.name.is_same(&other.name)
            && self.slots.is_same(&other.slots)
            && self.used.is_same(&other.used)
    }
}
