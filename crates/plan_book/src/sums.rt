//! What rows come to.
ghost use Rattle.std.specs.Prelude.{◌≡◌, ◌<◌, ◌^◌, length, []};
ghost use Rattle.plan_book.specs.Sums.{AreSums, AreFew, AreAmong, AreParts, with_job, with_others, without_job, without_others};

use crate::rooms::{owes, owes_kill, reports_due, room_of};
use drmaa_model::{Course, Row};

/// What all rows come to. The sums have 128 bits, which no number of rows fills.
#[derive(Clone, Copy)]
pub struct Sums {
    /// The room in the journal that is promised to the jobs.
    pub promised: u128,
    /// The changes that they may still make with no memory.
    pub owed: u128,
    /// The orders that time may ask for them.
    pub owed_kills: u128,
    /// The slots that they hold.
    pub held: u128,
    /// The reports of starts and ends that their processes may still bring.
    pub reports: u128,
    /// How many jobs there are.
    pub count: u128,
}

/// What no jobs come to.
pub fn no_sums() -> Sums
    ensures { AreSums [] result }
{
    Sums {
        promised: 0,
        owed: 0,
        owed_kills: 0,
        held: 0,
        reports: 0,
        count: 0,
    }
}

/// What the rows come to.
pub fn sums_of(rows: &[Row]) -> Sums
    requires few { length rows.now < 2 ^ 63 }
    ensures { AreSums rows.now result }
{
    let mut sums = no_sums();
    for row in rows {
        sums = with_job(&sums, &row.course);
    }
    sums
}

/// What they come to with one job more.
pub fn with_job(sums: &Sums, course: &Course) -> Sums
    requires few { AreFew sums.now }
    ensures value { result ≡ with_job sums.now course.now }
    ensures small { course.now.held < 2 ^ 32 }
{
    Sums {
        promised: sums.promised + u128::from(room_of(course)),
        owed: sums.owed + owes(course) as u128,
        owed_kills: sums.owed_kills + owes_kill(course) as u128,
        held: sums.held + wide(course.held),
        reports: sums.reports + u128::from(reports_due(course.phase)),
        count: sums.count + 1,
    }
}

/// What the jobs of two lists come to.
pub fn with_others(sums: &Sums, others: &Sums) -> Sums
    requires few { AreFew sums.now }
    requires few_others { AreFew others.now }
    ensures { result ≡ with_others sums.now others.now }
{
    Sums {
        promised: sums.promised + others.promised,
        owed: sums.owed + others.owed,
        owed_kills: sums.owed_kills + others.owed_kills,
        held: sums.held + others.held,
        reports: sums.reports + others.reports,
        count: sums.count + others.count,
    }
}

/// What the jobs come to without some of them.
pub fn without_others(sums: &Sums, others: &Sums) -> Sums
    requires among { AreAmong others.now sums.now }
    ensures { result ≡ without_others sums.now others.now }
{
    Sums {
        promised: sums.promised - others.promised,
        owed: sums.owed - others.owed,
        owed_kills: sums.owed_kills - others.owed_kills,
        held: sums.held - others.held,
        reports: sums.reports - others.reports,
        count: sums.count - others.count,
    }
}

/// What they come to when a job goes on from one course to another.
pub fn going_on(sums: &Sums, before: &Course, course: &Course) -> Sums
    requires few { AreFew sums.now }
    requires parts { AreParts before.now sums.now }
    ensures value { result ≡ with_job (without_job before.now sums.now) course.now }
    ensures small { course.now.held < 2 ^ 32 }
{
    with_job(&without_job(sums, before), course)
}

/// What they come to without a job that has this course.
pub fn without_job(sums: &Sums, course: &Course) -> Sums
    requires few { AreFew sums.now }
    requires parts { AreParts course.now sums.now }
    ensures value { result ≡ without_job course.now sums.now }
    ensures few { AreFew result }
{
    Sums {
        promised: sums.promised - u128::from(room_of(course)),
        owed: sums.owed - owes(course) as u128,
        owed_kills: sums.owed_kills - owes_kill(course) as u128,
        held: sums.held - wide(course.held),
        reports: sums.reports - u128::from(reports_due(course.phase)),
        count: sums.count - 1,
    }
}

/// The slots that one job holds; that they are fewer than 2^32 is said, since a sum of many asks for it.
fn wide(slots: u32) -> u128
    ensures value { result ≡ slots }
    ensures few { result < 2 ^ 32 }
{
    u128::from(slots)
}
