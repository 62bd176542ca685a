//! The homes of jobs and reservations: named sessions, which may be destroyed.
ghost use Rattle.std.specs.Prelude.{◌≡◌, not, map, filter, Some, vec_capacity};
ghost use Rattle.drmaa_model.specs.declared.reservations.Accepted.{Accepted};
ghost use Rattle.drmaa_model.specs.declared.rows.Row.{Row};
ghost use Rattle.drmaa_model.specs.Effects.{left_by, is_forgotten, forget_home};
ghost use Rattle.drmaa_model.specs.Homes.{is_same_home};
ghost use Rattle.drmaa_model.specs.Size.{weight};
ghost use Rattle.drmaa_model.specs.Time.{advance_plan};
ghost use Rattle.plan_book.specs.Book.{plan_of, IsBook, spare};

use crate::book::Book;
use crate::targets::is_done;
use drmaa_model::{Accepted, Row};
use drmaa_types::Moment;

impl Book {
    /// Forgets a home at a moment: its ended jobs go, and its other jobs and its reservations are left without one. It has no
    /// limit, since the journal's size stays the same, and takes no memory.
    pub fn forget_home(&mut self, at: Moment, entry: u64, home: u64)
        requires book { IsBook self.old }
        ensures plan { plan_of self.new ≡ forget_home home (advance_plan entry at (plan_of self.old)) }
        ensures size { weight (plan_of self.new) ≡ weight (plan_of self.old) }
        ensures book { IsBook self.new }
        ensures spare { spare self.new ≡ spare self.old }
    {
        self.advance(at, entry);
        self.rows.drop_forgotten(home);
        self.rows.leave_rows(home);
        leave_reservations(&mut self.reservations, home);
    }
}

fn is_home(own: Option<u64>, home: u64) -> bool
    ensures { result ≡ is_same_home (Some home) own }
{
    match own {
        Some(own) => home == own,
        None => false,
    }
}

/// What belonged to the home has none.
fn left_by(own: Option<u64>, home: u64) -> Option<u64>
    ensures { result ≡ left_by home own }
{
    if is_home(own, home) { None } else { own }
}

/// Whether the job is forgotten with the home: it has ended.
pub fn is_forgotten(row: &Row, home: u64) -> bool
    ensures { result ≡ is_forgotten home row.now }
{
    is_home(row.home, home) && is_done(row)
}

/// Forgets the ended jobs of the home.
pub fn drop_forgotten(rows: &mut Vec<Row>, home: u64)
    ensures items { rows.new.items ≡ filter (λ (row : Row). not (is_forgotten home row)) rows.old.items }
    ensures capacity { vec_capacity rows.new ≡ vec_capacity rows.old }
{
    rows.retain(|row| !is_forgotten(row, home));
}

fn leave_row(row: &mut Row, home: u64)
    ensures { row.new ≡ record row.old { home = left_by home row.old.home } }
{
    row.home = left_by(row.home, home);
}

fn leave_reservation(r: &mut Accepted, home: u64)
    ensures { r.new ≡ record r.old { home = left_by home r.old.home } }
{
    r.home = left_by(r.home, home);
}

/// The jobs of the home are left without one.
pub fn leave_rows(rows: &mut Vec<Row>, home: u64)
    ensures items { rows.new.items ≡ map (λ (row : Row). record row { home = left_by home row.home }) rows.old.items }
    ensures capacity { vec_capacity rows.new ≡ vec_capacity rows.old }
{
    for row in rows.iter_mut() {
        leave_row(row, home);
    }
}

fn leave_reservations(rs: &mut Vec<Accepted>, home: u64)
    ensures { rs.new.items ≡ map (λ (r : Accepted). record r { home = left_by home r.home }) rs.old.items }
{
    for r in rs.iter_mut() {
        leave_reservation(r, home);
    }
}
