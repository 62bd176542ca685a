//! What groups of jobs have in use, kept beside the jobs: the slots of each queue and of each reservation, and of each array how many
//! members hold slots. So a launch adds up no jobs.
ghost use Rattle.std.specs.Prelude.{◌≡◌, ℕ, ◌+◌, ◌++◌, [], true, List, IfSome, if◌then◌else◌, ◌==◌, nat_lt, is_some, None};
ghost use Rattle.std.specs.BTreeMap as tree;
ghost use Rattle.std.specs.Option.{option_map};
ghost use Rattle.drmaa_types.specs.declared.identifiers.ArrayId.{ArrayId};
ghost use Rattle.drmaa_types.specs.declared.identifiers.ReservationId.{ReservationId};
ghost use Rattle.drmaa_model.specs.declared.rows.Row.{Row};
ghost use Rattle.drmaa_model.specs.Load.{in_array, in_queue, in_reservation};
ghost use Rattle.plan_book.specs.Usage.{AreUsed, Exchanges, IsUsed, Passes, holding, part_of, used_by};

use drmaa_model::Row;
use drmaa_types::{ArrayId, ReservationId};
use std::alloc::Global;
use std::collections::BTreeMap;

/// What the groups of one kind have in use.
#[derive(Drop)]
pub struct GroupUsage {
    /// Of each group that has something in use, by its number.
    pub used: BTreeMap<u64, u64>,
    /// Whether there was memory for each. Else nothing is known.
    pub is_whole: bool,
}

/// What arrays, queues and reservations have in use.
#[derive(Drop)]
pub struct Usage {
    /// How many members of an array hold slots.
    pub arrays: GroupUsage,
    /// The slots held by the ordinary jobs of a queue.
    pub queues: GroupUsage,
    /// The slots held by the jobs that name a reservation.
    pub reservations: GroupUsage,
}

impl GroupUsage {
    /// No group has anything in use. It takes no memory.
    fn new(alloc: Global) -> GroupUsage
        ensures { (part : ℕ → Row → ℕ) → IsUsed part [] result }
    {
        GroupUsage {
            used: BTreeMap::new(alloc),
            is_whole: true,
        }
    }

    /// What the group has in use. None where it isn't known.
    fn known_use(&self, group: u64) -> Option<u32>
        ensures { IfSome result (λ n. (self.now.is_whole ≡ true) × (n ≡ used_by self.now.used group)) }
    {
        if !self.is_whole {
            return None;
        }
        u32::try_from(used_by(&self.used, group)).ok()
    }

    /// One job has so much in use of a group, if it is of one, after it had so much before.
    fn exchange(&mut self, group: Option<u64>, before: u64, after: u64)
        ensures { Exchanges (part_of group before) (part_of group after) self.old self.new }
    {
        let Some(group) = group else {
            return;
        };
        if self.is_whole && before != after {
            self.is_whole = put_exchanged(&mut self.used, group, before, after);
        }
    }
}

impl Usage {
    /// That of no jobs. It takes no memory.
    pub fn new(alloc: Global) -> Usage
        ensures { AreUsed [] result }
    {
        Usage {
            arrays: GroupUsage::new(alloc),
            queues: GroupUsage::new(alloc),
            reservations: GroupUsage::new(alloc),
        }
    }

    /// How many members of the array hold slots. None where it isn't known.
    pub fn in_array(&self, array: ArrayId) -> Option<u32>
        ensures { (rows : List Row) → AreUsed rows self.now → IfSome result (λ n. n ≡ in_array array rows) }
    {
        self.arrays.known_use(array.0)
    }

    /// The slots held by the ordinary jobs of the queue at this place. None where it isn't known.
    pub fn in_queue(&self, place: u32) -> Option<u32>
        ensures { (rows : List Row) → AreUsed rows self.now → IfSome result (λ n. n ≡ in_queue place rows) }
    {
        self.queues.known_use(u64::from(place))
    }

    /// The slots held by the jobs that name the reservation. None where it isn't known.
    pub fn in_reservation(&self, number: ReservationId) -> Option<u32>
        ensures { (rows : List Row) → AreUsed rows self.now → IfSome result (λ n. n ≡ in_reservation number rows) }
    {
        self.reservations.known_use(number.0)
    }

    /// A job holds so many slots after it held so many before.
    pub fn exchange(&mut self, row: &Row, before: u32, after: u32)
        ensures { Passes (holding before row.now) (holding after row.now) self.old self.new }
    {
        self.arrays.exchange(
            array_number(row),
            members_holding(before),
            members_holding(after),
        );
        self.queues
            .exchange(queue_number(row), u64::from(before), u64::from(after));
        self.reservations.exchange(reservation_number(row), u64::from(before), u64::from(after));
    }

    /// Jobs come in.
    pub fn add_rows(&mut self, more: &[Row])
        ensures { (rows : List Row) → AreUsed rows self.old → AreUsed (rows ++ more.now) self.new }
    {
        for row in more {
            self.exchange(row, 0, row.course.held);
        }
    }
}

/// The number of the array that the job is a member of.
fn array_number(row: &Row) -> Option<u64>
    ensures { result ≡ option_map (λ (array : ArrayId). array.0) row.now.wants.array }
{
    row.wants.array.map(|array| array.0)
}

/// The place of an ordinary job's queue.
fn queue_number(row: &Row) -> Option<u64>
    ensures { result ≡ (if is_some row.now.wants.reservation then None else row.now.wants.queue) }
{
    if row.wants.reservation.is_some() {
        return None;
    }
    match row.wants.queue {
        Some(place) => Some(u64::from(place)),
        None => None,
    }
}

/// The number of the reservation that the job names.
fn reservation_number(row: &Row) -> Option<u64>
    ensures { result ≡ option_map (λ (number : ReservationId). number.0) row.now.wants.reservation }
{
    row.wants.reservation.map(|number| number.0)
}

/// How many members an array has holding slots by one that holds so many: 1 where it holds any.
fn members_holding(slots: u32) -> u64
    ensures { result ≡ (if nat_lt 0 slots then 1 else 0) }
{
    if slots > 0 { 1 } else { 0 }
}

/// What the group has in use.
fn used_by(used: &BTreeMap<u64, u64>, group: u64) -> u64
    ensures { result ≡ used_by used.now group }
{
    match used.get(&group) {
        Some(n) => *n,
        None => 0,
    }
}

/// One job has so much of the group in use after it had so much before. Whether that is known then.
fn put_exchanged(used: &mut BTreeMap<u64, u64>, group: u64, before: u64, after: u64) -> bool
    ensures { result ≡ true → (other : ℕ) → used_by used.new other + (if group == other then before else 0) ≡ used_by used.old other + (if group == other then after else 0) }
{
    match exchanged(used_by(used, group), before, after) {
        Some(n) => put(used, group, n),
        None => false,
    }
}

/// So much is in use where so much was, with `after` in place of `before`. None where no 64 bits have it.
fn exchanged(used: u64, before: u64, after: u64) -> Option<u64>
    ensures { IfSome result (λ n. n + before ≡ used + after) }
{
    used.checked_sub(before)?.checked_add(after)
}

/// The group has so much in use. Whether there was memory for that.
fn put(used: &mut BTreeMap<u64, u64>, group: u64, n: u64) -> bool
    ensures { result ≡ true → (other : ℕ) → used_by used.new other ≡ (if group == other then n else used_by used.old other) }
{
    if n > 0 {
        return used.insert(group, n).is_ok();
    }
    used.remove(&group);
    true
}
