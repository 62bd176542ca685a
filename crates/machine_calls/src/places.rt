//! The journal's room and the memory for entries, and the occasion of an operation of the core.
ghost use Rattle.std.specs.Prelude.{◌≡◌, ◌≢◌, ◌+◌, ◌<◌, ◌≤◌, true, OnOk, IsOk, IfErr};
ghost use Rattle.drmaa_model.specs.Size.{weight};
ghost use Rattle.machine_readings.specs.Stores.{world_of, IsStore};
ghost use Rattle.machine_calls.specs.Serving.{IsNextOccasion, Keeps, HasPlace, places, spare_of};

use drmaa_model::NoEntry;
use drmaa_types::Moment;
use machine_readings::Store;
use plan_book::Occasion;
use std::alloc::AllocError;

/// Takes the memory for an entry, and for so many more that reports will make.
fn make_place(store: &mut Store, more: u32) -> Result<(), AllocError>
    requires store { IsStore store.old }
    ensures world { world_of store.new ≡ world_of store.old }
    ensures core { store.new.core ≡ store.old.core }
    ensures keeps { Keeps store.old store.new }
    ensures spare { spare_of store.old ≤ spare_of store.new }
    ensures place { OnOk result (HasPlace (1 + more) store.new) }
    ensures succeeds { 1 + more ≤ places store.old → IsOk result }
{
    let wanted = store.core.reports_to_come() as usize + 1 + more as usize;
    store.history.reserve(wanted)
}

/// The occasion of the next entry at this moment, where it is known whether there is memory for the entry.
pub fn next_occasion(store: &Store, at: Moment, has_memory: bool) -> Occasion
    requires few { store.now.entries ≤ 4_000_000 }
    requires journal { store.now.config.journal ≤ 4_000_000 }
    ensures next { IsNextOccasion result (world_of store.now) at }
    ensures memory { result.has_memory ≡ has_memory }
{
    Occasion {
        at,
        entry: store.entries + 1,
        limit: store.config.journal,
        has_memory,
    }
}

/// The occasion of the next entry at this moment, after the memory for the entry was asked for.
pub fn occasion_for(store: &mut Store, at: Moment) -> Occasion
    requires store { IsStore store.old }
    ensures world { world_of store.new ≡ world_of store.old }
    ensures core { store.new.core ≡ store.old.core }
    ensures keeps { Keeps store.old store.new }
    ensures spare { spare_of store.old ≤ spare_of store.new }
    ensures next { IsNextOccasion result (world_of store.old) at }
    ensures place { result.has_memory ≡ true → HasPlace 1 store.new }
    ensures succeeds { 1 ≤ places store.old → result.has_memory ≡ true }
{
    match make_place(store, 0) {
        Ok(()) => next_occasion(store, at, true),
        Err(_) => next_occasion(store, at, false),
    }
}

/// Takes the memory for an entry, and for so many more that reports will make, where the journal has room for the entry and for
/// what it adds beside itself.
///
/// # Errors
///
/// `Journal` with the size that the journal would have, where that is above the greatest; else want of memory.
pub fn make_room(store: &mut Store, added: u32, reports: u32) -> Result<(), NoEntry>
    requires store { IsStore store.old }
    ensures world { world_of store.new ≡ world_of store.old }
    ensures core { store.new.core ≡ store.old.core }
    ensures keeps { Keeps store.old store.new }
    ensures spare { spare_of store.old ≤ spare_of store.new }
    ensures place { OnOk result (HasPlace (1 + reports) store.new) }
    ensures within { OnOk result (store.old.entries + 1 + weight store.old.core.plan + added ≤ store.old.config.journal) }
    ensures full { IfErr result (λ e. store.old.config.journal < store.old.entries + 1 + weight store.old.core.plan + added
        → e ≡ NoEntry.Journal (store.old.entries + 1 + weight store.old.core.plan + added)) }
    ensures short { IfErr result (λ e. store.old.entries + 1 + weight store.old.core.plan + added ≤ store.old.config.journal
        → e ≡ NoEntry.OutOfMemory) }
    ensures memory { 1 + reports ≤ places store.old → IfErr result (λ e. e ≢ NoEntry.OutOfMemory) }
{
    let size = size_with(store, added);
    if size > store.config.journal {
        return Err(NoEntry::Journal { size });
    }
    match make_place(store, reports) {
        Ok(()) => Ok(()),
        Err(_) => Err(NoEntry::OutOfMemory),
    }
}

/// The size that the journal would have with an entry more that adds so much beside itself.
pub fn size_with(store: &Store, added: u32) -> u64
    requires { IsStore store.now }
    ensures { result ≡ store.now.entries + 1 + weight store.now.core.plan + added }
{
    store.entries + 1 + store.core.size() + added as u64
}

/// Why a call for which memory is wanting makes no entry, where the journal would have this size with it: that this is too large
/// comes first.
pub fn hindrance(store: &Store, size: u64) -> NoEntry
    ensures full { store.now.config.journal < size → result ≡ NoEntry.Journal size }
    ensures short { size ≤ store.now.config.journal → result ≡ NoEntry.OutOfMemory }
{
    if size > store.config.journal {
        NoEntry::Journal { size }
    } else {
        NoEntry::OutOfMemory
    }
}
