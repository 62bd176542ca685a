//! A source and a sink in memory. Which of their calls fail is named beforehand.
ghost use Rattle.std.specs.Prelude.{◌≡◌, true, false, ◌+◌, ◌-◌, ◌<◌, ◌≤◌, ◌↔◌, ◌⊎◌, [], ◌++◌, length, min, take, drop, vec_len, vec_capacity, Contains, IsTrue, IsErr, IfOk, OnOk, OnErr, IsOkUnless};
ghost use Rattle.std.specs.Io.KnownBytes.{Keeps, Appends, Consumes, IsAtEnd};
ghost use Rattle.drmaa_types.specs.Readings.{counted_on};
ghost use Rattle.drmaa_types.specs.Counts.{Rose};
ghost use Rattle.byte_streams.specs.Memory.{moved_length};

use crate::{Sink, Source};
use drmaa_types::{Bytes, Failed, PlaceList, Refusal};
use std::alloc::Global;
use std::marker::Model;

/// The most bytes that one read gives and one write takes.
const MOST: usize = 64;

/// A source of given bytes. One read gives at most 64 of them.
#[derive(Drop)]
pub struct MemorySource {
    bytes: Bytes,
    position: usize,
    failing: PlaceList,
    reads: u64,
    faults: u64,
}

impl Model for MemorySource {
    ghost use Rattle.std.specs.Prelude.{◌≤◌, length, drop};
    ghost use Rattle.byte_streams.specs.Memory.{Reading};

    ghost Value = { Reading };

    ghost view = { λ s. record { left = drop s.position s.bytes; failing = s.failing; reads = s.reads; faults = s.faults } };

    ghost invariant = { λ s. s.position ≤ length s.bytes };
}

impl MemorySource {
    /// A source of these bytes, whose reads with these numbers, counted from 1, fail. It takes no memory.
    pub fn new(bytes: Bytes, failing: PlaceList) -> MemorySource
        ensures { result ≡ record { left = bytes; failing = failing; reads = 0; faults = 0 } }
    {
        MemorySource {
            bytes,
            position: 0,
            failing,
            reads: 0,
            faults: 0,
        }
    }
}

impl Source for MemorySource {
    ghost use Rattle.std.specs.Prelude.{Some};

    ghost faults = { λ s. s.faults };

    ghost left = { λ s. Some s.left };

    /// Reads as many bytes as the buffer has room for, at most 64.
    fn read(&mut self, into: &mut [u8]) -> Result<usize, Failed>
        ensures fits { IfOk result (λ n. n ≤ length into.new) }
        ensures taken { IfOk result (λ n. Consumes (Some self.old.left) (Some self.new.left) (take n into.new)) }
        ensures end { IfOk result (λ n. n ≡ 0 → 0 < length into.new → IsAtEnd (Some self.new.left)) }
        ensures kept { OnErr result (Keeps (Some self.old.left) (Some self.new.left)) }
        ensures counted { self.old.faults ≤ self.new.faults }
        ensures fault { OnErr result (Rose self.old.faults self.new.faults) }
        ensures fails { IsErr result ↔ Contains self.old.failing (counted_on self.old.reads) }
        ensures gives { IfOk result (λ n. n ≡ moved_length (length into.old) (length self.old.left)) }
        ensures ok { IfOk result (λ n. self.new ≡ record self.old { left = drop n self.old.left; reads = counted_on self.old.reads }) }
        ensures err { OnErr result (self.new ≡ record self.old { reads = counted_on self.old.reads; faults = counted_on self.old.faults }) }
    {
        self.reads = self.reads.saturating_add(1);
        if is_named(&self.failing, self.reads) {
            self.faults = self.faults.saturating_add(1);
            return Err(Failed);
        }
        let left = &self.bytes.as_slice()[self.position..];
        let count = copy_front(left, into);
        self.position += count;
        Ok(count)
    }
}

/// A sink that keeps its bytes. One write takes at most 64 of them.
#[derive(Drop)]
pub struct MemorySink {
    bytes: Vec<u8>,
    capacity: usize,
    failing: PlaceList,
    finish_fails: bool,
    finished: bool,
    writes: u64,
    faults: u64,
}

impl Model for MemorySink {
    ghost use Rattle.std.specs.Prelude.{◌≤◌, vec_len, vec_capacity};
    ghost use Rattle.byte_streams.specs.Memory.{Writing};

    ghost Value = { Writing };

    ghost view = { λ s. record { written = s.bytes.items; capacity = s.capacity; failing = s.failing; finish_fails = s.finish_fails; finished = s.finished; writes = s.writes; faults = s.faults } };

    ghost invariant = { λ s. (vec_len s.bytes ≤ s.capacity) × (s.capacity ≤ vec_capacity s.bytes) };
}

impl MemorySink {
    /// A sink that takes this many bytes, and whose writes with these numbers, counted from 1, fail.
    /// All memory that it needs is taken here.
    pub fn new(
        alloc: Global,
        capacity: usize,
        failing: PlaceList,
        finish_fails: bool,
    ) -> Result<MemorySink, Refusal>
        ensures ok { IfOk result (λ sink. sink ≡ record { written = []; capacity = capacity; failing = failing; finish_fails = finish_fails; finished = false; writes = 0; faults = 0 }) }
        ensures err { IsOkUnless result Refusal.OutOfMemory }
    {
        let Ok(bytes) = Vec::with_capacity(alloc, capacity) else {
            return Err(Refusal::OutOfMemory);
        };
        Ok(MemorySink {
            bytes,
            capacity,
            failing,
            finish_fails,
            finished: false,
            writes: 0,
            faults: 0,
        })
    }

    /// What was written.
    pub fn bytes(&self) -> &[u8]
        ensures { result.now ≡ self.now.written }
    {
        self.bytes.as_slice()
    }
}

impl Sink for MemorySink {
    ghost use Rattle.std.specs.Prelude.{◌≡◌, Some, true};

    ghost faults = { λ s. s.faults };

    ghost written = { λ s. Some s.written };

    ghost finished = { λ s. s.finished ≡ true };

    /// Writes as many bytes of the piece as there is room for, at most 64. It fails also where no room is left for any.
    fn write(&mut self, piece: &[u8]) -> Result<usize, Failed>
        ensures fits { IfOk result (λ n. n ≤ length piece.now) }
        ensures progress { IfOk result (λ n. 0 < length piece.now → 0 < n) }
        ensures added { IfOk result (λ n. Appends (Some self.old.written) (Some self.new.written) (take n piece.now)) }
        ensures pending { OnOk result (self.new.finished ≡ true → ⊥) }
        ensures kept { OnErr result (Keeps (Some self.old.written) (Some self.new.written)) }
        ensures counted { self.old.faults ≤ self.new.faults }
        ensures fault { OnErr result (Rose self.old.faults self.new.faults) }
        ensures fails { IsErr result ↔ (Contains self.old.failing (counted_on self.old.writes)
            ⊎ ((0 < length piece.now) × (self.old.capacity ≤ length self.old.written))) }
        ensures takes { IfOk result (λ n. n ≡ moved_length (length piece.now) (self.old.capacity - length self.old.written)) }
        ensures ok { IfOk result (λ n. self.new ≡ record self.old { written = self.old.written ++ take n piece.now; finished = false; writes = counted_on self.old.writes }) }
        ensures err { OnErr result (self.new ≡ record self.old { writes = counted_on self.old.writes; faults = counted_on self.old.faults }) }
    {
        self.writes = self.writes.saturating_add(1);
        let room = self.capacity - self.bytes.len();
        let is_full = room == 0 && !piece.is_empty();
        if is_full || is_named(&self.failing, self.writes) {
            self.faults = self.faults.saturating_add(1);
            return Err(Failed);
        }
        let count = piece.len().min(MOST).min(room);
        append(&mut self.bytes, &piece[..count]);
        self.finished = false;
        Ok(count)
    }

    fn finish(&mut self) -> Result<(), Failed>
        ensures finished { OnOk result (self.new.finished ≡ true) }
        ensures kept { Keeps (Some self.old.written) (Some self.new.written) }
        ensures counted { self.old.faults ≤ self.new.faults }
        ensures fault { OnErr result (Rose self.old.faults self.new.faults) }
        ensures fails { IsErr result ↔ IsTrue self.old.finish_fails }
        ensures ok { OnOk result (self.new ≡ record self.old { finished = true }) }
        ensures err { OnErr result (self.new ≡ record self.old { faults = counted_on self.old.faults }) }
    {
        if self.finish_fails {
            self.faults = self.faults.saturating_add(1);
            return Err(Failed);
        }
        self.finished = true;
        Ok(())
    }
}

/// Whether the call with this number is to fail.
fn is_named(failing: &PlaceList, number: u64) -> bool
    ensures { IsTrue result ↔ Contains failing.now number }
{
    failing.as_slice().contains(&number)
}

/// Copies as many bytes as both have, at most 64, and answers how many.
fn copy_front(from: &[u8], into: &mut [u8]) -> usize
    ensures count { result ≡ moved_length (length into.old) (length from.now) }
    ensures copied { take result into.new ≡ take result from.now }
{
    let count = into.len().min(MOST).min(from.len());
    into[..count].copy_from_slice(&from[..count]);
    count
}

/// Appends bytes that there is room for.
fn append(bytes: &mut Vec<u8>, more: &[u8])
    requires { vec_len bytes.old + length more.now ≤ vec_capacity bytes.old }
    ensures items { bytes.new.items ≡ bytes.old.items ++ more.now }
    ensures room { vec_capacity bytes.old ≤ vec_capacity bytes.new }
{
    let _ = bytes.extend_from_slice(more);
}
