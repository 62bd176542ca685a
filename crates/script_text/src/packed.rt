//! Byte strings in one buffer.
ghost use Rattle.std.specs.Prelude.{◌≡◌, ◌+◌, ◌<◌, ◌≤◌, [], ◌∷◌, ◌++◌, length, drop, IfOk, IfSome};
ghost use Rattle.script_text.specs.Packed as packed;

use std::alloc::{AllocError, Global};
use std::marker::Model;

/// Byte strings, in order; contracts see the list of them. They stand behind each other in one buffer, and beside it stands
/// where each ends, so that a string takes its bytes and four more.
#[derive(Drop)]
pub struct PackedLines {
    bytes: Vec<u8>,
    ends: Vec<u32>,
}

impl Model for PackedLines {
    ghost use Rattle.std.specs.Prelude.{List, ℕ};
    ghost use Rattle.script_text.specs.Packed.{cut, IsPacked};

    ghost Value = { List (List ℕ) };

    ghost view = { λ p. cut 0 p.bytes.items p.ends.items };

    ghost invariant = { λ p. IsPacked p.bytes.items p.ends.items };
}

/// Where the string at a place begins.
fn beginning(ends: &[u32], place: usize) -> usize
    requires { place ≤ length ends.now }
    ensures { result ≡ packed.beginning ends.now place }
{
    match place.checked_sub(1) {
        Some(before) => ends[before] as usize,
        None => 0,
    }
}

/// Where a string of this size ends. None where that passes 32 bits.
fn end_of(beginning: usize, size: usize) -> Option<u32>
    ensures { IfSome result (λ end. end ≡ beginning + size) }
{
    u32::try_from(beginning.checked_add(size)?).ok()
}

impl PackedLines {
    /// No string; it takes no memory.
    pub(crate) fn new(alloc: Global) -> PackedLines
        ensures { result ≡ [] }
    {
        PackedLines {
            bytes: Vec::new(alloc),
            ends: Vec::new(alloc),
        }
    }

    /// How many strings there are.
    pub(crate) fn len(&self) -> usize
        ensures { result ≡ length self.now }
    {
        self.ends.len()
    }

    /// The string at a place.
    pub(crate) fn get(&self, place: usize) -> &[u8]
        requires { place < length self.now }
        ensures { drop place self.now ≡ result.now ∷ drop (place + 1) self.now }
    {
        let beginning = beginning(self.ends.as_slice(), place);
        let end = self.ends[place] as usize;
        &self.bytes[beginning..end]
    }

    /// The strings with one more.
    ///
    /// # Errors
    /// `AllocError` where memory is wanted, or all would have more than 4,294,967,295 bytes.
    pub(crate) fn with(self, line: &[u8]) -> Result<PackedLines, AllocError>
        ensures { IfOk result (λ longer. longer ≡ self ++ line.now ∷ []) }
    {
        let PackedLines {
            mut bytes,
            mut ends,
        } = self;
        let Some(end) = end_of(bytes.len(), line.len()) else {
            return Err(AllocError);
        };
        bytes.extend_from_slice(line)?;
        ends.push(end)?;
        Ok(PackedLines { bytes, ends })
    }
}
