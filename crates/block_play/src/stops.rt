//! Why a block is not played to its end.

/// Why a client's play of its block stopped before the block's end.
#[derive(Clone, Copy, Debug, PartialEq, Eq)]
pub enum Stopped {
    /// Memory ran out.
    Memory,
    /// A call made no entry, since the journal would have had this size after it, which is above the greatest.
    Full { size: u64 },
}
