//! When a step on the plan is made, and as which entry of the journal.
ghost use Rattle.std.specs.Prelude.{◌≡◌, ◌≢◌, ◌+◌, ◌^◌, ◌<◌, ◌≤◌, true, OnOk, IfErr};

use drmaa_model::NoEntry;
use drmaa_types::Moment;

/// When a step on the plan is made, and as which entry of the journal.
#[derive(Clone, Copy, Debug, PartialEq, Eq)]
pub struct Occasion {
    /// The moment to which time comes first.
    pub at: Moment,
    /// The number of the entry.
    pub entry: u64,
    /// The greatest size that the journal may have.
    pub limit: u64,
    /// Whether there is memory for the entry.
    pub has_memory: bool,
    pub ghost numbered: { entry ≤ 4_000_001 },
    pub ghost limited: { limit ≤ 4_000_000 },
}

impl Occasion {
    /// Whether the entry can be made: the journal has room for it beside changes and promised room of this weight, and there is
    /// memory for it.
    ///
    /// # Errors
    ///
    /// A journal that would be too large, with its size; else want of memory.
    pub(crate) fn admit(&self, weight: u64) -> Result<(), NoEntry>
        requires { weight < 2 ^ 63 }
        ensures within { OnOk result (self.now.entry + weight ≤ self.now.limit) }
        ensures placed { OnOk result (self.now.has_memory ≡ true) }
        ensures full { IfErr result (λ e. self.now.limit < self.now.entry + weight → e ≡ NoEntry.Journal (self.now.entry + weight)) }
        ensures short { IfErr result (λ e. self.now.entry + weight ≤ self.now.limit → e ≡ NoEntry.OutOfMemory) }
        ensures memory { IfErr result (λ e. self.now.has_memory ≡ true → e ≢ NoEntry.OutOfMemory) }
    {
        let size = self.entry + weight;
        if size > self.limit {
            return Err(NoEntry::Journal { size });
        }
        if !self.has_memory {
            return Err(NoEntry::OutOfMemory);
        }
        Ok(())
    }
}
