//! Counts that stay at their greatest value once they are there.
ghost use Rattle.std.specs.Prelude.{◌≡◌};
ghost use Rattle.drmaa_types.specs.Readings.{counted_on};

/// The count after one more.
pub(crate) fn counted_on(count: u64) -> u64
    ensures { result ≡ counted_on count }
{
    count.saturating_add(1)
}
