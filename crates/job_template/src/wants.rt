//! What a template asks for where it leaves an attribute unset.
ghost use Rattle.std.specs.Prelude.{◌≡◌};
ghost use Rattle.job_template.specs.Wants as wants;

use crate::JobTemplate;
use drmaa_types::ResourceLimit;

/// The name of the limit of how many seconds a launch may last.
pub(crate) const WALLCLOCK_TIME: &str = "WALLCLOCK_TIME";

/// The least number of slots; 1 where it is unset.
pub fn least_slots(min: Option<u32>) -> u32
    ensures { result ≡ wants.least_slots min }
{
    min.unwrap_or(1)
}

/// The greatest number of slots; the least where it is unset.
pub fn greatest_slots(min: Option<u32>, max: Option<u32>) -> u32
    ensures { result ≡ wants.greatest_slots min max }
{
    max.unwrap_or(least_slots(min))
}

/// Whether a limit is of how many seconds a launch may last.
pub(crate) fn is_wallclock(limit: &ResourceLimit) -> bool
    ensures { result ≡ wants.is_wallclock limit.now }
{
    limit.name.as_str() == WALLCLOCK_TIME
}

impl JobTemplate {
    /// The least number of slots that the job can run on; 1 where it is unset.
    pub fn min_slots(&self) -> u32
        ensures { result ≡ wants.min_slots self.now }
    {
        least_slots(self.min_slots)
    }

    /// The greatest number of slots that it can use; the least where it is unset.
    pub fn max_slots(&self) -> u32
        ensures { result ≡ wants.max_slots self.now }
    {
        greatest_slots(self.min_slots, self.max_slots)
    }

    /// Its priority; 0 where it is unset.
    pub fn priority(&self) -> i32
        ensures { result ≡ wants.priority self.now }
    {
        self.priority.unwrap_or(0)
    }

    /// How many seconds a launch of it may last, where that is limited.
    pub fn wallclock_limit(&self) -> Option<u64>
        ensures { result ≡ wants.wallclock_limit self.now }
    {
        for limit in self.resource_limits.as_slice() {
            if is_wallclock(limit) {
                return Some(limit.value);
            }
        }
        None
    }
}
