//! How long one of many took.
use std::time::Instant;

/// Measures one piece of work after the other.
#[derive(Drop)]
pub struct Watch {
    rt: HostRuntime,
    begun: Option<Instant>,
}

impl Watch {
    /// A watch that is started now.
    pub fn start(rt: HostRuntime) -> Watch {
        let begun = Instant::now(&rt).ok();
        Watch { rt, begun }
    }

    /// The nanoseconds that each of so many took since the watch was started, and it is started again. 0 where the clock can't be
    /// read.
    pub fn each(&mut self, count: u32) -> u64 {
        let spent = match self.begun {
            Some(begun) => begun.elapsed(&self.rt).ok(),
            None => None,
        };
        self.begun = Instant::now(&self.rt).ok();
        match spent {
            Some(spent) => {
                u64::try_from(spent.as_nanos() / count.max(1) as u128).unwrap_or(u64::MAX)
            }
            None => 0,
        }
    }
}
