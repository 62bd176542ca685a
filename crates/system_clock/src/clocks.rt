//! The clock of the machine.
ghost use Rattle.std.specs.Prelude.{◌≡◌, ◌≤◌, Some, None};

use drmaa_types::{CallerId, Clock, Clocks, Moment};
use std::time::Clock as Pause;

/// The seconds since 1970, by the clock of this machine, for one caller; where that falls, or can't be read, the last reading again. It
/// tells whose clock it is, and no readings.
#[derive(Drop)]
pub struct SystemClock {
    rt: HostRuntime,
    caller: CallerId,
    last: Moment,
}

impl Clock for SystemClock {
    ghost given = { λ c. record { caller = Some c.caller.0; told = None } };

    ghost least = { λ c. c.last };

    fn now(&mut self) -> Moment {
        let seconds = match self.rt.since_1970() {
            Ok(since) => since.as_secs(),
            Err(_) => 0,
        };
        let reading = Moment::new(seconds).unwrap_or(Moment::greatest());
        if self.last.number() < reading.number() {
            self.last = reading;
        }
        self.last
    }
}

/// Such a clock for each caller.
#[derive(Drop)]
pub struct SystemClocks {
    rt: HostRuntime,
}

impl SystemClocks {
    /// The clocks of this machine.
    pub fn new(rt: HostRuntime) -> SystemClocks {
        SystemClocks { rt }
    }
}

impl Clocks for SystemClocks {
    type One = SystemClock;

    fn clock(&self, caller: CallerId) -> SystemClock {
        SystemClock {
            rt: self.rt,
            caller,
            last: Moment::new(0).unwrap_or(Moment::greatest()),
        }
    }
}
