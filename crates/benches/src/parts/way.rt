//! In which order the jobs come.
ghost use Rattle.std.specs.Prelude.{◌<◌};

/// The step from one scattered number to the next: a prime, so that each number comes once for a
/// count that it does not divide.
const STRIDE: u64 = 7919;

/// The order in which the jobs come.
#[derive(Clone, Copy)]
pub enum Way {
    InOrder,
    Scattered,
}

impl Way {
    /// What it is called.
    pub fn name(&self) -> &'static str {
        match self {
            Way::InOrder => "in order",
            Way::Scattered => "scattered",
        }
    }

    /// The number from 1 to the count that comes at this place.
    pub fn number(&self, place: u32, count: u32) -> u64
        requires { place < count }
    {
        match self {
            Way::InOrder => place as u64 + 1,
            Way::Scattered => place as u64 * STRIDE % count as u64 + 1,
        }
    }
}
