//! Moments and limits of time, in whole seconds.
ghost use Rattle.std.specs.Prelude.{◌≡◌, ◌+◌, ◌≤◌};
ghost use Rattle.std.specs.Option.{SomeIff};
ghost use Rattle.drmaa_types.specs.Moments.{greatest};

use std::marker::Model;

/// A moment: a whole number of seconds from 0 to 100,000,000,000.
#[derive(Clone, Copy, Debug, PartialEq, Eq, PartialOrd, Ord)]
pub struct Moment {
    number: u64,
}

impl Model for Moment {
    ghost use Rattle.std.specs.Prelude.{ℕ, ◌≤◌};
    ghost use Rattle.drmaa_types.specs.Moments.{greatest};

    ghost Value = { ℕ };

    ghost view = { λ m. m.number };

    ghost invariant = { λ m. m.number ≤ greatest };

    ghost inverse = { λ n. record { number = n } };
}

impl Moment {
    /// The greatest moment, 100,000,000,000.
    #[tactic(auto, unfolding(crate::specs::Moments::greatest))]
    pub fn greatest() -> Moment
        ensures { result ≡ greatest }
    {
        Moment {
            number: 100_000_000_000,
        }
    }

    /// The moment of this number of seconds. None exactly where it is above 100,000,000,000.
    #[tactic(auto, unfolding(crate::specs::Moments::greatest))]
    pub fn new(number: u64) -> Option<Moment>
        ensures { SomeIff result (number ≤ greatest) number }
    {
        if number <= 100_000_000_000 {
            Some(Moment { number })
        } else {
            None
        }
    }

    /// The moment so many seconds later. None exactly where that is above 100,000,000,000.
    #[tactic(auto, unfolding(crate::specs::Moments::greatest))]
    pub fn plus(self, seconds: u64) -> Option<Moment>
        ensures { SomeIff result (self + seconds ≤ greatest) (self + seconds) }
    {
        let Some(number) = self.number.checked_add(seconds) else {
            return None;
        };
        Moment::new(number)
    }

    /// The number of seconds.
    pub fn number(self) -> u64
        ensures value { result ≡ self }
        ensures within { result ≤ greatest }
    {
        self.number
    }
}

/// No moment is after the greatest: a law, whose function does nothing.
pub fn a_moment_is_within(moment: Moment)
    ensures { moment ≤ greatest }
{}

/// Where an interval of time ends: at a moment, or never.
#[derive(Clone, Copy, Debug, PartialEq, Eq)]
pub enum End {
    At(Moment),
    Never,
}

/// How long a wait may last: a number of seconds, or without end.
#[derive(Clone, Copy, Debug, PartialEq, Eq)]
pub enum Timeout {
    Seconds(u64),
    Infinite,
}
