//! Parts of what a job and a reservation are asked for with (GFD.231, JobTemplate and ReservationTemplate).
ghost use Rattle.std.specs.Prelude.{◌≡◌};

use crate::{ListOf, Moment, Text};
use std::alloc::AllocError;

/// An environment variable of a job, and its value.
#[derive(Drop)]
pub struct Pair {
    pub name: Text,
    pub value: Text,
}

/// Environment variables, in order.
pub type PairList = ListOf<Pair>;

/// A named limit on what a job may use.
#[derive(Drop)]
pub struct ResourceLimit {
    pub name: Text,
    pub value: u64,
}

/// Limits, in order.
pub type LimitList = ListOf<ResourceLimit>;

/// When a reservation is to start: at a moment, or now.
#[derive(Clone, Copy, Debug, PartialEq, Eq)]
pub enum Start {
    At(Moment),
    Now,
}

impl Clone for Pair {
    ghost is_clone = { λ pair copy. copy ≡ pair };

    fn clone(&self) -> Result<Pair, AllocError> {
        Ok(Pair {
            name: self.name.clone()?,
            value: self.value.clone()?,
        })
    }
}

impl Clone for ResourceLimit {
    ghost is_clone = { λ limit copy. copy ≡ limit };

    fn clone(&self) -> Result<ResourceLimit, AllocError> {
        Ok(ResourceLimit {
            name: self.name.clone()?,
            value: self.value,
        })
    }
}
