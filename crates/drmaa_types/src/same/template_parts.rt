//! Variables and limits that are the same.
use crate::{Pair, ResourceLimit, Same};

impl Same for Pair {
    fn is_same(&self, other: &Pair) -> bool {
        self.name.is_same(&other.name) && self.value.is_same(&other.value)
    }
}

impl Same for ResourceLimit {
    fn is_same(&self, other: &ResourceLimit) -> bool {
        self.name.is_same(&other.name) && self.value.is_same(&other.value)
    }
}
