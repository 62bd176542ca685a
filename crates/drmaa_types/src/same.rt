//! When two values are the same: in every part.
ghost use Rattle.std.specs.Prelude.{◌≡◌, ◌↔◌, IsTrue};

mod infos;
mod refusals;
mod template_parts;
mod values;

use crate::{Boxed, ListOf};

/// A value that can be compared with another one.
pub trait Same {
    /// Whether the two are the same.
    fn is_same(&self, other: &Self) -> bool
        ensures { IsTrue result ↔ (self.now ≡ other.now) };
}

impl<T: Same> Same for Option<T> {
    fn is_same(&self, other: &Option<T>) -> bool {
        match (self, other) {
            (None, None) => true,
            (Some(one), Some(other)) => one.is_same(other),
            (None, Some(_)) | (Some(_), None) => false,
        }
    }
}

impl<T: Same> Same for Boxed<T> {
    fn is_same(&self, other: &Boxed<T>) -> bool {
        self.get().is_same(other.get())
    }
}

/// Whether the items are the same, place by place.
fn are_same<T: Same>(ones: &[T], others: &[T]) -> bool
    ensures { IsTrue result ↔ (ones.now ≡ others.now) }
{
    if ones.len() != others.len() {
        return false;
    }
    for i in 0..ones.len() {
        if !ones[i].is_same(&others[i]) {
            return false;
        }
    }
    true
}

impl<T: Same> Same for ListOf<T> {
    fn is_same(&self, other: &ListOf<T>) -> bool {
        are_same(self.as_slice(), other.as_slice())
    }
}
