//! Values that several owners share, so that each is kept once.
ghost use Rattle.std.specs.Prelude.{◌≡◌, IfOk};

use crate::Same;
use std::alloc::{AllocError, Global};
use std::marker::Model;
use std::sync::Arc;

/// An `Arc`, seen by contracts as the value in it.
pub struct Shared<T> {
    inner: Arc<T, Global>,
}

// By hand, so that how its parts are let go is proved here once, and not again in each crate that lets one go.
impl<T: Drop> Drop for Shared<T> {
    fn drop(self) {
        let Shared { inner: _ } = self;
    }
}

impl<T> Model for Shared<T> {
    ghost use Rattle.std.specs.Arc.{arc_value};

    ghost Value = { T };

    ghost view = { λ s. arc_value s.inner };
}

impl<T> Shared<T> {
    /// The value.
    pub fn get(&self) -> &T
        ensures { result.now ≡ self.now }
    {
        &self.inner
    }
}

impl<T: Drop> Shared<T> {
    /// This value, in memory of its own.
    ///
    /// # Errors
    /// `AllocError` where memory is wanted.
    pub fn new(alloc: Global, value: T) -> Result<Shared<T>, AllocError>
        ensures { IfOk result (λ s. s ≡ value) }
    {
        Ok(Shared {
            inner: Arc::new(alloc, value)?,
        })
    }
}

impl<T: Same + Drop> Shared<T> {
    /// Becomes this value as it is kept elsewhere, where it is the same.
    pub fn keep_as(&mut self, kept: &Shared<T>)
        ensures { self.new ≡ self.old }
    {
        if self.is_same(kept) {
            if let Ok(kept) = kept.clone() {
                *self = kept;
            }
        }
    }
}

// A further owner of the same value; it takes no memory.
impl<T: Drop> Clone for Shared<T> {
    ghost is_clone = { λ shared copy. copy ≡ shared };

    fn clone(&self) -> Result<Shared<T>, AllocError> {
        Ok(Shared {
            inner: self.inner.clone()?,
        })
    }
}

impl<T: Same> Same for Shared<T> {
    fn is_same(&self, other: &Shared<T>) -> bool {
        self.get().is_same(other.get())
    }
}
