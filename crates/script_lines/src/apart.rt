//! Values that lie apart from what holds them, so that it stays small.
ghost use Rattle.std.specs.Prelude.{◌≡◌, IfOk};

use std::alloc::{AllocError, Global};
use std::marker::Model;

/// A `Box`, seen by contracts as its value.
#[derive(Drop)]
pub struct Apart<T> {
    inner: Box<T>,
}

impl<T> Model for Apart<T> {
    ghost use Rattle.std.specs.Prelude.{List};

    ghost Value = { T };

    ghost view = { λ a. a.inner.value };
}

impl<T> Apart<T> {
    /// The value.
    pub fn get(&self) -> &T
        ensures { result.now ≡ self.now }
    {
        &self.inner
    }
}

impl<T: Drop> Apart<T> {
    /// This value, in memory of its own.
    ///
    /// # Errors
    /// `AllocError` where memory is wanted.
    pub fn new(alloc: Global, value: T) -> Result<Apart<T>, AllocError>
        ensures { IfOk result (λ a. a ≡ value) }
    {
        Ok(Apart {
            inner: Box::new(alloc, value)?,
        })
    }
}
