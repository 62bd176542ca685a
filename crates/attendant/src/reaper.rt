//! The children that were started, and the order in hand.
ghost use Rattle.std.specs.Prelude.{◌≡◌, [], None};

use drmaa_model::Signal;
use drmaa_types::JobId;
use slab::Slab;
use std::alloc::Global;

/// A child with the run that it is of.
pub struct Held<T> {
    pub job: JobId,
    pub attempt: u32,
    pub child: T,
}

// By hand, so that how its parts are let go is proved here once, and not again in each crate that lets one go.
impl<T: Drop> Drop for Held<T> {
    fn drop(self) {
        let Held {
            job: _,
            attempt: _,
            child: _,
        } = self;
    }
}

/// An order that was taken and is not reported, with what its delivery answered: true for Ok.
#[derive(Clone, Copy, Debug, PartialEq, Eq)]
pub struct Hand {
    pub signal: Signal,
    pub answer: Option<bool>,
}

/// The children, and the order in hand.
pub struct Reaper<T> {
    pub(crate) children: Slab<Held<T>>,
    pub(crate) order: Option<Hand>,
}

// By hand, so that how its parts are let go is proved here once, and not again in each crate that lets one go.
impl<T: Drop> Drop for Reaper<T> {
    fn drop(self) {
        let Reaper {
            children: _,
            order: _,
        } = self;
    }
}

impl<T> Reaper<T> {
    /// No children, and no order in hand. It takes no memory: the allocator is kept for the list of children, which takes its room
    /// when a launch asks for it.
    pub fn new(alloc: Global) -> Reaper<T>
        ensures children { result.children.slots ≡ [] }
        ensures order { result.order ≡ None }
    {
        Reaper {
            children: Slab::new(alloc),
            order: None,
        }
    }
}
