//! Three flags, by which a client's clock and a callback free a start that is held.
use std::sync::atomic::{AtomicBool, Ordering};

/// How often a start looks whether it may go on.
const LOOKS: u32 = 100_000_000;

/// Whether a start is held, whether a clock was read meanwhile, and whether a callback heard that the job runs.
#[derive(Drop)]
pub struct Flags {
    held: AtomicBool,
    read: AtomicBool,
    heard: AtomicBool,
}

impl Flags {
    /// All are lowered.
    pub fn new() -> Flags {
        Flags {
            held: AtomicBool::new(false),
            read: AtomicBool::new(false),
            heard: AtomicBool::new(false),
        }
    }

    /// Holds until both others are raised, for so many looks at most. Whether they are.
    pub fn hold(&self) -> bool {
        self.held.store(true, Ordering::SeqCst);
        for _ in 0..LOOKS {
            if self.read.load(Ordering::SeqCst) && self.heard.load(Ordering::SeqCst) {
                return true;
            }
        }
        false
    }

    /// A clock is read. It counts while a start is held.
    pub fn clock_read(&self) {
        if self.held.load(Ordering::SeqCst) {
            self.read.store(true, Ordering::SeqCst);
        }
    }

    /// A callback hears that the job runs, whose start is held or comes to be held.
    pub fn callback_heard(&self) {
        self.heard.store(true, Ordering::SeqCst);
    }
}
