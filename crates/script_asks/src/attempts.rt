//! The attempts of the jobs that were launched.
ghost use Rattle.std.specs.Prelude.{◌≡◌, [], ℕ, IfOk};
ghost use Rattle.script_asks.specs.Attempts as shown;

use drmaa_model::Reply;
use indexmap::IndexMap;
use std::alloc::{AllocError, Global};
use std::marker::Model;

/// The attempt of each job's last launch. Contracts see it as a list of pairs of a job and an attempt.
#[derive(Drop)]
pub struct Attempts {
    attempts: IndexMap<u64, u32>,
}

impl Model for Attempts {
    ghost use Rattle.std.specs.Prelude.{List, ℕ};

    ghost Value = { List (ℕ × ℕ) };

    ghost view = { λ a. a.attempts.entries };
}

impl Attempts {
    /// No job was launched; it takes no memory.
    pub fn new(alloc: Global) -> Attempts
        ensures { result ≡ [] }
    {
        Attempts {
            attempts: IndexMap::new(alloc),
        }
    }

    /// Notes a reply. After an `Err` memory ran out, and the attempts may be anything.
    pub fn note(&mut self, reply: &Reply) -> Result<(), AllocError>
        ensures { IfOk result (λ _. shown.Notes self.old reply.now self.new) }
    {
        match reply {
            Reply::Launch(launch) => match self.attempts.insert(launch.job.0, launch.attempt) {
                Ok(_) => Ok(()),
                Err(failed) => Err(failed.into()),
            },
            _ => Ok(()),
        }
    }

    /// The attempt of a job's last launch, and 0 where there was none.
    pub fn attempt(&self, job: u64) -> u32
        ensures { result ≡ shown.attempt_in self.now job }
    {
        match self.attempts.get(&job) {
            Some(attempt) => *attempt,
            None => 0,
        }
    }
}
