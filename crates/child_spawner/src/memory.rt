//! A spawner that starts nothing: its children play the fates that it was given.
ghost use Rattle.std.specs.Prelude.{◌≡◌, ℕ, ◌≤◌, ◌↔◌, [], ◌∷◌, ◌++◌, true, false, length, Contains, Option, Some, OnOk, OnErr, IfOk, IfSome, IsErr, IsTrue, is_ok, if◌then◌else◌};
ghost use Rattle.drmaa_types.specs.Readings.{counted_on};
ghost use Rattle.child_spawner.specs.Children.{started_child};
ghost use Rattle.drmaa_types.specs.Counts.{Rose};
ghost use Rattle.child_spawner.specs.Memory.{told_list};
ghost use Rattle.child_spawner.specs.Spawners.{Asks, fate_of};

use crate::counts::counted_on;
use crate::{Asked, Fate, FateList, MemoryChild, Spawner};
use drmaa_types::{Exit, Failed, JobId, PlaceList, TextList};
use std::alloc::{AllocError, Global};
use std::marker::Model;

/// A spawner that starts nothing, keeps what was asked of it, and fails where it was told to.
pub struct MemorySpawner {
    alloc: Global,
    fates: FateList,
    failing: PlaceList,
    starts: u64,
    faults: u64,
    asked: Vec<Asked>,
    tells: bool,
}

// By hand, so that how its parts are let go is proved here once, and not again in each crate that lets one go.
impl Drop for MemorySpawner {
    fn drop(self) {
        let MemorySpawner {
            alloc: _,
            fates: _,
            failing: _,
            starts: _,
            faults: _,
            asked: _,
            tells: _,
        } = self;
    }
}

impl Model for MemorySpawner {
    ghost use Rattle.std.specs.Prelude.{◌≡◌, IsTrue, length};
    ghost use Rattle.child_spawner.specs.Memory.{Staged};

    ghost Value = { Staged };

    ghost view = { λ s. record {
      fates = s.fates;
      failing = s.failing;
      starts = s.starts;
      faults = s.faults;
      asked = s.asked.items;
      tells = s.tells;
    } };

    ghost invariant = { λ s. IsTrue s.tells → s.starts ≡ length s.asked.items };
}

impl MemorySpawner {
    /// A spawner whose children have these fates, in order, and which fails at these starts, counted
    /// from 1. The child of a start beyond the fates ends at once, with code 0. It takes no memory.
    pub fn new(alloc: Global, fates: FateList, failing: PlaceList) -> MemorySpawner
        ensures { result ≡ record {
          fates = fates;
          failing = failing;
          starts = 0;
          faults = 0;
          asked = [];
          tells = true;
        } }
    {
        MemorySpawner {
            alloc,
            fates,
            failing,
            starts: 0,
            faults: 0,
            asked: Vec::new(alloc),
            tells: true,
        }
    }

    /// Whether the spawner tells what was asked of it: until a start whose record finds no memory.
    pub fn told(&self) -> bool
        ensures { result ≡ self.now.tells }
    {
        self.tells
    }

    /// The starts that were asked, in order: all of them while `told` is true, and else those before
    /// the one whose record found no memory.
    pub fn asked(&self) -> &[Asked]
        ensures { result.now ≡ self.now.asked }
    {
        self.asked.as_slice()
    }
}

impl Spawner for MemorySpawner {
    type One = MemoryChild;

    ghost faults = { λ s. s.faults };

    ghost asked = { told_list };

    ghost fate = { λ s. fate_of s.fates };

    /// Answers a child that plays the fate of this start. Failed exactly at a start that is to fail.
    fn start(&mut self, job: JobId, attempt: u32, words: &TextList) -> Result<MemoryChild, Failed>
        ensures cause { OnErr result (Rose self.old.faults self.new.faults) }
        ensures counted { OnOk result (self.new.faults ≡ self.old.faults) }
        ensures never_falls { self.old.faults ≤ self.new.faults }
        ensures asked { Asks (told_list self.old)
            (record { job = job; attempt = attempt; words = words.now; began = is_ok result })
            (told_list self.new) }
        ensures fates { fate_of self.new.fates ≡ fate_of self.old.fates }
        ensures child { IfOk result (λ child. IfSome (told_list self.new) (λ starts. Some child.told
            ≡ Some (started_child (length starts) job attempt (fate_of self.new.fates (length starts))))) }

        ensures failing { IsErr result ↔ Contains self.old.failing (counted_on self.old.starts) }
        ensures plays { IfOk result (λ child. child ≡ record {
          told = started_child self.new.starts job attempt (fate_of self.old.fates self.new.starts);
          polls = 0;
          signals = 0;
          faults = 0;
        }) }
        ensures seen { self.new ≡ record self.old {
          starts = counted_on self.old.starts;
          faults = if is_ok result then self.old.faults else counted_on self.old.faults;
          asked = self.new.asked;
          tells = self.new.tells;
        } }
        ensures untold { IsTrue self.new.tells → IsTrue self.old.tells }
        ensures kept { self.new.asked ≡ (if self.new.tells then self.old.asked ++
            record { job = job; attempt = attempt; words = words.now; began = is_ok result } ∷ []
            else self.old.asked) }
    {
        let number = counted_on(self.starts);
        let began = !self.failing.as_slice().contains(&number);
        let told = self.tells
            && push_asked(self.alloc, &mut self.asked, job, attempt, words, began).is_ok();
        self.starts = number;
        self.tells = told;
        if !began {
            self.faults = counted_on(self.faults);
            return Err(Failed);
        }
        Ok(MemoryChild::new(number, job, attempt, fate_of(&self.fates, number)))
    }
}

/// Adds a start to those that were asked.
fn push_asked(
    alloc: Global,
    asked: &mut Vec<Asked>,
    job: JobId,
    attempt: u32,
    words: &TextList,
    began: bool,
) -> Result<(), AllocError>
    ensures ok { OnOk result (asked.new.items ≡ asked.old.items ++
        record { job = job; attempt = attempt; words = words.now; began = began } ∷ []) }
    ensures err { OnErr result (asked.new.items ≡ asked.old.items) }
{
    let words = copy_of(alloc, words)?;
    asked.push(Asked {
        job,
        attempt,
        words,
        began,
    })?;
    Ok(())
}

/// A copy of these words.
fn copy_of(alloc: Global, words: &TextList) -> Result<TextList, AllocError>
    ensures { IfOk result (λ copy. copy ≡ words.now) }
{
    let texts = words.as_slice();
    let mut copy = Vec::with_capacity(alloc, texts.len())?;
    for text in texts {
        copy.push(text.clone()?)?;
    }
    Ok(TextList::from_vec(copy))
}

/// The fate of the start with this number, counted from 1.
fn fate_of(fates: &FateList, start: u64) -> Fate
    ensures { result ≡ fate_of fates.now start }
{
    match fates.as_slice().get(start.saturating_sub(1) as usize) {
        Some(fate) => *fate,
        None => Fate {
            polls: 0,
            exit: Exit::Code(0),
            failing_poll: None,
            failing_signal: None,
        },
    }
}
