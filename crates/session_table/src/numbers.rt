//! The valid session numbers, each with its kind and the home that it stands for.
ghost use Rattle.std.specs.Prelude.{◌≡◌, ◌+◌, ◌<◌, ◌==◌, [], ◌∷◌, ◌++◌, filter, length, not, is_some, OnOk, None};
ghost use Rattle.session_table.specs.Sessions.{ValidNumber, meaning_of, is_home};

use drmaa_types::SessionKind;
use indexmap::IndexMap;
use std::alloc::{AllocError, Global};
use std::marker::Model;

/// What a session number stands for.
#[derive(Clone, Copy)]
struct Meaning {
    kind: SessionKind,
    home: Option<u64>,
}

/// The valid session numbers, in order.
#[derive(Drop)]
pub struct ValidNumbers {
    meanings: IndexMap<u64, Meaning>,
}

impl Model for ValidNumbers {
    ghost use Rattle.std.specs.Prelude.{nat_eq, map};
    ghost use Rattle.session_table.specs.Tables.{NumberRows};

    ghost Value = { NumberRows };

    ghost use Rattle.indexmap.specs.IndexMap.{spare, IsUnique};
    ghost use Rattle.session_table.specs.NumberEntries.{number_row};

    ghost view = { λ t. record { rows = map number_row t.meanings.entries; spare = spare t.meanings } };

    ghost invariant = { λ t. IsUnique nat_eq t.meanings };
}

impl ValidNumbers {
    /// No number; it takes no memory.
    pub fn new(alloc: Global) -> ValidNumbers
        ensures { result.rows ≡ [] }
    {
        ValidNumbers {
            meanings: IndexMap::new(alloc),
        }
    }

    /// How many numbers are valid.
    pub fn len(&self) -> usize
        ensures { result ≡ length self.now.rows }
    {
        self.meanings.len()
    }

    /// What the number stands for; none where it is not valid.
    pub fn find(&self, number: u64) -> Option<(SessionKind, Option<u64>)>
        ensures { result ≡ meaning_of number self.now.rows }
    {
        let meaning = self.meanings.get(&number)?;
        Some((meaning.kind, meaning.home))
    }

    /// Room for one number more.
    pub fn reserve(&mut self) -> Result<(), AllocError>
        ensures rows { self.new.rows ≡ self.old.rows }
        ensures room { OnOk result (0 < self.new.spare) }
    {
        self.meanings.reserve(1)
    }

    /// Makes a new number valid, in room that was reserved.
    pub fn add(&mut self, number: u64, kind: SessionKind, home: Option<u64>)
        requires room { 0 < self.old.spare }
        requires absent { meaning_of number self.old.rows ≡ None }
        ensures { self.new.rows ≡ self.old.rows ++ record { number = number; kind = kind; home = home } ∷ [] }
    {
        let added = self.meanings.insert(number, Meaning { kind, home });
        added.unwrap();
    }

    /// Makes a number invalid; whether it was valid.
    pub fn remove(&mut self, number: u64) -> bool
        ensures found { result ≡ is_some (meaning_of number self.old.rows) }
        ensures rows { self.new.rows ≡ filter (λ (v : ValidNumber). not (number == v.number)) self.old.rows }
    {
        self.meanings.shift_remove(&number).is_some()
    }

    /// Makes every number of a home invalid.
    pub fn remove_home(&mut self, home: u64)
        ensures { self.new.rows ≡ filter (λ (v : ValidNumber). not (is_home home v.home)) self.old.rows }
    {
        self.meanings.retain(
            |_number: &u64, meaning: &mut Meaning| -> bool
                ensures { (result ≡ not (is_home home meaning.old.home)) × (meaning.new ≡ meaning.old) }
            { meaning.home != Some(home) },
        );
    }
}
