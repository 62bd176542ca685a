//! The named sessions, by their homes, in order of creation.
ghost use Rattle.std.specs.Prelude.{◌≡◌, ◌+◌, ◌-◌, ◌<◌, ◌^◌, ◌==◌, ◌&&◌, [], ◌∷◌, ◌++◌, filter, length, map, not, option_copied, IfOk, OnOk, None};
ghost use Rattle.std.specs.Str.{bytes_eq};
ghost use Rattle.session_table.specs.Sessions.{NamedSession, home_of, name_of, names_of, is_kind, is_named, session_name, least_unused};

use crate::kinds::is_same_kind;
use drmaa_types::{SessionKind, Text, TextList};
use indexmap::IndexMap;
use std::alloc::{AllocError, Global};
use std::marker::Model;

/// What a named session is called.
#[derive(Drop)]
struct Naming {
    kind: SessionKind,
    name: Text,
}

impl Naming {
    /// Whether the session has this kind and this name.
    fn is(&self, kind: SessionKind, name: &Text) -> bool
        ensures { result ≡ (is_kind kind self.now.kind && bytes_eq name.now self.now.name) }
    {
        is_same_kind(kind, self.kind) && *name == self.name
    }
}

/// The named sessions of both kinds.
#[derive(Drop)]
pub struct NamedSessions {
    namings: IndexMap<u64, Naming>,
}

impl Model for NamedSessions {
    ghost use Rattle.std.specs.Prelude.{nat_eq, map};
    ghost use Rattle.session_table.specs.Tables.{NamedRows};

    ghost Value = { NamedRows };

    ghost use Rattle.indexmap.specs.IndexMap.{spare, IsUnique};
    ghost use Rattle.session_table.specs.NameEntries.{name_row};

    ghost view = { λ t. record { rows = map name_row t.namings.entries; spare = spare t.namings } };

    ghost invariant = { λ t. IsUnique nat_eq t.namings };
}

impl NamedSessions {
    /// No session; it takes no memory.
    pub fn new(alloc: Global) -> NamedSessions
        ensures { result.rows ≡ [] }
    {
        NamedSessions {
            namings: IndexMap::new(alloc),
        }
    }

    /// How many named sessions there are.
    pub fn len(&self) -> usize
        ensures count { result ≡ length self.now.rows }
        ensures small { result < 2 ^ 63 }
    {
        self.namings.len()
    }

    /// The name of the session with this home; none where there is no such session.
    pub fn name(&self, home: u64) -> Option<&Text>
        ensures { option_copied result ≡ name_of home self.now.rows }
    {
        match self.namings.get(&home) {
            Some(naming) => Some(&naming.name),
            None => None,
        }
    }

    /// The home of the session of this kind and name; none where there is no such session.
    pub fn home_of(&self, kind: SessionKind, name: &Text) -> Option<u64>
        ensures { result ≡ home_of kind name.now self.now.rows }
    {
        for (home, naming) in self.namings.iter() {
            if naming.is(kind, name) {
                return Some(*home);
            }
        }
        None
    }

    /// The names of a kind, in order of creation.
    pub fn names(&self, alloc: Global, kind: SessionKind) -> Result<TextList, AllocError>
        ensures { IfOk result (λ names. names ≡ names_of kind self.now.rows) }
    {
        let mut names = Vec::new(alloc);
        for (_, naming) in self.namings.iter() {
            if is_same_kind(kind, naming.kind) {
                names.push(naming.name.clone()?)?;
            }
        }
        Ok(TextList::from_vec(names))
    }

    /// `session-N` with the least N from 1 that is not in use in this kind.
    pub fn unused_name(&self, alloc: Global, kind: SessionKind) -> Result<Text, AllocError>
        ensures { IfOk result (λ name. name ≡ session_name (least_unused kind self.now.rows)) }
    {
        let count = self.len() as u64;
        for number in 1..count + 1 {
            let name = session_name(alloc, number)?;
            if self.home_of(kind, &name).is_none() {
                return Ok(name);
            }
        }
        session_name(alloc, count + 1)
    }

    /// Room for one session more.
    pub fn reserve(&mut self) -> Result<(), AllocError>
        ensures rows { self.new.rows ≡ self.old.rows }
        ensures room { OnOk result (0 < self.new.spare) }
    {
        self.namings.reserve(1)
    }

    /// Adds a session with a new home, in room that was reserved.
    pub fn add(&mut self, home: u64, kind: SessionKind, name: Text)
        requires room { 0 < self.old.spare }
        requires absent { name_of home self.old.rows ≡ None }
        ensures { self.new.rows ≡ self.old.rows ++ record { home = home; kind = kind; name = name } ∷ [] }
    {
        let added = self.namings.insert(home, Naming { kind, name });
        added.unwrap();
    }

    /// Takes the session of this home out.
    pub fn remove(&mut self, home: u64)
        ensures { self.new.rows ≡ filter (λ (n : NamedSession). not (home == n.home)) self.old.rows }
    {
        self.namings.shift_remove(&home);
    }
}

/// The text `session-N`.
fn session_name(alloc: Global, number: u64) -> Result<Text, AllocError>
    ensures { IfOk result (λ name. name ≡ session_name number) }
{
    Ok(Text::from_string(format!(in alloc; "session-{number}")?))
}
