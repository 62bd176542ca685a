//! The names of job sessions, by the numbers that were handed out for them.
ghost use Rattle.std.specs.Prelude.{◌≡◌, [], IfOk, option_copied};
ghost use Rattle.run_views.specs.Tables as tables;

use crate::used_names::{name_in, note_use, session_in};
use drmaa_model::Entry;
use drmaa_types::{SessionId, Text};
use indexmap::IndexMap;
use std::alloc::{AllocError, Global};
use std::marker::Model;

/// The name of each number of a job session. Contracts see it as a list of pairs.
#[derive(Drop)]
pub(crate) struct SessionNames {
    names: IndexMap<u64, Text>,
}

impl Model for SessionNames {
    ghost use Rattle.std.specs.Prelude.{List, ℕ};

    ghost Value = { List (ℕ × List ℕ) };

    ghost view = { λ t. t.names.entries };
}

impl SessionNames {
    /// No name; it takes no memory.
    fn new(alloc: Global) -> SessionNames
        ensures { result ≡ [] }
    {
        SessionNames {
            names: IndexMap::new(alloc),
        }
    }

    /// The name of a session number.
    pub(crate) fn find(&self, session: SessionId) -> Option<&Text>
        ensures { option_copied result ≡ tables.name_in_table self.now session.0 }
    {
        self.names.get(&session.0)
    }

    /// The names with that of a session number.
    ///
    /// # Errors
    /// Want of memory; the names are lost then.
    fn with(self, session: SessionId, name: Text) -> Result<SessionNames, AllocError>
        ensures { IfOk result (λ more. tables.Names self session.0 name more) }
    {
        let mut names = self.names;
        match names.insert(session.0, name) {
            Ok(_) => Ok(SessionNames { names }),
            Err(failed) => Err(failed.into()),
        }
    }

    /// The names with this one, where there is one, for a session number, where there is one.
    fn with_given(
        self,
        session: Option<SessionId>,
        name: Option<Text>,
    ) -> Result<SessionNames, AllocError>
        ensures { IfOk result (λ more. tables.NamesIf self session name more) }
    {
        match session {
            Some(session) => match name {
                Some(name) => self.with(session, name),
                None => Ok(self),
            },
            None => Ok(self),
        }
    }
}

/// The names that these entries give.
pub(crate) fn names_of(alloc: Global, entries: &[Entry]) -> Result<SessionNames, AllocError>
    ensures { IfOk result (λ names. tables.ShowsNames names entries.now) }
{
    let mut names = SessionNames::new(alloc);
    let mut used = Vec::new(alloc);
    for entry in entries {
        let name = name_in(alloc, used.as_slice(), &entry.call)?;
        names = names.with_given(session_in(&entry.reply), name)?;
        note_use(&mut used, alloc, &entry.call, &entry.reply)?;
    }
    Ok(names)
}
