//! The table of sessions: creating, opening, closing and destroying them.
ghost use Rattle.std.specs.Prelude.{◌≡◌, ◌-◌, ◌<◌, ◌^◌, IsTrue, IfOk, IfErr, OnOk, OnErr, option_copied, Some, None};
ghost use Rattle.session_table.specs.Sessions.{Sessions, IsSound, IsLeastUnused, opening, create_refusal, open_refusal, monitor_refusal, close_refusal, destroy_refusal, RefusesAs, RefusesOnlyAs, created, opened, closed, destroyed, has_names, is_bound, is_bad_name, chosen_name, home_of, name_of, names_of, meaning_of, least_unused};

use crate::names::NamedSessions;
use crate::numbers::ValidNumbers;
use drmaa_types::{Limit, Refusal, SessionId, SessionKind, Text, TextList, Which};
use std::alloc::Global;
use std::marker::Model;

/// The most named sessions, and the most valid session numbers.
const MOST_SESSIONS: usize = 1_000;

/// The most bytes of a session's name.
const MOST_BYTES: usize = 255;

/// The named sessions, the valid session numbers, and the numbers that come next.
#[derive(Drop)]
pub struct SessionTable {
    alloc: Global,
    named: NamedSessions,
    valid: ValidNumbers,
    next_session: u64,
    next_home: u64,
}

impl Model for SessionTable {
    ghost use Rattle.session_table.specs.Sessions.{Sessions, IsSound};

    ghost Value = { Sessions };

    ghost use Rattle.session_table.specs.TableView.{sessions_of};

    ghost view = { sessions_of };

    ghost invariant = { λ t. IsSound (sessions_of t) };
}

impl SessionTable {
    /// No sessions; the numbers begin at 1. It takes no memory: the allocator serves the calls that follow.
    pub fn new(alloc: Global) -> Result<SessionTable, Refusal>
        ensures empty { result ≡ Ok opening }
        ensures sound { IfOk result IsSound }
    {
        Ok(SessionTable {
            alloc,
            named: NamedSessions::new(alloc),
            valid: ValidNumbers::new(alloc),
            next_session: 1,
            next_home: 1,
        })
    }

    /// The kind of a session number, and the home that it stands for; none where it is not valid. It takes no memory.
    pub fn find(&self, session: SessionId) -> Option<(SessionKind, Option<u64>)>
        ensures meaning { result ≡ meaning_of session.0 self.now.valid }
        ensures sound { IsSound self.now }
    {
        self.valid.find(session.0)
    }

    /// The name of the named session with this home; none where there is none. It takes no memory.
    pub fn name(&self, home: u64) -> Option<&Text>
        ensures { option_copied result ≡ name_of home self.now.named }
    {
        self.named.name(home)
    }

    /// The names of a kind, in order of creation.
    ///
    /// # Errors
    /// Want of memory alone.
    pub fn names(&self, kind: SessionKind) -> Result<TextList, Refusal>
        ensures names { IfOk result (λ names. names ≡ names_of kind self.now.named) }
        ensures err { IfErr result (λ refusal. refusal ≡ Refusal.OutOfMemory) }
    {
        self.named
            .names(self.alloc, kind)
            .map_err(|_| Refusal::OutOfMemory)
    }

    /// Creates a named session, and answers its first number. An unset name is the least unused
    /// `session-N`, N from 1, of its kind. The kind has names: it is not for monitoring.
    ///
    /// # Errors
    /// In this order: `InvalidArgument(SessionName)` where the name is empty, has more than 255 bytes or is in use in
    /// its kind; `OutOfResource(Sessions)` and `OutOfResource(OpenSessions)` where there are 1,000; want of memory.
    /// Then nothing has changed.
    pub fn create(&mut self, kind: SessionKind, name: Option<Text>) -> Result<SessionId, Refusal>
        requires kind { IsTrue (has_names kind) }
        requires next_session { self.old.next_session < 2 ^ 64 - 1 }
        requires next_home { self.old.next_home < 2 ^ 64 - 1 }
        ensures refusal { RefusesAs (create_refusal kind name self.old) result }
        ensures number { IfOk result (λ session. session.0 ≡ self.old.next_session) }
        ensures effect { OnOk result (self.new ≡ created kind name self.old) }
        // `created` names an unset session by the least unused number, among all numbers.
        ensures least { IsLeastUnused kind self.old.named (least_unused kind self.old.named) }
        ensures unchanged { OnErr result (self.new ≡ self.old) }
        ensures sound { IsSound self.new }
    {
        self.may_create(kind, &name)?;
        let name = self.chosen_name(kind, name)?;
        if self.named.reserve().is_err() || self.valid.reserve().is_err() {
            return Err(Refusal::OutOfMemory);
        }
        let session = self.next_session;
        let home = self.next_home;
        self.named.add(home, kind, name);
        self.valid.add(session, kind, Some(home));
        self.next_home += 1;
        self.next_session += 1;
        Ok(SessionId(session))
    }

    /// Opens a named session: answers a new number for it.
    ///
    /// # Errors
    /// In this order: `InvalidArgument(SessionName)` where no session of this kind has the name;
    /// `OutOfResource(OpenSessions)` where 1,000 numbers are valid; want of memory. Then nothing has changed.
    pub fn attach(&mut self, kind: SessionKind, name: &Text) -> Result<SessionId, Refusal>
        requires { self.old.next_session < 2 ^ 64 - 1 }
        ensures refusal { RefusesAs (open_refusal kind name.now self.old) result }
        ensures number { IfOk result (λ session. session.0 ≡ self.old.next_session) }
        ensures effect { OnOk result (self.new ≡ opened kind (home_of kind name.now self.old.named) self.old) }
        ensures unchanged { OnErr result (self.new ≡ self.old) }
        ensures sound { IsSound self.new }
    {
        let Some(home) = self.named.home_of(kind, name) else {
            return Err(Refusal::InvalidArgument(Which::SessionName));
        };
        self.open(kind, Some(home))
    }

    /// Opens a monitoring session: answers a new number, which stands for no named session.
    ///
    /// # Errors
    /// `OutOfResource(OpenSessions)` where 1,000 numbers are valid; want of memory. Then nothing has changed.
    pub fn monitor(&mut self) -> Result<SessionId, Refusal>
        requires { self.old.next_session < 2 ^ 64 - 1 }
        ensures refusal { RefusesAs (monitor_refusal self.old) result }
        ensures number { IfOk result (λ session. session.0 ≡ self.old.next_session) }
        ensures effect { OnOk result (self.new ≡ opened SessionKind.Monitoring None self.old) }
        ensures unchanged { OnErr result (self.new ≡ self.old) }
        ensures sound { IsSound self.new }
    {
        self.open(SessionKind::Monitoring, None)
    }

    /// Makes a number invalid. It takes no memory.
    ///
    /// # Errors
    /// `InvalidSession` where the number is not valid. Then nothing has changed.
    pub fn close(&mut self, session: SessionId) -> Result<(), Refusal>
        ensures refusal { RefusesOnlyAs (close_refusal session.0 self.old) result }
        ensures effect { OnOk result (self.new ≡ closed session.0 self.old) }
        ensures unchanged { OnErr result (self.new ≡ self.old) }
        ensures sound { IsSound self.new }
    {
        if self.valid.find(session.0).is_none() {
            return Err(Refusal::InvalidSession);
        }
        self.valid.remove(session.0);
        Ok(())
    }

    /// Destroys a named session, with every number that stands for it, and answers its home. It takes no memory.
    ///
    /// # Errors
    /// `InvalidArgument(SessionName)` where no session of this kind has the name. Then nothing has changed.
    pub fn destroy(&mut self, kind: SessionKind, name: &Text) -> Result<u64, Refusal>
        ensures refusal { RefusesOnlyAs (destroy_refusal kind name.now self.old) result }
        ensures home { IfOk result (λ home. home_of kind name.now self.old.named ≡ Some home) }
        ensures effect { IfOk result (λ home. self.new ≡ destroyed home self.old) }
        ensures unchanged { OnErr result (self.new ≡ self.old) }
        ensures sound { IsSound self.new }
    {
        let Some(home) = self.named.home_of(kind, name) else {
            return Err(Refusal::InvalidArgument(Which::SessionName));
        };
        self.named.remove(home);
        self.valid.remove_home(home);
        Ok(home)
    }

    /// Whether a session may be created under this name.
    fn may_create(&self, kind: SessionKind, name: &Option<Text>) -> Result<(), Refusal>
        ensures { RefusesOnlyAs (create_refusal kind name.now self.now) result }
    {
        if self.is_bad_name(kind, name) {
            return Err(Refusal::InvalidArgument(Which::SessionName));
        }
        if self.named.len() >= MOST_SESSIONS {
            return Err(Refusal::OutOfResource(Limit::Sessions));
        }
        if self.valid.len() >= MOST_SESSIONS {
            return Err(Refusal::OutOfResource(Limit::OpenSessions));
        }
        Ok(())
    }

    /// Whether no session can be created under this name.
    fn is_bad_name(&self, kind: SessionKind, name: &Option<Text>) -> bool
        ensures { result ≡ is_bad_name kind name.now self.now.named }
    {
        match name {
            Some(name) => {
                let length = name.as_str().len();
                length == 0 || length > MOST_BYTES || self.named.home_of(kind, name).is_some()
            }
            None => false,
        }
    }

    /// The name that a session gets.
    fn chosen_name(&self, kind: SessionKind, name: Option<Text>) -> Result<Text, Refusal>
        ensures name { IfOk result (λ chosen. chosen ≡ chosen_name kind name self.now.named) }
        ensures err { IfErr result (λ refusal. refusal ≡ Refusal.OutOfMemory) }
    {
        match name {
            Some(name) => Ok(name),
            None => self
                .named
                .unused_name(self.alloc, kind)
                .map_err(|_| Refusal::OutOfMemory),
        }
    }

    /// A new number for this home, or for monitoring and none.
    fn open(&mut self, kind: SessionKind, home: Option<u64>) -> Result<SessionId, Refusal>
        requires bound { IsTrue (is_bound self.old.named (record { number = self.old.next_session; kind = kind; home = home })) }
        requires next_session { self.old.next_session < 2 ^ 64 - 1 }
        ensures refusal { RefusesAs (monitor_refusal self.old) result }
        ensures number { IfOk result (λ session. session.0 ≡ self.old.next_session) }
        ensures effect { OnOk result (self.new ≡ opened kind home self.old) }
        ensures unchanged { OnErr result (self.new ≡ self.old) }
        ensures sound { IsSound self.new }
    {
        if self.valid.len() >= MOST_SESSIONS {
            return Err(Refusal::OutOfResource(Limit::OpenSessions));
        }
        if self.valid.reserve().is_err() {
            return Err(Refusal::OutOfMemory);
        }
        let session = self.next_session;
        self.valid.add(session, kind, home);
        self.next_session += 1;
        Ok(SessionId(session))
    }
}
