//! What a session number stands for.
ghost use Rattle.std.specs.Prelude.{◌≡◌, [], ◌∷◌};
ghost use Rattle.drmaa_model.specs.Homes.{kind_of, home_in, is_open};
ghost use Rattle.drmaa_model.specs.Homes as homes;

use crate::store::Store;
use drmaa_types::{SessionId, SessionKind};

impl Store {
    /// The kind of a session number, where it is valid.
    pub fn kind_of(&self, session: SessionId) -> Option<SessionKind>
        ensures { result ≡ kind_of session self.now.sessions }
    {
        match self.sessions.find(session) {
            Some((kind, _)) => Some(kind),
            None => None,
        }
    }

    /// The named session that a number stands for, if it stands for one.
    pub fn home_in(&self, session: SessionId) -> Option<u64>
        ensures { result ≡ home_in session self.now.sessions }
    {
        match self.sessions.find(session) {
            Some((_, home)) => home,
            None => None,
        }
    }

    /// Whether the number is that of a job session.
    pub fn is_for_jobs(&self, session: SessionId) -> bool
        ensures { result ≡ is_open (SessionKind.Jobs ∷ []) session self.now.sessions }
    {
        match self.kind_of(session) {
            Some(SessionKind::Jobs) => true,
            Some(SessionKind::Reservations | SessionKind::Monitoring) | None => false,
        }
    }

    /// Whether the number is that of a reservation session.
    pub fn is_for_reservations(&self, session: SessionId) -> bool
        ensures { result ≡ is_open (SessionKind.Reservations ∷ []) session self.now.sessions }
    {
        match self.kind_of(session) {
            Some(SessionKind::Reservations) => true,
            Some(SessionKind::Jobs | SessionKind::Monitoring) | None => false,
        }
    }

    /// Whether the number is that of a monitoring session.
    pub fn is_for_monitoring(&self, session: SessionId) -> bool
        ensures { result ≡ is_open (SessionKind.Monitoring ∷ []) session self.now.sessions }
    {
        match self.kind_of(session) {
            Some(SessionKind::Monitoring) => true,
            Some(SessionKind::Jobs | SessionKind::Reservations) | None => false,
        }
    }

    /// Whether the number is that of a job session or of a monitoring session.
    pub fn is_for_jobs_or_monitoring(&self, session: SessionId) -> bool
        ensures { result ≡ is_open (SessionKind.Jobs ∷ SessionKind.Monitoring ∷ []) session self.now.sessions }
    {
        match self.kind_of(session) {
            Some(SessionKind::Jobs | SessionKind::Monitoring) => true,
            Some(SessionKind::Reservations) | None => false,
        }
    }

    /// Whether the number is valid.
    pub fn is_valid(&self, session: SessionId) -> bool
        ensures { result ≡ is_open (SessionKind.Jobs ∷ SessionKind.Reservations ∷ SessionKind.Monitoring ∷ []) session self.now.sessions }
    {
        match self.kind_of(session) {
            Some(SessionKind::Jobs | SessionKind::Reservations | SessionKind::Monitoring) => true,
            None => false,
        }
    }
}

/// Whether both are one named session.
pub fn is_same_home(a: Option<u64>, b: Option<u64>) -> bool
    ensures { result ≡ homes.is_same_home a b }
{
    match (a, b) {
        (Some(a), Some(b)) => a == b,
        (None, _) | (_, None) => false,
    }
}
