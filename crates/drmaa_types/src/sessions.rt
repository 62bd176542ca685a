//! The kinds of session.

/// The kind of a session: of jobs, of reservations, or for monitoring.
#[derive(Clone, Copy, Debug, PartialEq, Eq)]
pub enum SessionKind {
    Jobs,
    Reservations,
    Monitoring,
}
