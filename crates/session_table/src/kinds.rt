//! Whether two kinds of session are one.
ghost use Rattle.std.specs.Prelude.{◌≡◌};
ghost use Rattle.session_table.specs.Sessions.{is_kind};

use drmaa_types::SessionKind;

/// Whether the kinds are one.
pub fn is_same_kind(a: SessionKind, b: SessionKind) -> bool
    ensures { result ≡ is_kind a b }
{
    matches!(
        (a, b),
        (SessionKind::Jobs, SessionKind::Jobs)
            | (SessionKind::Reservations, SessionKind::Reservations)
            | (SessionKind::Monitoring, SessionKind::Monitoring)
    )
}
