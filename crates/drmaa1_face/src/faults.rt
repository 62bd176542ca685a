//! Why a call of the face is not served.
use drmaa_types::Refusal;
use std::error::Error;
use std::fmt;

/// Why a call of the face is not served.
#[derive(Clone, Copy, Debug, PartialEq, Eq)]
pub enum FaceFault {
    /// No session is active; nothing was asked.
    NoActiveSession,
    /// A session is active already; nothing was asked.
    AlreadyActive,
    /// The machine refused what was asked, or made no entry of it.
    Refused(Refusal),
}

impl fmt::Display for FaceFault {
    ghost use Rattle.std.specs.Prelude.{Some};
    ghost use Rattle.drmaa1_face.specs.Said.{face_text};

    ghost output = { λ why. Some (face_text why) };

    fn fmt<W: fmt::Write>(&self, f: &mut fmt::Formatter<W>) -> fmt::Result {
        match self {
            FaceFault::NoActiveSession => write!(f, "no session is active"),
            FaceFault::AlreadyActive => write!(f, "a session is active already"),
            FaceFault::Refused(why) => write!(f, "{why}"),
        }
    }
}

impl Error for FaceFault {}
