//! The face, and its active session.
ghost use Rattle.std.specs.Prelude.{◌≡◌, None};

use drmaa_types::SessionId;
use std::marker::Model;

/// What a user of DRMAA version 1 calls: one job session at a time is active. Contracts see which one.
#[derive(Drop)]
pub struct Face {
    pub(crate) active: Option<SessionId>,
}

impl Model for Face {
    ghost use Rattle.std.specs.Prelude.{Option};
    ghost use Rattle.drmaa_types.specs.declared.identifiers.SessionId.{SessionId};

    ghost Value = { Option SessionId };

    ghost view = { λ f. f.active };
}

impl Face {
    /// A face with no session. It takes no memory.
    pub fn new() -> Face
        ensures { result ≡ None }
    {
        Face { active: None }
    }
}
