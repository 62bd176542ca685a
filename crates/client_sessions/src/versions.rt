//! What a session manager tells of itself: names, versions, and which optional parts there are.
ghost use Rattle.std.specs.Prelude.{◌≡◌, codes};
ghost use Rattle.drmaa_types.specs.Capabilities as profile;

use crate::managers::SessionManager;
use drmaa_types::{Capability, supports};

/// A version (GFD.231, Version).
#[derive(Clone, Copy, Debug, PartialEq, Eq, PartialOrd, Ord)]
pub struct Version {
    pub major: u32,
    pub minor: u32,
}

impl SessionManager {
    /// The name of the scheduler (GFD.231, SessionManager::drmsName). It takes no memory.
    pub fn drms_name(self) -> &'static str
        ensures { result.now ≡ codes "drmaa" }
    {
        "drmaa"
    }

    /// The scheduler's version (GFD.231, SessionManager::drmsVersion): its major number is the version of the journal that it
    /// writes. It takes no memory.
    pub fn drms_version(self) -> Version
        ensures { result ≡ record { major = 2; minor = 0 } }
    {
        Version { major: 2, minor: 0 }
    }

    /// The name of this profile of the standard (GFD.231, SessionManager::drmaaName). It takes no memory.
    pub fn drmaa_name(self) -> &'static str
        ensures { result.now ≡ codes "DRMAA 2.2 of one machine" }
    {
        "DRMAA 2.2 of one machine"
    }

    /// The version of the standard that this is a profile of (GFD.231, SessionManager::drmaaVersion). It takes no memory.
    pub fn drmaa_version(self) -> Version
        ensures { result ≡ record { major = 2; minor = 2 } }
    {
        Version { major: 2, minor: 2 }
    }

    /// Whether this profile has the optional part (GFD.231, SessionManager::supports). It takes no memory.
    pub fn supports(self, capability: Capability) -> bool
        ensures { result ≡ profile.supports capability }
    {
        supports(capability)
    }
}
