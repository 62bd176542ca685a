//! What may be amiss with a script that is in its grammar.
use drmaa_types::ListOf;
use script_lines::Name;

/// Where a line stands.
#[derive(Clone, Copy, Debug, PartialEq, Eq)]
pub enum Place {
    /// In the setup block.
    Setup,
    /// In the block of a client, by its number from 1.
    Client(u64),
}

/// What may be amiss with the jobs of a script.
#[derive(Drop)]
pub enum Warning {
    /// A job or an array with this name is started here, and no line that may name it waits for it or reaps it.
    Unwaited { place: Place, name: Name },
    /// A line here waits without end for jobs that all stay held; the first of them has this name.
    Endless { place: Place, name: Name },
}

/// Warnings, in the order of the script.
pub type WarningList = ListOf<Warning>;
