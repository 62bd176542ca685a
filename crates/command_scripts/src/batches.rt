//! Commands that one script is to run.
ghost use Rattle.std.specs.Prelude.{◌≡◌, IfOk, codes};
ghost use Rattle.script_text.specs.Header as header;

use drmaa_types::{Text, TextList};
use std::alloc::{AllocError, Global};

/// The machine of a script; its jobs can be suspended.
#[derive(Drop)]
pub struct Machine {
    /// How many slots it has.
    pub slots: u32,
    pub name: Text,
}

impl Machine {
    /// The machine with so many slots that is given no name: it is called `local`. `Err` says that memory ran out.
    pub fn local(alloc: Global, slots: u32) -> Result<Machine, AllocError>
        ensures slots { IfOk result (λ machine. machine.slots ≡ slots) }
        ensures name { IfOk result (λ machine. machine.name ≡ codes "local") }
    {
        let name = Text::from_string(String::from_str(alloc, "local")?);
        Ok(Machine { slots, name })
    }

    /// Whether a script may have such a machine: from 1 to 65,535 slots, and a name of 1 to 255 bytes.
    pub fn is_valid(&self) -> bool
        ensures { result ≡ header.is_machine self.now.slots self.now.name }
    {
        let length = self.name.as_str().len();
        1 <= self.slots && self.slots <= 65_535 && 1 <= length && length <= 255
    }
}

/// Commands for a machine. They have the numbers from 1 on, in order.
#[derive(Drop)]
pub struct Batch {
    pub machine: Machine,
    pub commands: TextList,
}
