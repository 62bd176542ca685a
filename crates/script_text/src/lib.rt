//! Scripts: what one says, how it is spelled, and its reader.
#![tactic(auto)]

mod bindings;
mod blocks;
mod follow;
mod header;
mod keyed;
mod packed;
mod reading;
mod scripts;
mod states;

pub use blocks::{Block, Kind, binding};
pub use follow::is_register;
pub use keyed::Keyed;
pub use reading::{one_script, read_first, read_script};
pub use scripts::{BlockList, Mode, NamedReservationTemplates, NamedTemplates, Script};
pub use states::Reader;
pub use text_lines::TextFault;
