//! What is said of scripts: of a line that no script has there, what is wrong with it and what may stand in its place; of a script
//! that is in the grammar, what may be amiss with its jobs.
#![tactic(auto)]

mod advice;
mod arguments;
mod finding;
mod gathering;
mod heads;
mod items;
mod layout;
mod nearest;
mod printing;
mod references;
mod showing;
mod states;
mod usages;
mod values;
mod warning_kinds;
mod words;

pub use advice::advice_for;
pub use finding::warnings;
pub use printing::lint;
pub use warning_kinds::{Place, Warning, WarningList};
