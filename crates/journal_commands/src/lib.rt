//! The commands on journals: a journal of either version is read from a source, and what a command makes of it is written to a
//! sink. It is checked, written as version 2 or in its JSON form, gone on with by reservations that recur, or its starts are forecast.
#![tactic(auto)]

mod checks;
mod forecasts;
mod inputs;
mod json_forms;
mod legal;
mod migrates;
mod recurrences;
mod running;
mod status;

pub use checks::Check;
pub use forecasts::Forecast;
pub use inputs::{read_journal, read_status};
pub use json_forms::Json;
pub use legal::{LegalCommand, OfLegal, replayed_journal};
pub use migrates::{Migrate, migrating_keeps_the_journal};
pub use recurrences::{Recur, has_occurrences};
pub use running::{JournalCommand, Made, Output, run_journal, write_made, write_output};
pub use status::{Status, ended_as, status_of};
