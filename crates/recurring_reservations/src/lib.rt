//! Reservations that recur: the starts that they have, and the requests for all of them.
#![tactic(auto)]

mod asking;
mod dates;
mod laws;
mod recurrences;
mod requests;
mod starts;
mod templates;

pub use asking::request_all;
pub use laws::{
    a_full_journal_tells_its_size, a_refusal_has_no_occurrences,
    months_keep_the_day_or_take_the_last, occurrences_are_one_list, starts_rise,
};
pub use recurrences::{Every, RecurFault, Recurring, TemplateList};
pub use requests::Asker;
pub use templates::occurrences;
