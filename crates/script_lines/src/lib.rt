//! The lines of scripts: what each says, how it is spelled, and how it is read.
#![tactic(auto)]

mod apart;
mod draft;
mod field_groups;
mod fields;
mod filters;
mod job_lines;
mod lines;
mod names;
mod play_lines;
mod reading;
mod refs;
mod session_lines;
mod shapes;
mod word_groups;
mod words;

pub use apart::Apart;
pub use draft::{
    Draft, is_reservation_set, is_set, new_reservation, with_field, with_reservation_field,
};
pub use fields::{
    Beginning, JOB_FIELD_WORDS, JobField, JobFieldWord, RESERVATION_FIELD_WORDS, ReservationField,
    ReservationFieldWord, read_job_field, read_reservation_field,
};
pub use lines::{Filter, Line};
pub use names::Name;
pub use reading::read_line;
pub use refs::Ref;
pub use words::{LINE_WORDS, LineWord, line_word_of, spell_line_word};
