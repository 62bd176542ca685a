//! The text of a journal, and behind it a serial script of the same machine and queues: what a history is continued with.
#![tactic(auto)]

mod configs;
mod laws;
mod limits;
mod matching;
mod reading;
mod texts;

pub use laws::{one_pair, the_limit_behind_a_journal, the_lines_of_a_text};
pub use matching::MatchingReader;
pub use reading::{ContinuedReader, read_continued, read_first};
pub use texts::{Continued, SCRIPT_LIMIT, WHOLE_LIMIT};
