//! Texts that are read line by line, for every grammar: the text, or the first line after which none can go on.
#![tactic(auto)]

mod laws;
mod reading;
mod skipping;
mod splitting;

pub use laws::{
    lines_are_read_again, one_first_bad_line, one_text, printed_is_the_text, printed_is_utf8,
};
pub use reading::{LineReader, TextFault, read_lines, read_text};
pub use skipping::Skipping;
