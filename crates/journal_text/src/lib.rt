//! The text of a journal: the machine, a line for each entry of its history, and their count.
#![tactic(auto)]

mod entries;
mod journals;
mod laws;
mod queues;
mod reading;
mod sharing;
mod titles;

pub use journal_forms::{
    REPLY_WORDS, ReplyWord, push_call, push_reply, read_call, read_reply, reply_word_of,
    spell_reply_word,
};
pub use journals::{Journal, journal_bytes, print_journal};
pub use laws::{
    a_journal_is_utf8, a_writable_journal_has_recorded_calls, one_bad_line, one_journal,
};
pub use reading::{BYTE_LIMIT, JournalReader, read_journal};
pub use titles::SUSPENDS;
