//! The calls and the replies of journals: how each is spelled, read and printed.
#![tactic(auto)]

mod call_printing;
mod calls;
mod control_calls;
mod fields;
mod job_calls;
mod replies;
mod reply_printing;
mod reply_words;
mod report_calls;
mod reservation_calls;
mod session_calls;
mod word_groups;

pub use call_printing::push_call;
pub use calls::read_call;
pub use replies::read_reply;
pub use reply_printing::push_reply;
pub use reply_words::{REPLY_WORDS, ReplyWord, reply_word_of, spell_reply_word};
