//! One notion of a form on bytes, by which values are read and printed, and the words, numbers and infos that scripts and
//! journals share.
#![tactic(auto)]

mod arguments;
mod attributes;
mod call_words;
mod cursor;
mod escapes;
mod forms;
mod info_printing;
mod infos;
mod integers;
mod laws;
mod numbers;
mod printing;
mod queues;
mod quotes;
mod states;
mod template_parts;
mod unread;
mod values;
mod words;

pub use arguments::{ARGUMENTS, LIMITS, limit_of, spell_limit, spell_which, which_of};
pub use attributes::{ATTRIBUTES, attribute_of};
pub use call_words::{CALL_WORDS, CallWord, call_word_of, spell_call_word};
pub use cursor::{Cursor, behind_key, number_of, push_last};
pub use forms::{Form, read_all, read_list, read_set, read_whole};
pub use integers::integer_of;
pub use laws::{one_spelling, printed_is_one_line, printed_is_read, printed_line_is_read};
pub use printing::{
    Print, push_behind, push_braces, push_each, push_list, push_mark, push_number, push_set,
};
pub use quotes::quoted;
pub use states::{
    KINDS, NOTES, STATES, kind_of, note_of, push_note, spell_kind, spell_note, state_of,
};
pub use unread::Unread;
pub use words::{capitals_of, is_capitals, is_name, name_of, push_word, read_capitals, read_name};
