//! The forms over words and numbers that scripts and journals share: templates, filters and refusals.
#![tactic(auto)]

mod filters;
mod frames;
mod job_templates;
mod refusals;
mod template_printing;

pub use filters::{push_filter, read_filter};
pub use frames::read_frame;
pub use job_templates::{is_other, read_other, read_template};
pub use refusals::{
    REFUSAL_WORDS, RefusalWord, push_refusal, read_refusal, refusal_word_of, spell_refusal_word,
};
pub use template_printing::{push_frame, push_template};
