//! The words of the grammar, by where they may stand.
ghost use Rattle.std.specs.Prelude.{◌≡◌};
ghost use Rattle.script_lines.specs.TemplateFields as fields;

use script_lines::{
    JOB_FIELD_WORDS, JobFieldWord, LINE_WORDS, LineWord, RESERVATION_FIELD_WORDS,
    ReservationFieldWord, spell_line_word,
};

/// The words of the lines that stand outside of blocks, or begin one.
const HEADS: &[&str] = &["queue", "template", "rtemplate", "setup", "client"];

/// The words of the lines of a job's template, as a slice.
const JOB_FIELDS: &[JobFieldWord] = &JOB_FIELD_WORDS;

/// The words of the lines of a reservation's template, as a slice.
const RESERVATION_FIELDS: &[ReservationFieldWord] = &RESERVATION_FIELD_WORDS;

/// The words of the lines of blocks, as a slice.
const LINES: &[LineWord] = &LINE_WORDS;

/// Which words may stand at a place, but for the one that ends a block.
#[derive(Clone, Copy)]
pub(crate) enum Among {
    /// Outside of blocks.
    Heads,
    /// In a job's template.
    JobFields,
    /// In a reservation's template.
    ReservationFields,
    /// In the setup block, or in a client's.
    Lines,
}

/// How the word of a line of a job's template is spelled.
pub(crate) fn spell_job_field(word: JobFieldWord) -> &'static str
    ensures { result.now ≡ fields.job_word word }
{
    match word {
        JobFieldWord::Command => "command",
        JobFieldWord::Arg => "arg",
        JobFieldWord::Hold => "hold",
        JobFieldWord::Rerunnable => "rerunnable",
        JobFieldWord::Env => "env",
        JobFieldWord::Directory => "directory",
        JobFieldWord::Name => "name",
        JobFieldWord::Input => "input",
        JobFieldWord::Output => "output",
        JobFieldWord::Error => "error",
        JobFieldWord::Join => "join",
        JobFieldWord::Queue => "queue",
        JobFieldWord::MinSlots => "minslots",
        JobFieldWord::MaxSlots => "maxslots",
        JobFieldWord::Priority => "priority",
        JobFieldWord::Start => "start",
        JobFieldWord::Deadline => "deadline",
        JobFieldWord::Limit => "limit",
        JobFieldWord::Other => "other",
    }
}

/// How the word of a line of a reservation's template is spelled.
pub(crate) fn spell_reservation_field(word: ReservationFieldWord) -> &'static str
    ensures { result.now ≡ fields.reservation_word word }
{
    match word {
        ReservationFieldWord::Name => "name",
        ReservationFieldWord::Start => "start",
        ReservationFieldWord::End => "end",
        ReservationFieldWord::Duration => "duration",
        ReservationFieldWord::MinSlots => "minslots",
        ReservationFieldWord::MaxSlots => "maxslots",
        ReservationFieldWord::Other => "other",
    }
}

/// How many words may stand there.
pub(crate) fn count_of(among: Among) -> usize {
    match among {
        Among::Heads => HEADS.len(),
        Among::JobFields => JOB_FIELDS.len(),
        Among::ReservationFields => RESERVATION_FIELDS.len(),
        Among::Lines => LINES.len(),
    }
}

/// The word at a place of the table of those in a job's template.
fn job_field_at(place: usize) -> Option<&'static str> {
    match JOB_FIELDS.get(place) {
        Some(word) => Some(spell_job_field(*word)),
        None => None,
    }
}

/// The word at a place of the table of those in a reservation's template.
fn reservation_field_at(place: usize) -> Option<&'static str> {
    match RESERVATION_FIELDS.get(place) {
        Some(word) => Some(spell_reservation_field(*word)),
        None => None,
    }
}

/// The word at a place of the table of those in the setup block, or in a client's.
fn line_at(place: usize) -> Option<&'static str> {
    match LINES.get(place) {
        Some(word) => Some(spell_line_word(*word)),
        None => None,
    }
}

/// The word at a place of the table of those that may stand there.
pub(crate) fn word_at(among: Among, place: usize) -> Option<&'static str> {
    match among {
        Among::Heads => HEADS.get(place).copied(),
        Among::JobFields => job_field_at(place),
        Among::ReservationFields => reservation_field_at(place),
        Among::Lines => line_at(place),
    }
}

/// The place of a word in the table of those that may stand there.
fn place_of(among: Among, word: &str) -> Option<usize> {
    for place in 0..count_of(among) {
        match word_at(among, place) {
            Some(known) if known == word => return Some(place),
            _ => {}
        }
    }
    None
}

/// Whether a word begins a line outside of blocks.
pub(crate) fn is_head(word: &str) -> bool {
    place_of(Among::Heads, word).is_some()
}

/// The word of a line of a job's template that is spelled so.
pub(crate) fn job_field_of(word: &str) -> Option<JobFieldWord> {
    JOB_FIELDS.get(place_of(Among::JobFields, word)?).copied()
}

/// The word of a line of a reservation's template that is spelled so.
pub(crate) fn reservation_field_of(word: &str) -> Option<ReservationFieldWord> {
    RESERVATION_FIELDS
        .get(place_of(Among::ReservationFields, word)?)
        .copied()
}

/// Whether a line of a template begins with this word.
pub(crate) fn is_field(word: &str) -> bool {
    place_of(Among::JobFields, word).is_some() || place_of(Among::ReservationFields, word).is_some()
}
