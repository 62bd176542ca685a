//! The lines of template blocks: what each says, its word, and how it is read.
ghost use Rattle.std.specs.Prelude.{◌≡◌, codes};
ghost use Rattle.text_codec.specs.Fields.{always, no_more};
ghost use Rattle.text_codec.specs.Formats.{Answers, Says, first_spelled};
ghost use Rattle.script_lines.specs.TemplateFields as fields;
ghost use Rattle.script_lines.specs.FieldGroups as groups;
ghost use Rattle.script_lines.specs.declared.fields.TheConstants.{JOB_FIELD_WORDS, RESERVATION_FIELD_WORDS};

use crate::field_groups::{
    CountFieldWord, GroupedField, MomentFieldWord, TextFieldWord, field_group_of,
};
use crate::reading::alone;
use crate::shapes::one_behind;
use drmaa_types::{Attribute, Pair, ResourceLimit, Text};
use std::alloc::Global;
use text_codec::{Cursor, Form, Unread};
use text_dates::Said;
use text_forms::read_other;

/// When a reservation is to start.
#[derive(Clone, Copy, Debug, PartialEq, Eq)]
pub enum Beginning {
    Now,
    At(Said),
}

/// A line of a job's template block.
#[derive(Drop)]
pub enum JobField {
    /// `command TEXT`: the program that is run.
    Command(Text),
    /// `arg TEXT`, any number of times.
    Arg(Text),
    /// `hold`.
    Hold,
    /// `rerunnable`.
    Rerunnable,
    /// `env TEXT TEXT`, any number of times.
    Env(Pair),
    /// `directory TEXT`.
    Directory(Text),
    /// `name TEXT`.
    Name(Text),
    /// `input TEXT`.
    Input(Text),
    /// `output TEXT`.
    Output(Text),
    /// `error TEXT`.
    Error(Text),
    /// `join`.
    Join,
    /// `queue TEXT`.
    Queue(Text),
    /// `minslots NUMBER`.
    MinSlots(u32),
    /// `maxslots NUMBER`.
    MaxSlots(u32),
    /// `priority INTEGER`.
    Priority(i32),
    /// `start MOMENT`.
    Start(Said),
    /// `deadline MOMENT`.
    Deadline(Said),
    /// `limit WORD NUMBER`, any number of times.
    Limit(ResourceLimit),
    /// `other ATTRIBUTE`, any number of times.
    Other(Attribute),
}

/// A line of a reservation's template block.
#[derive(Drop)]
pub enum ReservationField {
    /// `name TEXT`.
    Name(Text),
    /// `start MOMENT` or `start now`.
    Start(Beginning),
    /// `end MOMENT`.
    End(Said),
    /// `duration NUMBER`, in seconds.
    Duration(u64),
    /// `minslots NUMBER`.
    MinSlots(u32),
    /// `maxslots NUMBER`.
    MaxSlots(u32),
    /// `other ATTRIBUTE`, any number of times.
    Other(Attribute),
}

/// The words of the lines of a job's template.
#[derive(Clone, Copy, Debug, PartialEq, Eq)]
pub enum JobFieldWord {
    Command,
    Arg,
    Hold,
    Rerunnable,
    Env,
    Directory,
    Name,
    Input,
    Output,
    Error,
    Join,
    Queue,
    MinSlots,
    MaxSlots,
    Priority,
    Start,
    Deadline,
    Limit,
    Other,
}

/// All of them.
pub const JOB_FIELD_WORDS: [JobFieldWord; 19] = [
    JobFieldWord::Command,
    JobFieldWord::Arg,
    JobFieldWord::Hold,
    JobFieldWord::Rerunnable,
    JobFieldWord::Env,
    JobFieldWord::Directory,
    JobFieldWord::Name,
    JobFieldWord::Input,
    JobFieldWord::Output,
    JobFieldWord::Error,
    JobFieldWord::Join,
    JobFieldWord::Queue,
    JobFieldWord::MinSlots,
    JobFieldWord::MaxSlots,
    JobFieldWord::Priority,
    JobFieldWord::Start,
    JobFieldWord::Deadline,
    JobFieldWord::Limit,
    JobFieldWord::Other,
];

/// How the word is spelled.
fn spell_job_word(word: JobFieldWord) -> &'static str
    ensures { result.now ≡ fields.job_word word }
{
    match word {
        JobFieldWord::Command => "command",
        JobFieldWord::Arg => "arg",
        JobFieldWord::Hold => "hold",
        JobFieldWord::Rerunnable => "rerunnable",
        JobFieldWord::Env => "env",
        JobFieldWord::Directory => "directory",
        JobFieldWord::Name => "name",
        JobFieldWord::Input => "input",
        JobFieldWord::Output => "output",
        JobFieldWord::Error => "error",
        JobFieldWord::Join => "join",
        JobFieldWord::Queue => "queue",
        JobFieldWord::MinSlots => "minslots",
        JobFieldWord::MaxSlots => "maxslots",
        JobFieldWord::Priority => "priority",
        JobFieldWord::Start => "start",
        JobFieldWord::Deadline => "deadline",
        JobFieldWord::Limit => "limit",
        JobFieldWord::Other => "other",
    }
}

/// The word that is spelled so.
fn job_word_of(word: &[u8]) -> Option<JobFieldWord>
    ensures { result ≡ first_spelled fields.job_word JOB_FIELD_WORDS word.now }
{
    JOB_FIELD_WORDS
        .iter()
        .copied()
        .find(|field| spell_job_word(*field).as_bytes() == word)
}

/// The words of the lines of a reservation's template.
#[derive(Clone, Copy, Debug, PartialEq, Eq)]
pub enum ReservationFieldWord {
    Name,
    Start,
    End,
    Duration,
    MinSlots,
    MaxSlots,
    Other,
}

/// All of them.
pub const RESERVATION_FIELD_WORDS: [ReservationFieldWord; 7] = [
    ReservationFieldWord::Name,
    ReservationFieldWord::Start,
    ReservationFieldWord::End,
    ReservationFieldWord::Duration,
    ReservationFieldWord::MinSlots,
    ReservationFieldWord::MaxSlots,
    ReservationFieldWord::Other,
];

/// How the word is spelled.
fn spell_reservation_word(word: ReservationFieldWord) -> &'static str
    ensures { result.now ≡ fields.reservation_word word }
{
    match word {
        ReservationFieldWord::Name => "name",
        ReservationFieldWord::Start => "start",
        ReservationFieldWord::End => "end",
        ReservationFieldWord::Duration => "duration",
        ReservationFieldWord::MinSlots => "minslots",
        ReservationFieldWord::MaxSlots => "maxslots",
        ReservationFieldWord::Other => "other",
    }
}

/// The word that is spelled so.
fn reservation_word_of(word: &[u8]) -> Option<ReservationFieldWord>
    ensures { result ≡ first_spelled fields.reservation_word RESERVATION_FIELD_WORDS word.now }
{
    RESERVATION_FIELD_WORDS
        .iter()
        .copied()
        .find(|field| spell_reservation_word(*field).as_bytes() == word)
}

/// Reads a part of a template behind a space, and no more.
#[tactic(auto, unfolding(text_codec::specs::Fields::always, text_codec::specs::Fields::no_more))]
fn part_behind<A: Form>(cursor: &mut Cursor) -> Result<(A, ()), Unread>
    ensures { Answers (always (codes " ") A.form no_more).body.read cursor.old result cursor.new }
{
    cursor.expect(b" ")?;
    let value = A::read(cursor)?;
    Ok((value, ()))
}

#[tactic(auto, unfolding(crate::specs::TemplateFields::other_fields, text_codec::specs::Fields::always, text_codec::specs::Fields::no_more))]
fn other_behind(cursor: &mut Cursor) -> Result<(Attribute, ()), Unread>
    ensures { Answers fields.other_fields.body.read cursor.old result cursor.new }
{
    cursor.expect(b" ")?;
    let value = read_other(cursor)?;
    Ok((value, ()))
}

/// Reads when a reservation is to start.
#[tactic(auto, unfolding(crate::specs::TemplateFields::beginning, text_codec::specs::Formats::mapped, text_codec::specs::Formats::or_else))]
fn beginning_at(cursor: &mut Cursor) -> Result<Beginning, Unread>
    ensures { Answers fields.beginning.read cursor.old result cursor.new }
{
    if cursor.skip(b"now") {
        return Ok(Beginning::Now);
    }
    let moment = Said::read(cursor)?;
    Ok(Beginning::At(moment))
}

#[tactic(auto, unfolding(crate::specs::TemplateFields::beginning_fields, text_codec::specs::Fields::always, text_codec::specs::Fields::no_more))]
fn beginning_behind(cursor: &mut Cursor) -> Result<(Beginning, ()), Unread>
    ensures { Answers fields.beginning_fields.body.read cursor.old result cursor.new }
{
    cursor.expect(b" ")?;
    let value = beginning_at(cursor)?;
    Ok((value, ()))
}

/// Reads a text.
#[tactic(auto, unfolding(crate::specs::Shapes::text_fields))]
fn text_field(word: TextFieldWord, cursor: &mut Cursor) -> Result<JobField, Unread>
    ensures { Answers (fields.job_arms (groups.text_word word)) cursor.old result cursor.new }
{
    let (text, ()) = one_behind(cursor)?;
    Ok(match word {
        TextFieldWord::Command => JobField::Command(text),
        TextFieldWord::Arg => JobField::Arg(text),
        TextFieldWord::Directory => JobField::Directory(text),
        TextFieldWord::Name => JobField::Name(text),
        TextFieldWord::Input => JobField::Input(text),
        TextFieldWord::Output => JobField::Output(text),
        TextFieldWord::Error => JobField::Error(text),
        TextFieldWord::Queue => JobField::Queue(text),
    })
}

/// Reads a number of slots.
#[tactic(auto, unfolding(crate::specs::TemplateFields::count_fields))]
fn count_field(word: CountFieldWord, cursor: &mut Cursor) -> Result<JobField, Unread>
    ensures { Answers (fields.job_arms (groups.count_word word)) cursor.old result cursor.new }
{
    let (slots, ()) = part_behind(cursor)?;
    Ok(match word {
        CountFieldWord::MinSlots => JobField::MinSlots(slots),
        CountFieldWord::MaxSlots => JobField::MaxSlots(slots),
    })
}

/// Reads a moment.
#[tactic(auto, unfolding(crate::specs::Shapes::said_fields))]
fn moment_field(word: MomentFieldWord, cursor: &mut Cursor) -> Result<JobField, Unread>
    ensures { Answers (fields.job_arms (groups.moment_word word)) cursor.old result cursor.new }
{
    let (moment, ()) = one_behind(cursor)?;
    Ok(match word {
        MomentFieldWord::Start => JobField::Start(moment),
        MomentFieldWord::Deadline => JobField::Deadline(moment),
    })
}

/// What stands behind the word of a line.
#[tactic(auto, unfolding(crate::specs::TemplateFields::variable_fields, crate::specs::TemplateFields::integer_fields, crate::specs::TemplateFields::limit_fields))]
fn behind_job_word(word: JobFieldWord, cursor: &mut Cursor) -> Result<JobField, Unread>
    ensures { Answers (fields.job_arms word) cursor.old result cursor.new }
{
    match field_group_of(word) {
        GroupedField::Text(word) => text_field(word, cursor),
        GroupedField::Hold => Ok(JobField::Hold),
        GroupedField::Rerunnable => Ok(JobField::Rerunnable),
        GroupedField::Env => {
            let (variable, ()) = part_behind(cursor)?;
            Ok(JobField::Env(variable))
        }
        GroupedField::Join => Ok(JobField::Join),
        GroupedField::Count(word) => count_field(word, cursor),
        GroupedField::Priority => {
            let (priority, ()) = part_behind(cursor)?;
            Ok(JobField::Priority(priority))
        }
        GroupedField::Moment(word) => moment_field(word, cursor),
        GroupedField::Limit => {
            let (limit, ()) = part_behind(cursor)?;
            Ok(JobField::Limit(limit))
        }
        GroupedField::Other => {
            let (attribute, ()) = other_behind(cursor)?;
            Ok(JobField::Other(attribute))
        }
    }
}

#[tactic(auto, unfolding(crate::specs::TemplateFields::job_field_sum, text_codec::specs::Sums::sum_of))]
fn job_field_at(cursor: &mut Cursor) -> Result<JobField, Unread>
    ensures { Answers fields.job_field_sum.body.read cursor.old result cursor.new }
{
    match job_word_of(cursor.word()) {
        Some(word) => behind_job_word(word, cursor),
        None => Err(Unread::Unspelled),
    }
}

/// What a line of a job's template block says.
///
/// # Errors
/// `Unspelled` exactly where it is none.
#[tactic(auto, unfolding(crate::specs::TemplateFields::read_job_field))]
pub fn read_job_field(alloc: Global, line: &[u8]) -> Result<JobField, Unread>
    ensures { Says (fields.read_job_field line.now) result }
{
    let mut cursor = Cursor::new(alloc, line);
    let said = job_field_at(&mut cursor)?;
    alone(&cursor, said)
}

/// What stands behind the word of a line.
#[tactic(auto, unfolding(crate::specs::Shapes::text_fields, crate::specs::Shapes::said_fields, crate::specs::TemplateFields::duration_fields, crate::specs::TemplateFields::count_fields))]
fn behind_reservation_word(
    word: ReservationFieldWord,
    cursor: &mut Cursor,
) -> Result<ReservationField, Unread>
    ensures { Answers (fields.reservation_arms word) cursor.old result cursor.new }
{
    match word {
        ReservationFieldWord::Name => {
            let (text, ()) = one_behind(cursor)?;
            Ok(ReservationField::Name(text))
        }
        ReservationFieldWord::Start => {
            let (beginning, ()) = beginning_behind(cursor)?;
            Ok(ReservationField::Start(beginning))
        }
        ReservationFieldWord::End => {
            let (moment, ()) = one_behind(cursor)?;
            Ok(ReservationField::End(moment))
        }
        ReservationFieldWord::Duration => {
            let (seconds, ()) = part_behind(cursor)?;
            Ok(ReservationField::Duration(seconds))
        }
        ReservationFieldWord::MinSlots => {
            let (slots, ()) = part_behind(cursor)?;
            Ok(ReservationField::MinSlots(slots))
        }
        ReservationFieldWord::MaxSlots => {
            let (slots, ()) = part_behind(cursor)?;
            Ok(ReservationField::MaxSlots(slots))
        }
        ReservationFieldWord::Other => {
            let (attribute, ()) = other_behind(cursor)?;
            Ok(ReservationField::Other(attribute))
        }
    }
}

#[tactic(auto, unfolding(crate::specs::TemplateFields::reservation_field_sum, text_codec::specs::Sums::sum_of))]
fn reservation_field_at(cursor: &mut Cursor) -> Result<ReservationField, Unread>
    ensures { Answers fields.reservation_field_sum.body.read cursor.old result cursor.new }
{
    match reservation_word_of(cursor.word()) {
        Some(word) => behind_reservation_word(word, cursor),
        None => Err(Unread::Unspelled),
    }
}

/// What a line of a reservation's template block says.
///
/// # Errors
/// `Unspelled` exactly where it is none.
#[tactic(auto, unfolding(crate::specs::TemplateFields::read_reservation_field))]
pub fn read_reservation_field(alloc: Global, line: &[u8]) -> Result<ReservationField, Unread>
    ensures { Says (fields.read_reservation_field line.now) result }
{
    let mut cursor = Cursor::new(alloc, line);
    let said = reservation_field_at(&mut cursor)?;
    alone(&cursor, said)
}
