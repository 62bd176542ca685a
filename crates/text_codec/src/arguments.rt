//! The words of the arguments and limits that a refusal names.
ghost use Rattle.std.specs.Prelude.{◌≡◌, ◌++◌, Some, true, IfSome, IfErr, OnOk};
ghost use Rattle.drmaa_types.specs.declared.refusals.Limit.{Limit};
ghost use Rattle.drmaa_types.specs.declared.refusals.Which.{Which};
ghost use Rattle.text_codec.specs.Formats.{Answers, first_spelled};
ghost use Rattle.text_codec.specs.declared.unread.Unread.{Unread};
ghost use Rattle.text_codec.specs.ValueWords as words;
ghost use Rattle.text_codec.specs.ValueWordLaws as laws;

use crate::{Cursor, Form, Print, Unread};
use drmaa_types::{Limit, Which};
use std::alloc::AllocError;

/// The arguments that a call could not accept.
pub const ARGUMENTS: [Which; 24] = [
    Which::SessionName,
    Which::Job,
    Which::Array,
    Which::Reservation,
    Which::Jobs,
    Which::Indices,
    Which::MaxParallel,
    Which::RemoteCommand,
    Which::Args,
    Which::JobEnvironment,
    Which::WorkingDirectory,
    Which::JobName,
    Which::InputPath,
    Which::OutputPath,
    Which::ErrorPath,
    Which::MinSlots,
    Which::MaxSlots,
    Which::DeadlineTime,
    Which::ResourceLimits,
    Which::ReservationName,
    Which::QueueName,
    Which::StartTime,
    Which::EndTime,
    Which::Duration,
];

/// How an argument is spelled.
pub fn spell_which(which: Which) -> &'static str
    ensures { result.now ≡ words.which_text which }
{
    match which {
        Which::SessionName => "sessionName",
        Which::Job => "job",
        Which::Array => "array",
        Which::Reservation => "reservation",
        Which::Jobs => "jobs",
        Which::Indices => "indices",
        Which::MaxParallel => "maxParallel",
        Which::RemoteCommand => "remoteCommand",
        Which::Args => "args",
        Which::JobEnvironment => "jobEnvironment",
        Which::WorkingDirectory => "workingDirectory",
        Which::JobName => "jobName",
        Which::InputPath => "inputPath",
        Which::OutputPath => "outputPath",
        Which::ErrorPath => "errorPath",
        Which::MinSlots => "minSlots",
        Which::MaxSlots => "maxSlots",
        Which::DeadlineTime => "deadlineTime",
        Which::ResourceLimits => "resourceLimits",
        Which::ReservationName => "reservationName",
        Which::QueueName => "queueName",
        Which::StartTime => "startTime",
        Which::EndTime => "endTime",
        Which::Duration => "duration",
    }
}

/// The first argument of the table that is spelled so.
fn first_which(word: &[u8]) -> Option<Which>
    ensures { result ≡ first_spelled words.which_text ARGUMENTS word.now }
{
    ARGUMENTS
        .iter()
        .copied()
        .find(|which| spell_which(*which).as_bytes() == word)
}

/// The argument that is spelled so. Each argument has a word, and no two share one.
pub fn which_of(word: &[u8]) -> Option<Which>
    ensures first { result ≡ first_spelled words.which_text ARGUMENTS word.now }
    ensures only { (which : Which) → word.now ≡ words.which_text which → result ≡ Some which }
{
    first_which(word)
}

impl Form for Which {
    ghost form = { words.which_form };

    ghost laws = { laws.which_laws };

    #[tactic(auto, unfolding(crate::specs::ValueWords::which_form))]
    fn read(cursor: &mut Cursor) -> Result<Which, Unread>
        ensures reads { Answers words.which_form.read cursor.old result cursor.new }
        ensures memory { IfErr result (λ e. e ≡ Unread.Unspelled) }
    {
        match which_of(cursor.word()) {
            Some(which) => Ok(which),
            None => Err(Unread::Unspelled),
        }
    }
}

impl Print for Which {
    ghost form = { words.which_form };

    #[tactic(auto, unfolding(crate::specs::ValueWords::which_form), using(crate::specs::ValueWordLaws::which_stands))]
    fn push(&self, out: &mut Vec<u8>) -> Result<(), AllocError> {
        out.extend_from_slice(spell_which(*self).as_bytes())
    }
}

/// The limits that are spelled.
pub const LIMITS: [Limit; 9] = [
    Limit::Sessions,
    Limit::OpenSessions,
    Limit::Jobs,
    Limit::Reservations,
    Limit::Callbacks,
    Limit::WaitList,
    Limit::BulkMembers,
    Limit::TemplateText,
    Limit::KeptText,
];

/// How a limit is spelled.
pub fn spell_limit(limit: Limit) -> &'static str
    ensures { result.now ≡ words.limit_text limit }
{
    match limit {
        Limit::Sessions => "sessions",
        Limit::OpenSessions => "openSessions",
        Limit::Jobs => "jobs",
        Limit::Reservations => "reservations",
        Limit::Callbacks => "callbacks",
        Limit::WaitList => "waitList",
        Limit::BulkMembers => "bulkMembers",
        Limit::TemplateText => "templateText",
        Limit::KeptText => "keptText",
        Limit::Journal { size: _ } => "journal",
    }
}

/// The first limit of the table that is spelled so.
fn first_limit(word: &[u8]) -> Option<Limit>
    ensures { result ≡ first_spelled words.limit_text LIMITS word.now }
{
    LIMITS
        .iter()
        .copied()
        .find(|limit| spell_limit(*limit).as_bytes() == word)
}

/// The limit that is spelled so. The journal's own limit is never one.
pub fn limit_of(word: &[u8]) -> Option<Limit>
    ensures first { result ≡ first_spelled words.limit_text LIMITS word.now }
    ensures told { IfSome result (λ limit. words.is_told limit ≡ true) }
    ensures only { (limit : Limit) → words.is_told limit ≡ true → word.now ≡ words.limit_text limit → result ≡ Some limit }
{
    first_limit(word)
}

impl Form for Limit {
    ghost form = { words.limit_form };

    ghost laws = { laws.limit_laws };

    #[tactic(auto, unfolding(crate::specs::ValueWords::limit_form))]
    fn read(cursor: &mut Cursor) -> Result<Limit, Unread>
        ensures reads { Answers words.limit_form.read cursor.old result cursor.new }
        ensures memory { IfErr result (λ e. e ≡ Unread.Unspelled) }
    {
        match limit_of(cursor.word()) {
            Some(limit) => Ok(limit),
            None => Err(Unread::Unspelled),
        }
    }
}
