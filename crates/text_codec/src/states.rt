//! The words of states, of kinds of signal and of notes.
ghost use Rattle.std.specs.Prelude.{◌≡◌, ◌≢◌, ◌++◌, Some, IfErr, OnOk};
ghost use Rattle.drmaa_types.specs.declared.states.JobState.{JobState};
ghost use Rattle.drmaa_types.specs.declared.states.SignalKind.{SignalKind};
ghost use Rattle.drmaa_types.specs.declared.states.Note.{Note};
ghost use Rattle.text_codec.specs.declared.unread.Unread.{Unread};
ghost use Rattle.text_codec.specs.Formats.{Answers, first_spelled, valid_or};
ghost use Rattle.text_codec.specs.Fields.{spell_set};
ghost use Rattle.drmaa_types.specs.Said.{state_name};
ghost use Rattle.text_codec.specs.ValueWords as words;
ghost use Rattle.text_codec.specs.ValueWordLaws as laws;

use crate::{Cursor, Form, Print, Unread};
use drmaa_types::{JobState, Note, SignalKind};
use std::alloc::AllocError;

/// The states of jobs.
pub const STATES: [JobState; 9] = [
    JobState::Undetermined,
    JobState::Queued,
    JobState::QueuedHeld,
    JobState::Running,
    JobState::Suspended,
    JobState::Requeued,
    JobState::RequeuedHeld,
    JobState::Done,
    JobState::Failed,
];

/// The first state of the table that is spelled so.
fn first_state(word: &[u8]) -> Option<JobState>
    ensures { result ≡ first_spelled state_name STATES word.now }
{
    STATES
        .iter()
        .copied()
        .find(|state| state.name().as_bytes() == word)
}

/// The state that is spelled so. Each state has a word, and no two share one.
pub fn state_of(word: &[u8]) -> Option<JobState>
    ensures first { result ≡ first_spelled state_name STATES word.now }
    ensures only { (state : JobState) → word.now ≡ state_name state → result ≡ Some state }
{
    first_state(word)
}

impl Form for JobState {
    ghost form = { words.state_form };

    ghost laws = { laws.state_laws };

    #[tactic(auto, unfolding(crate::specs::ValueWords::state_form))]
    fn read(cursor: &mut Cursor) -> Result<JobState, Unread>
        ensures reads { Answers words.state_form.read cursor.old result cursor.new }
        ensures memory { IfErr result (λ e. e ≡ Unread.Unspelled) }
    {
        match state_of(cursor.word()) {
            Some(state) => Ok(state),
            None => Err(Unread::Unspelled),
        }
    }
}

impl Print for JobState {
    ghost form = { words.state_form };

    #[tactic(auto, unfolding(crate::specs::ValueWords::state_form), using(crate::specs::ValueWordLaws::state_stands))]
    fn push(&self, out: &mut Vec<u8>) -> Result<(), AllocError> {
        out.extend_from_slice(self.name().as_bytes())
    }
}

/// The kinds of signal.
pub const KINDS: [SignalKind; 3] = [SignalKind::Stop, SignalKind::Cont, SignalKind::Kill];

/// How a kind of signal is spelled.
pub fn spell_kind(kind: SignalKind) -> &'static str
    ensures { result.now ≡ words.kind_text kind }
{
    match kind {
        SignalKind::Stop => "stop",
        SignalKind::Cont => "cont",
        SignalKind::Kill => "kill",
    }
}

/// The first kind of signal of the table that is spelled so.
fn first_kind(word: &[u8]) -> Option<SignalKind>
    ensures { result ≡ first_spelled words.kind_text KINDS word.now }
{
    KINDS
        .iter()
        .copied()
        .find(|kind| spell_kind(*kind).as_bytes() == word)
}

/// The kind of signal that is spelled so. Each kind has a word, and no two share one.
pub fn kind_of(word: &[u8]) -> Option<SignalKind>
    ensures first { result ≡ first_spelled words.kind_text KINDS word.now }
    ensures only { (kind : SignalKind) → word.now ≡ words.kind_text kind → result ≡ Some kind }
{
    first_kind(word)
}

impl Form for SignalKind {
    ghost form = { words.kind_form };

    ghost laws = { laws.kind_laws };

    #[tactic(auto, unfolding(crate::specs::ValueWords::kind_form))]
    fn read(cursor: &mut Cursor) -> Result<SignalKind, Unread>
        ensures reads { Answers words.kind_form.read cursor.old result cursor.new }
        ensures memory { IfErr result (λ e. e ≡ Unread.Unspelled) }
    {
        match kind_of(cursor.word()) {
            Some(kind) => Ok(kind),
            None => Err(Unread::Unspelled),
        }
    }
}

impl Print for SignalKind {
    ghost form = { words.kind_form };

    #[tactic(auto, unfolding(crate::specs::ValueWords::kind_form), using(crate::specs::ValueWordLaws::kind_stands))]
    fn push(&self, out: &mut Vec<u8>) -> Result<(), AllocError> {
        out.extend_from_slice(spell_kind(*self).as_bytes())
    }
}

/// The notes that are spelled.
pub const NOTES: [Note; 7] = [
    Note::Terminated,
    Note::PastDeadline,
    Note::PastLimit,
    Note::ReservationGone,
    Note::StartFailed,
    Note::ExitUnknown,
    Note::SignalFailed,
];

/// How a note is spelled.
pub fn spell_note(note: Note) -> &'static str
    ensures { result.now ≡ words.note_text note }
{
    match note {
        Note::None => "",
        Note::Terminated => "terminated",
        Note::PastDeadline => "pastDeadline",
        Note::PastLimit => "pastLimit",
        Note::ReservationGone => "reservationGone",
        Note::StartFailed => "startFailed",
        Note::ExitUnknown => "exitUnknown",
        Note::SignalFailed => "signalFailed",
    }
}

/// The first note of the table that is spelled so.
fn first_note(word: &[u8]) -> Option<Note>
    ensures { result ≡ first_spelled words.note_text NOTES word.now }
{
    NOTES
        .iter()
        .copied()
        .find(|note| spell_note(*note).as_bytes() == word)
}

/// The note that is spelled so. Each note but `None` has a word, and no two share one.
pub fn note_of(word: &[u8]) -> Option<Note>
    ensures first { result ≡ first_spelled words.note_text NOTES word.now }
    ensures only { (note : Note) → note ≢ Note.None → word.now ≡ words.note_text note → result ≡ Some note }
{
    first_note(word)
}

impl Form for Note {
    ghost form = { words.note_form };

    ghost laws = { laws.note_laws };

    #[tactic(auto, unfolding(crate::specs::ValueWords::note_form))]
    fn read(cursor: &mut Cursor) -> Result<Note, Unread>
        ensures reads { Answers words.note_form.read cursor.old result cursor.new }
        ensures memory { IfErr result (λ e. e ≡ Unread.Unspelled) }
    {
        match note_of(cursor.word()) {
            Some(note) => Ok(note),
            None => Err(Unread::Unspelled),
        }
    }
}

/// Prints a note behind a key, where there is one.
#[tactic(auto, unfolding(crate::specs::ValueWords::note_form))]
pub fn push_note(out: &mut Vec<u8>, key: &[u8], note: Note) -> Result<(), AllocError>
    ensures text { OnOk result (out.new.items ≡ out.old.items ++ spell_set key.now words.note_form.spell (words.note_part note)) }
    ensures valid { OnOk result (valid_or words.note_form.valid (words.note_part note)) }
{
    if let Note::None = note {
        return Ok(());
    }
    out.extend_from_slice(key)?;
    out.extend_from_slice(spell_note(note).as_bytes())
}
