//! Lines of a play's moments, and of what its launcher and its reaper report.
ghost use Rattle.std.specs.Prelude.{◌≡◌};
ghost use Rattle.text_codec.specs.Formats.{Answers};
ghost use Rattle.script_lines.specs.Lines as lines;
ghost use Rattle.script_lines.specs.WordGroups as groups;
ghost use Rattle.script_lines.specs.declared.words.LineWord.TheVariants as line_word;

use crate::Line;
use crate::shapes::item;
use crate::word_groups::{EndedWord, SignalledWord};
use drmaa_types::SignalKind;
use text_codec::{Cursor, Form, Unread};

/// Reads a moment.
#[tactic(auto, unfolding(crate::specs::Shapes::said_fields, text_codec::specs::Fields::always, text_codec::specs::Fields::no_more))]
pub(crate) fn at_line(cursor: &mut Cursor) -> Result<Line, Unread>
    ensures { Answers (lines.line_arms line_word.At) cursor.old result cursor.new }
{
    let moment = item(cursor)?;
    Ok(Line::At { moment })
}

/// Reads a job, and a code or a signal.
#[tactic(auto, unfolding(crate::specs::Shapes::exit_fields, text_codec::specs::Fields::always, text_codec::specs::Fields::no_more))]
pub(crate) fn ended_line(word: EndedWord, cursor: &mut Cursor) -> Result<Line, Unread>
    ensures { Answers (lines.line_arms (groups.ended_word word)) cursor.old result cursor.new }
{
    let job = item(cursor)?;
    let number = item(cursor)?;
    Ok(match word {
        EndedWord::Exit => Line::Exit { job, code: number },
        EndedWord::ExitSignal => Line::ExitSignal {
            job,
            signal: number,
        },
    })
}

/// Reads a job, and a kind of signal.
#[tactic(auto, unfolding(crate::specs::Shapes::kind_fields, text_codec::specs::Fields::always, text_codec::specs::Fields::no_more))]
pub(crate) fn signalled_line(word: SignalledWord, cursor: &mut Cursor) -> Result<Line, Unread>
    ensures { Answers (lines.line_arms (groups.signalled_word word)) cursor.old result cursor.new }
{
    let job = item(cursor)?;
    cursor.expect(b" ")?;
    let kind = SignalKind::read(cursor)?;
    Ok(match word {
        SignalledWord::SignalDone => Line::SignalDone { job, kind },
        SignalledWord::SignalFailed => Line::SignalFailed { job, kind },
    })
}
