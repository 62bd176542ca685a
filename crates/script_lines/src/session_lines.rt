//! Lines that make, open and destroy sessions.
ghost use Rattle.std.specs.Prelude.{◌≡◌};
ghost use Rattle.text_codec.specs.Formats.{Answers};
ghost use Rattle.script_lines.specs.Lines as lines;
ghost use Rattle.script_lines.specs.WordGroups as groups;
ghost use Rattle.script_lines.specs.declared.words.LineWord.TheVariants as line_word;

use crate::Line;
use crate::shapes::{item, name_item};
use crate::word_groups::{CreateWord, DestroyWord, OpenWord};
use text_codec::{Cursor, Unread, read_set};

/// Reads a name, and a session's own name, which may be left out.
#[tactic(auto, unfolding(crate::specs::Shapes::create_fields, text_codec::specs::Fields::always, text_codec::specs::Fields::field, text_codec::specs::Fields::no_more))]
pub(crate) fn create_line(word: CreateWord, cursor: &mut Cursor) -> Result<Line, Unread>
    ensures { Answers (lines.line_arms (groups.create_word word)) cursor.old result cursor.new }
{
    let name = name_item(cursor)?;
    let session = read_set(cursor, b" ")?;
    Ok(match word {
        CreateWord::CreateJobs => Line::CreateJobs { name, session },
        CreateWord::CreateReservations => Line::CreateReservations { name, session },
    })
}

/// Reads a name, and a session's own name.
#[tactic(auto, unfolding(crate::specs::Shapes::open_fields, text_codec::specs::Fields::always, text_codec::specs::Fields::no_more))]
pub(crate) fn open_line(word: OpenWord, cursor: &mut Cursor) -> Result<Line, Unread>
    ensures { Answers (lines.line_arms (groups.open_word word)) cursor.old result cursor.new }
{
    let name = name_item(cursor)?;
    let session = item(cursor)?;
    Ok(match word {
        OpenWord::OpenJobs => Line::OpenJobs { name, session },
        OpenWord::OpenReservations => Line::OpenReservations { name, session },
    })
}

/// Reads a session's own name.
#[tactic(auto, unfolding(crate::specs::Shapes::text_fields, text_codec::specs::Fields::always, text_codec::specs::Fields::no_more))]
pub(crate) fn destroy_line(word: DestroyWord, cursor: &mut Cursor) -> Result<Line, Unread>
    ensures { Answers (lines.line_arms (groups.destroy_word word)) cursor.old result cursor.new }
{
    let session = item(cursor)?;
    Ok(match word {
        DestroyWord::DestroyJobs => Line::DestroyJobs { session },
        DestroyWord::DestroyReservations => Line::DestroyReservations { session },
    })
}

/// Reads the name of the monitoring session.
#[tactic(auto, unfolding(crate::specs::Shapes::name_fields, text_codec::specs::Fields::always, text_codec::specs::Fields::no_more))]
pub(crate) fn monitor_line(cursor: &mut Cursor) -> Result<Line, Unread>
    ensures { Answers (lines.line_arms line_word.Monitor) cursor.old result cursor.new }
{
    let name = name_item(cursor)?;
    Ok(Line::Monitor { name })
}
