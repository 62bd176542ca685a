//! Lines that run jobs, list them and wait for them, and the one that books slots.
ghost use Rattle.std.specs.Prelude.{◌≡◌};
ghost use Rattle.text_codec.specs.Formats.{Answers};
ghost use Rattle.script_lines.specs.Lines as lines;
ghost use Rattle.script_lines.specs.WordGroups as groups;
ghost use Rattle.script_lines.specs.declared.words.LineWord.TheVariants as line_word;

use crate::filters::{filter_behind, made_filter};
use crate::shapes::{fitted, item, item_apart, members_behind, name_item, ran_behind, timeout_at};
use crate::word_groups::{SoughtWord, WaitWord};
use crate::{Apart, Line};
use text_codec::{Cursor, Unread, read_all};

/// Reads what a job is run by.
#[tactic(auto, unfolding(crate::specs::Shapes::run_fields, text_codec::specs::Fields::always))]
pub(crate) fn run_line(cursor: &mut Cursor) -> Result<Line, Unread>
    ensures { Answers (lines.line_arms line_word.Run) cursor.old result cursor.new }
{
    let name = name_item(cursor)?;
    let (session, (template, (reserved, ()))) = ran_behind(cursor)?;
    Ok(Line::Run {
        name,
        session,
        template,
        reserved,
    })
}

/// Reads what the jobs of an array are run by.
#[tactic(auto, unfolding(crate::specs::Shapes::bulk_fields, text_codec::specs::Fields::always))]
pub(crate) fn bulk_line(cursor: &mut Cursor) -> Result<Line, Unread>
    ensures { Answers (lines.line_arms line_word.Bulk) cursor.old result cursor.new }
{
    let name = name_item(cursor)?;
    let (session, (template, (begin, (end, (step, (bound, (reserved, ()))))))) = members_behind(
        cursor,
    )?;
    Ok(Line::Bulk {
        name,
        session,
        template,
        begin,
        end,
        step,
        bound,
        reserved,
    })
}

/// Reads a session, and the items of a filter.
#[tactic(auto, unfolding(crate::specs::Shapes::jobs_fields, text_codec::specs::Fields::always))]
pub(crate) fn sought_line(word: SoughtWord, cursor: &mut Cursor) -> Result<Line, Unread>
    ensures { Answers (lines.line_arms (groups.sought_word word)) cursor.old result cursor.new }
{
    let session = item(cursor)?;
    let filter = made_filter(filter_behind(cursor)?);
    let filter = Apart::new(cursor.alloc(), filter)?;
    Ok(match word {
        SoughtWord::Jobs => Line::Jobs { session, filter },
        SoughtWord::AllJobs => Line::AllJobs { session, filter },
    })
}

/// Reads a session, how long the wait lasts, and jobs.
#[tactic(auto, unfolding(crate::specs::Shapes::wait_fields, text_codec::specs::Fields::always, text_codec::specs::Fields::repeated, text_codec::specs::Fields::no_more))]
pub(crate) fn wait_line(word: WaitWord, cursor: &mut Cursor) -> Result<Line, Unread>
    ensures { Answers (lines.line_arms (groups.wait_word word)) cursor.old result cursor.new }
{
    let session = item_apart(cursor)?;
    cursor.expect(b" ")?;
    let timeout = timeout_at(cursor)?;
    let jobs = fitted(read_all(cursor, b" ")?);
    Ok(match word {
        WaitWord::WaitStarted => Line::WaitStarted {
            session,
            timeout,
            jobs,
        },
        WaitWord::WaitTerminated => Line::WaitTerminated {
            session,
            timeout,
            jobs,
        },
    })
}

/// Reads what slots are booked by.
#[tactic(auto, unfolding(crate::specs::Shapes::reserve_fields, text_codec::specs::Fields::always, text_codec::specs::Fields::no_more))]
pub(crate) fn reserve_line(cursor: &mut Cursor) -> Result<Line, Unread>
    ensures { Answers (lines.line_arms line_word.Reserve) cursor.old result cursor.new }
{
    let name = name_item(cursor)?;
    let session = item(cursor)?;
    let template = name_item(cursor)?;
    Ok(Line::Reserve {
        name,
        session,
        template,
    })
}
