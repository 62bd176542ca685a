//! The room that the text of the templates of the kept jobs leaves of the greatest that they may have. None of it takes memory.
ghost use Rattle.std.specs.Prelude.{◌+◌, ◌-◌, ◌≤◌, ◌&&◌, ℕ, not, filter, Some, SomeIff, IfSome};
ghost use Rattle.job_template.specs.Texts.{text_length};
ghost use Rattle.drmaa_model.specs.declared.rows.Row.{Row};
ghost use Rattle.drmaa_model.specs.Controlling.{is_done};
ghost use Rattle.drmaa_model.specs.Effects.{is_forgotten};
ghost use Rattle.drmaa_model.specs.Submitting.{kept_text, most_kept_text};
ghost use Rattle.drmaa_model.specs.Targets.{is_meant};
ghost use Rattle.plan_book.specs.Texts.{IsRoomBeside};

use crate::arrivals::is_reaped;
use crate::homes::is_forgotten;
use drmaa_model::{Row, Target};
use job_template::without_template;

/// The most text of the templates of all kept jobs, in bytes.
pub const MOST_KEPT_TEXT: usize = 67_108_864;

/// The room where no job is kept.
pub fn whole_room() -> Option<usize>
    ensures { IsRoomBeside 0 result }
{
    Some(MOST_KEPT_TEXT)
}

/// The room that the templates of jobs leave. None exactly where they need more.
pub fn without_rows(room: usize, rows: &[Row]) -> Option<usize>
    ensures { SomeIff result (kept_text rows.now ≤ room) (room - kept_text rows.now) }
{
    let mut room = room;
    for row in rows {
        room = without_template(room, row.template.get())?;
    }
    Some(room)
}

/// The room once more jobs have come in.
pub fn room_with(room: Option<usize>, more: &Vec<Row>) -> Option<usize>
    ensures { (text : ℕ) → IsRoomBeside text room → IsRoomBeside (text + kept_text more.now.items) result }
{
    without_rows(room?, &more[..])
}

/// The room once the ended ones of the jobs that are meant are forgotten, which are among these and at whose templates alone it
/// looks. None where there was none: then it has to be counted anew.
pub fn room_without_done(room: Option<usize>, rows: &[Row], target: &Target) -> Option<usize>
    requires { IfSome room (λ room. room ≤ most_kept_text) }
    ensures most { IfSome result (λ room. room ≤ most_kept_text) }
    ensures room { (text : ℕ) → IsRoomBeside (text + kept_text (filter (λ (row : Row). is_meant target.now row && is_done row) rows.now)) room → IfSome result (λ room. IsRoomBeside text (Some room)) }
{
    let mut text = MOST_KEPT_TEXT - room?;
    for row in rows {
        if is_reaped(target, row) {
            text = without_template(text, row.template.get())?;
        }
    }
    Some(MOST_KEPT_TEXT - text)
}

/// The room once one job is forgotten, at whose template alone it looks. None where there was none: then it has to be counted anew.
pub fn room_without_job(room: Option<usize>, row: &Row) -> Option<usize>
    requires { IfSome room (λ room. room ≤ most_kept_text) }
    ensures { (text : ℕ) → IsRoomBeside (text + text_length row.now.template) room → IfSome result (λ room. IsRoomBeside text (Some room)) }
{
    let text = without_template(MOST_KEPT_TEXT - room?, row.template.get())?;
    Some(MOST_KEPT_TEXT - text)
}
