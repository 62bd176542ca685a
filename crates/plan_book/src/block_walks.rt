//! What is found by a walk over the rows, block after block. None of it takes memory.
ghost use Rattle.std.specs.Prelude.{◌≡◌, ◌+◌, ◌-◌, ◌&&◌, ◌<◌, ◌≤◌, ◌^◌, ℕ, filter, length, Some, SomeIff, IfSome};
ghost use Rattle.drmaa_model.specs.declared.rows.Row.{Row};
ghost use Rattle.drmaa_model.specs.Controlling.{is_done};
ghost use Rattle.drmaa_model.specs.Submitting.{kept_text, most_kept_text};
ghost use Rattle.drmaa_model.specs.Targets.{is_meant};
ghost use Rattle.plan_book.specs.Blocks.{AreFrontSettled, rows_in};
ghost use Rattle.plan_book.specs.Open.{IsPriorityBound};
ghost use Rattle.plan_book.specs.Sums.{AreSums};
ghost use Rattle.plan_book.specs.Texts.{IsRoomBeside};

use crate::open_jobs::{are_settled, greatest_with};
use crate::sums::{Sums, no_sums, sums_of, with_others};
use crate::texts::{MOST_KEPT_TEXT, room_without_done, without_rows};
use drmaa_model::{Row, Target};

/// What the rows come to.
pub fn sums_in(blocks: &[Vec<Row>]) -> Sums
    requires few { length (rows_in blocks.now) < 2 ^ 72 }
    ensures { AreSums (rows_in blocks.now) result }
{
    let mut sums = no_sums();
    for block in blocks {
        sums = with_others(&sums, &sums_of(&block[..]));
    }
    sums
}

/// How many rows there are.
pub fn count_in(blocks: &[Vec<Row>]) -> u128
    requires few { length (rows_in blocks.now) < 2 ^ 72 }
    ensures { result ≡ length (rows_in blocks.now) }
{
    let mut count = 0;
    for block in blocks {
        count += block.len() as u128;
    }
    count
}

/// How many blocks at the front have settled jobs alone, where the first `from` do.
pub fn settled_from(blocks: &[Vec<Row>], from: usize) -> usize
    requires { AreFrontSettled from blocks.now }
    ensures settled { AreFrontSettled result blocks.now }
{
    let mut settled = from;
    while settled < blocks.len() && are_settled(&blocks[settled][..]) {
        settled += 1;
    }
    settled
}

/// A priority that no job's passes, where none passes this one. It goes over the jobs up to the block of the first that has it.
pub fn greatest_under(blocks: &[Vec<Row>], most: i32) -> i32
    requires { IsPriorityBound (rows_in blocks.now) most }
    ensures { IsPriorityBound (rows_in blocks.now) result }
{
    let mut greatest = i32::MIN;
    for block in blocks {
        if greatest >= most {
            return most;
        }
        greatest = greatest_with(greatest, block);
    }
    greatest
}

/// A priority that no job's passes, where none passes the greatest, once a job of this priority is forgotten. It looks at the jobs where
/// that was the greatest.
pub fn greatest_without(greatest: i32, priority: i32, blocks: &[Vec<Row>]) -> i32
    requires { IsPriorityBound (rows_in blocks.now) greatest }
    ensures { IsPriorityBound (rows_in blocks.now) result }
{
    if priority < greatest {
        return greatest;
    }
    greatest_under(blocks, greatest)
}

/// The room that the templates of jobs leave. None exactly where they need more.
fn without_blocks(room: usize, blocks: &[Vec<Row>]) -> Option<usize>
    ensures { SomeIff result (kept_text (rows_in blocks.now) ≤ room) (room - kept_text (rows_in blocks.now)) }
{
    let mut room = room;
    for block in blocks {
        room = without_rows(room, &block[..])?;
    }
    Some(room)
}

/// The room that the kept jobs leave, which is counted where it isn't known.
pub fn room_beside(known: Option<usize>, blocks: &[Vec<Row>]) -> Option<usize>
    requires { IfSome known (λ room. IsRoomBeside (kept_text (rows_in blocks.now)) (Some room)) }
    ensures { IsRoomBeside (kept_text (rows_in blocks.now)) result }
{
    match known {
        Some(room) => Some(room),
        None => without_blocks(MOST_KEPT_TEXT, blocks),
    }
}

/// The room once the ended ones of the jobs that are meant are forgotten, which are among these and at whose templates alone it
/// looks. None where there was none: then it has to be counted anew.
pub fn room_without_members(
    room: Option<usize>,
    blocks: &[Vec<Row>],
    target: &Target,
) -> Option<usize>
    requires { IfSome room (λ room. room ≤ most_kept_text) }
    ensures { (text : ℕ) → IsRoomBeside (text + kept_text (filter (λ (row : Row). is_meant target.now row && is_done row) (rows_in blocks.now))) room → IfSome result (λ room. IsRoomBeside text (Some room)) }
{
    let mut room = room?;
    for block in blocks {
        room = room_without_done(Some(room), &block[..], target)?;
    }
    Some(room)
}
