//! What the jobs of blocks hold, added up block after block. None of it takes memory.
ghost use Rattle.std.specs.Prelude.{◌≡◌, ◌^◌, ◌<◌};
ghost use Rattle.drmaa_model.specs.Load.{in_array, in_queue, in_reservation};
ghost use Rattle.plan_book.specs.Blocks.{rows_in};
ghost use Rattle.plan_book.specs.Meant.{rows_of};

use crate::queues::in_queue;
use crate::ready::{in_array, in_reservation};
use drmaa_model::Row;
use drmaa_types::{ArrayId, ReservationId};
use plan_book::MeantRows;

/// How many members of an array hold slots, of these jobs.
pub fn members_holding(rows: MeantRows<'_>, array: ArrayId) -> u32
    requires { in_array array (rows_of rows) < 2 ^ 32 }
    ensures { result ≡ in_array array (rows_of rows.entry) }
{
    let mut sum = in_array(rows.alone, array);
    for block in rows.blocks {
        sum += in_array(&block[..], array);
    }
    sum
}

/// The slots held by those of these jobs that are ordinary ones of the queue at this place.
pub fn queue_holding(blocks: &[Vec<Row>], place: u32) -> u32
    requires { in_queue place (rows_in blocks.now) < 2 ^ 32 }
    ensures { result ≡ in_queue place (rows_in blocks.now) }
{
    let mut sum = 0;
    for block in blocks {
        sum += in_queue(&block[..], place);
    }
    sum
}

/// The slots held by those of these jobs that name a reservation.
pub fn reservation_holding(blocks: &[Vec<Row>], number: ReservationId) -> u32
    requires { in_reservation number (rows_in blocks.now) < 2 ^ 32 }
    ensures { result ≡ in_reservation number (rows_in blocks.now) }
{
    let mut sum = 0;
    for block in blocks {
        sum += in_reservation(&block[..], number);
    }
    sum
}
