//! What a chart shows: bars, the reservations behind them, and when jobs were submitted.
ghost use Rattle.std.specs.Prelude.{◌≡◌, IfOk};
ghost use Rattle.run_chart.specs.Charts as charts;

use crate::bars::{BarList, bars_of};
use crate::blocks::{BlockList, blocks_of};
use crate::moments::{later, opening_moment};
use drmaa_model::{Entry, Reply};
use drmaa_types::{Moment, MomentList};
use std::alloc::{AllocError, Global};

/// What is drawn of a history.
#[derive(Drop)]
pub struct Chart {
    /// How many slots the machine has.
    pub slots: u32,
    /// The moment of the machine.
    pub moment: Moment,
    pub bars: BarList,
    pub blocks: BlockList,
    /// The moments of the submissions that were accepted; an array's members come as one.
    pub submitted: MomentList,
}

/// Whether a reply tells that jobs were submitted.
fn is_submission(reply: &Reply) -> bool
    ensures { result ≡ charts.is_submission reply.now }
{
    matches!(reply, Reply::Job(_) | Reply::Array { .. })
}

/// The moments of the submissions of a history.
fn submitted_of(alloc: Global, entries: &[Entry]) -> Result<Vec<Moment>, AllocError>
    ensures { IfOk result (λ moments. moments.items ≡ charts.submitted_from 0 entries.now) }
{
    let mut moments = Vec::new(alloc);
    let mut now = opening_moment();
    for entry in entries {
        now = later(now, entry.at);
        if is_submission(&entry.reply) {
            moments.push(now)?;
        }
    }
    Ok(moments)
}

/// The chart of a history: of a machine with so many slots, at this moment.
///
/// # Errors
///
/// Want of memory.
pub fn chart_of(
    alloc: Global,
    entries: &[Entry],
    slots: u32,
    now: Moment,
) -> Result<Chart, AllocError>
    ensures { IfOk result (λ chart. chart ≡ charts.chart_of slots now entries.now) }
{
    Ok(Chart {
        slots,
        moment: now,
        bars: bars_of(alloc, entries, slots, now)?,
        blocks: blocks_of(alloc, entries)?,
        submitted: MomentList::from_vec(submitted_of(alloc, entries)?),
    })
}
