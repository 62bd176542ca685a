//! A bar for each run of a job.
ghost use Rattle.std.specs.Prelude.{◌≡◌, drop, map, IfOk};
ghost use Rattle.std.specs.Vec.Iter.{into_iter_items};
ghost use Rattle.run_chart.specs.Bars as bars;
ghost use Rattle.run_views.specs.Runs as meant;

use crate::lanes::{SpanList, lanes_of};
use drmaa_model::Entry;
use drmaa_types::{JobId, ListOf, Moment, TextList};
use run_views::{Ending, Run, RunEnd, runs_of};
use std::alloc::{AllocError, Global};
use std::vec::IntoIter;

/// A run of a job, as it is drawn.
#[derive(Drop)]
pub struct Bar {
    pub job: JobId,
    /// How often the job was launched, with this time.
    pub attempt: u32,
    /// When it was launched.
    pub from: Moment,
    /// When its end was reported, or now where it was not.
    pub until: Moment,
    /// How many slots it held.
    pub slots: u32,
    /// How it ended, where that was reported.
    pub end: Option<Ending>,
    /// The words that started it.
    pub words: TextList,
    /// The lanes that it is drawn in, as many as it held slots.
    pub lanes: SpanList,
}

/// Bars, in the order of their launches.
pub type BarList = ListOf<Bar>;

/// When a run ends: at its end, or now where that was not reported.
fn until(now: Moment, end: Option<RunEnd>) -> Moment
    ensures { result ≡ bars.until now end }
{
    match end {
        Some(end) => end.at,
        None => now,
    }
}

/// How a run ended.
fn ending(end: Option<RunEnd>) -> Option<Ending>
    ensures { result ≡ bars.ending end }
{
    match end {
        Some(end) => Some(end.how),
        None => None,
    }
}

/// The bar of a run in these lanes.
fn bar_of(now: Moment, run: &Run, lanes: SpanList) -> Result<Bar, AllocError>
    ensures { IfOk result (λ bar. bar ≡ bars.bar_of now run.now lanes) }
{
    Ok(Bar {
        job: run.job,
        attempt: run.attempt,
        from: run.launched,
        until: until(now, run.end),
        slots: run.slots,
        end: ending(run.end),
        words: run.words.clone()?,
        lanes,
    })
}

/// The lanes of the next run.
fn next_lanes(alloc: Global, lanes: &mut IntoIter<SpanList>) -> SpanList
    ensures next { result ≡ bars.next_lanes (into_iter_items lanes.old) }
    ensures rest { into_iter_items lanes.new ≡ drop 1 (into_iter_items lanes.old) }
{
    match lanes.next() {
        Some(next) => next,
        None => SpanList::new(alloc),
    }
}

/// The bars of runs in these lanes.
fn placed(
    alloc: Global,
    now: Moment,
    runs: &[Run],
    lanes: Vec<SpanList>,
) -> Result<Vec<Bar>, AllocError>
    ensures { IfOk result (λ placed. placed.items ≡ bars.placed now runs.now lanes.items) }
{
    let mut bars = Vec::new(alloc);
    let mut lanes = lanes.into_iter();
    for run in runs {
        let next = next_lanes(alloc, &mut lanes);
        bars.push(bar_of(now, run, next)?)?;
    }
    Ok(bars)
}

/// The bars of a history, one for each launch, in their order: from the launch to the reported end of that attempt, or to now.
///
/// # Errors
///
/// Want of memory.
#[tactic(auto, using(crate::specs::BarLaws::placed_runs))]
pub fn bars_of(
    alloc: Global,
    entries: &[Entry],
    slots: u32,
    now: Moment,
) -> Result<BarList, AllocError>
    ensures bars { IfOk result (λ found. found ≡ bars.bars_of slots now entries.now) }
    ensures runs { IfOk result (λ found. map bars.plain found ≡ map (bars.plain_bar now) (meant.runs_of entries.now)) }
{
    let runs = runs_of(alloc, entries)?;
    let lanes = lanes_of(alloc, entries, slots)?;
    let bars = placed(alloc, now, runs.as_slice(), lanes)?;
    Ok(BarList::from_vec(bars))
}
