//! How moments and lanes are laid out on the page.
ghost use Rattle.std.specs.Prelude.{◌≡◌};
ghost use Rattle.run_chart.specs.Scales as scales;

use crate::bars::Bar;
use crate::charts::Chart;
use crate::lanes::Span;
use crate::moments::{earlier, later};
use drmaa_types::{Moment, Reserved};

/// How a chart is laid out.
#[derive(Clone, Copy)]
pub struct Scale {
    /// The moments at the left and at the right.
    pub first: Moment,
    pub last: Moment,
    /// How many lanes are drawn.
    pub rows: u64,
    /// How high a lane is, in hundredths of a pixel.
    pub lane: u64,
}

/// The first moment, of this one and those at which the reservations begin.
fn first_from(moment: Moment, blocks: &[Reserved]) -> Moment
    ensures { result ≡ scales.first_from moment blocks.now }
{
    let mut first = moment;
    for block in blocks {
        first = earlier(first, block.from);
    }
    first
}

/// The last moment, of this one and those at which the reservations end.
fn last_from(moment: Moment, blocks: &[Reserved]) -> Moment
    ensures { result ≡ scales.last_from moment blocks.now }
{
    let mut last = moment;
    for block in blocks {
        last = later(last, block.until);
    }
    last
}

/// The first submission, or now where there is none.
fn first_submitted(now: Moment, submitted: &[Moment]) -> Moment
    ensures { result ≡ scales.first_submitted now submitted.now }
{
    match submitted.first() {
        Some(first) => *first,
        None => now,
    }
}

/// How many lanes these spans reach down to, and so many at least.
fn rows_of_spans(rows: u64, spans: &[Span]) -> u64
    ensures { result ≡ scales.rows_of_spans rows spans.now }
{
    let mut most = rows;
    for span in spans {
        most = most.max(span.end);
    }
    most
}

/// How many lanes these bars reach down to, and so many at least.
fn rows_of_bars(rows: u64, bars: &[Bar]) -> u64
    ensures { result ≡ scales.rows_of_bars rows bars.now }
{
    let mut most = rows;
    for bar in bars {
        most = rows_of_spans(most, bar.lanes.as_slice());
    }
    most
}

/// How many lanes these reservations need, and so many at least.
fn rows_of_blocks(rows: u64, blocks: &[Reserved]) -> u64
    ensures { result ≡ scales.rows_of_blocks rows blocks.now }
{
    let mut most = rows;
    for block in blocks {
        most = most.max(u64::from(block.slots));
    }
    most
}

/// How many lanes are drawn: all of a small machine, and of a large one those that are used.
fn rows_of(chart: &Chart) -> u64
    ensures { result ≡ scales.rows_of chart.now }
{
    if chart.slots <= 64 {
        u64::from(chart.slots).max(1)
    } else {
        rows_of_blocks(
            rows_of_bars(1, chart.bars.as_slice()),
            chart.blocks.as_slice(),
        )
    }
}

/// How high a lane is, where there are so many.
fn lane_height(rows: u64) -> u64
    ensures { result ≡ scales.lane_height rows }
{
    (60_000 / rows.max(1)).min(2_400).max(1)
}

/// How a chart is laid out.
pub(crate) fn scale_of(chart: &Chart) -> Scale
    ensures { result ≡ scales.scale_of chart.now }
{
    let rows = rows_of(chart);
    let submitted = first_submitted(chart.moment, chart.submitted.as_slice());
    Scale {
        first: first_from(submitted, chart.blocks.as_slice()),
        last: last_from(chart.moment, chart.blocks.as_slice()),
        rows,
        lane: lane_height(rows),
    }
}

/// How far to the right a moment is, in hundredths of a pixel.
#[tactic(auto, unfolding(crate::specs::Scales::across, drmaa_types::specs::Moments::greatest))]
pub(crate) fn across(scale: &Scale, at: Moment) -> u64
    ensures { result ≡ scales.across scale.now at }
{
    let passed = at.number().saturating_sub(scale.first.number());
    let whole = scale.last.number().saturating_sub(scale.first.number());
    passed * 100_000 / whole.max(1)
}

/// How wide what lasts from one moment to another is, in hundredths of a pixel: wide enough to be seen.
#[tactic(auto, unfolding(crate::specs::Scales::width))]
pub(crate) fn width(scale: &Scale, from: Moment, until: Moment) -> u64
    ensures { result ≡ scales.width scale.now from until }
{
    across(scale, until)
        .saturating_sub(across(scale, from))
        .max(150)
}

/// How high so many lanes are, in hundredths of a pixel.
pub(crate) fn down(scale: &Scale, lanes: u64) -> u128
    ensures { result ≡ scales.down scale.now lanes }
{
    u128::from(lanes) * u128::from(scale.lane)
}
