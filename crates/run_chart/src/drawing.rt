//! Bars, reservations and submissions as SVG.
ghost use Rattle.std.specs.Prelude.{◌≡◌, ◌++◌, OnOk, string_bytes};
ghost use Rattle.run_chart.specs.Drawing as drawing;

use crate::bars::Bar;
use crate::charts::Chart;
use crate::lanes::Span;
use crate::pieces::{Piece, push_piece};
use crate::scales::{Scale, across, down, width};
use crate::shapes::{Area, push_box, push_escaped, push_number};
use drmaa_types::{Exit, Moment, Reserved, Text};
use run_views::Ending;
use std::alloc::AllocError;

/// The class of a bar, by its end.
#[tactic(auto, unfolding(crate::specs::Drawing::class_of))]
fn class_of(end: Option<Ending>) -> &'static str
    ensures { result.now ≡ drawing.class_of end }
{
    match end {
        None => "running",
        Some(Ending::Exited(Exit::Code(code))) => { if code == 0 { "done" } else { "failed" } }
        Some(Ending::Exited(Exit::Signal(_))) => "killed",
        Some(Ending::Unknown) => "unknown",
        Some(Ending::NotStarted) => "unstarted",
    }
}

/// Writes how a bar ends.
#[tactic(auto, unfolding(crate::specs::Drawing::ending_text))]
fn push_ending(out: &mut String, end: Option<Ending>) -> Result<(), AllocError>
    ensures { OnOk result (string_bytes out.new ≡ string_bytes out.old ++ drawing.ending_text end) }
{
    match end {
        None => out.push_str("running"),
        Some(Ending::Exited(Exit::Code(code))) => {
            out.push_str("code ")?;
            push_number(out, u128::from(code))
        }
        Some(Ending::Exited(Exit::Signal(signal))) => {
            out.push_str("signal ")?;
            push_number(out, u128::from(signal))
        }
        Some(Ending::Unknown) => out.push_str("unknown"),
        Some(Ending::NotStarted) => out.push_str("not started"),
    }
}

/// Writes slots and moments.
#[tactic(auto, unfolding(crate::specs::Drawing::course_text))]
fn push_course(out: &mut String, slots: u32, from: Moment, until: Moment) -> Result<(), AllocError>
    ensures { OnOk result (string_bytes out.new ≡ string_bytes out.old ++ drawing.course_text slots from until) }
{
    push_piece(out, Piece::Slots)?;
    push_number(out, u128::from(slots))?;
    push_piece(out, Piece::From)?;
    push_number(out, u128::from(from.number()))?;
    push_piece(out, Piece::Until)?;
    push_number(out, u128::from(until.number()))
}

/// Writes words, with a blank before each.
fn push_words(out: &mut String, words: &[Text]) -> Result<(), AllocError>
    ensures { OnOk result (string_bytes out.new ≡ string_bytes out.old ++ drawing.words_text words.now) }
{
    for word in words {
        out.push_str(" ")?;
        push_escaped(out, word.as_str())?;
    }
    Ok(())
}

/// Writes the words of a bar, where the chart is detailed.
#[tactic(auto, unfolding(crate::specs::Drawing::details_text))]
fn push_details(out: &mut String, bar: &Bar, is_detailed: bool) -> Result<(), AllocError>
    ensures { OnOk result (string_bytes out.new ≡ string_bytes out.old ++ drawing.details_text is_detailed bar.now.words) }
{
    if is_detailed {
        out.push_str(":")?;
        push_words(out, bar.words.as_slice())
    } else {
        Ok(())
    }
}

/// Writes job and attempt of a bar.
#[tactic(auto, unfolding(crate::specs::Drawing::launch_text))]
fn push_launch(out: &mut String, bar: &Bar) -> Result<(), AllocError>
    ensures { OnOk result (string_bytes out.new ≡ string_bytes out.old ++ drawing.launch_text bar.now) }
{
    push_piece(out, Piece::JobTitle)?;
    push_number(out, u128::from(bar.job.0))?;
    push_piece(out, Piece::Attempt)?;
    push_number(out, u128::from(bar.attempt))
}

/// Writes what is told of a bar, with its words where the chart is detailed.
#[tactic(auto, unfolding(crate::specs::Drawing::title_text))]
fn push_title(out: &mut String, bar: &Bar, is_detailed: bool) -> Result<(), AllocError>
    ensures { OnOk result (string_bytes out.new ≡ string_bytes out.old ++ drawing.title_text is_detailed bar.now) }
{
    push_launch(out, bar)?;
    push_course(out, bar.slots, bar.from, bar.until)?;
    out.push_str(", ")?;
    push_ending(out, bar.end)?;
    push_details(out, bar, is_detailed)?;
    push_piece(out, Piece::TitleEnd)
}

/// The box of a bar in lanes next to one another.
fn area_of(scale: &Scale, bar: &Bar, span: Span) -> Area
    ensures { result ≡ drawing.area_of scale.now bar.now span }
{
    Area {
        x: across(scale, bar.from),
        y: down(scale, u64::from(span.first)),
        width: width(scale, bar.from, bar.until),
        height: down(scale, span.end.saturating_sub(u64::from(span.first))),
    }
}

/// Writes the boxes of a bar.
fn push_areas(out: &mut String, scale: &Scale, bar: &Bar) -> Result<(), AllocError>
    ensures { OnOk result (string_bytes out.new ≡ string_bytes out.old ++ drawing.areas_text scale.now bar.now bar.now.lanes) }
{
    for span in bar.lanes.as_slice() {
        push_box(out, area_of(scale, bar, *span))?;
    }
    Ok(())
}

/// Writes a bar.
#[tactic(auto, unfolding(crate::specs::Drawing::bar_text))]
fn push_bar(out: &mut String, scale: &Scale, bar: &Bar, is_detailed: bool) -> Result<(), AllocError>
    ensures { OnOk result (string_bytes out.new ≡ string_bytes out.old ++ drawing.bar_text scale.now is_detailed bar.now) }
{
    out.push_str("<g class=\"")?;
    out.push_str(class_of(bar.end))?;
    out.push_str("\">")?;
    push_title(out, bar, is_detailed)?;
    push_areas(out, scale, bar)?;
    push_piece(out, Piece::GroupEnd)
}

/// Writes the bars of a chart.
pub(crate) fn push_bars(
    out: &mut String,
    scale: &Scale,
    chart: &Chart,
    is_detailed: bool,
) -> Result<(), AllocError>
    ensures { OnOk result (string_bytes out.new ≡ string_bytes out.old ++ drawing.bars_text scale.now is_detailed chart.now.bars) }
{
    for bar in chart.bars.as_slice() {
        push_bar(out, scale, bar, is_detailed)?;
    }
    Ok(())
}

/// Whether another reservation was accepted before this one, and both keep slots at some moment.
fn is_below(block: &Reserved, other: &Reserved) -> bool
    ensures { result ≡ drawing.is_below block.now other.now }
{
    other.reservation.0 < block.reservation.0
        && other.from.number() < block.until.number()
        && block.from.number() < other.until.number()
}

/// So many lanes more, and at most all.
fn raised(rows: u64, level: u64, slots: u32) -> u64
    ensures { result ≡ drawing.raised rows level slots }
{
    (u128::from(level) + u128::from(slots)).min(u128::from(rows)) as u64
}

/// How many of the lowest lanes are left to the reservations that are below this one.
fn lanes_below(rows: u64, block: &Reserved, others: &[Reserved]) -> u64
    ensures { result ≡ drawing.lanes_below rows block.now 0 others.now }
{
    let mut level = 0;
    for other in others {
        if is_below(block, other) {
            level = raised(rows, level, other.slots);
        }
    }
    level
}

/// The same, where there are not too many reservations.
fn level_of(scale: &Scale, block: &Reserved, others: &[Reserved]) -> u64
    ensures { result ≡ drawing.level_of scale.now block.now others.now }
{
    if others.len() < 500 {
        lanes_below(scale.rows, block, others)
    } else {
        0
    }
}

/// The box of a reservation, above so many lanes.
fn block_area(scale: &Scale, block: &Reserved, level: u64) -> Area
    ensures { result ≡ drawing.block_area scale.now block.now level }
{
    let slots = u64::from(block.slots);
    let top = scale.rows.saturating_sub(slots).saturating_sub(level);
    Area {
        x: across(scale, block.from),
        y: down(scale, top),
        width: width(scale, block.from, block.until),
        height: down(scale, slots),
    }
}

/// Writes a reservation, above so many lanes.
#[tactic(auto, unfolding(crate::specs::Drawing::block_text))]
fn push_block(
    out: &mut String,
    scale: &Scale,
    block: &Reserved,
    level: u64,
) -> Result<(), AllocError>
    ensures { OnOk result (string_bytes out.new ≡ string_bytes out.old ++ drawing.block_text scale.now block.now level) }
{
    push_piece(out, Piece::Reserved)?;
    push_number(out, u128::from(block.reservation.0))?;
    push_course(out, block.slots, block.from, block.until)?;
    push_piece(out, Piece::TitleEnd)?;
    push_box(out, block_area(scale, block, level))?;
    push_piece(out, Piece::GroupEnd)
}

/// Writes the reservations of a chart.
pub(crate) fn push_blocks(out: &mut String, scale: &Scale, chart: &Chart) -> Result<(), AllocError>
    ensures { OnOk result (string_bytes out.new ≡ string_bytes out.old ++ drawing.blocks_text scale.now chart.now.blocks chart.now.blocks) }
{
    for block in chart.blocks.as_slice() {
        let level = level_of(scale, block, chart.blocks.as_slice());
        push_block(out, scale, block, level)?;
    }
    Ok(())
}

/// Writes the mark of a submission.
#[tactic(auto, unfolding(crate::specs::Drawing::mark_text))]
fn push_mark(out: &mut String, scale: &Scale, at: Moment) -> Result<(), AllocError>
    ensures { OnOk result (string_bytes out.new ≡ string_bytes out.old ++ drawing.mark_text scale.now at) }
{
    out.push_str("M")?;
    push_number(out, u128::from(across(scale, at)))?;
    out.push_str(" -900v800")
}

/// Writes the marks of the submissions of a chart.
pub(crate) fn push_marks(out: &mut String, scale: &Scale, chart: &Chart) -> Result<(), AllocError>
    ensures { OnOk result (string_bytes out.new ≡ string_bytes out.old ++ drawing.marks_text scale.now chart.now.submitted) }
{
    for at in chart.submitted.as_slice() {
        push_mark(out, scale, *at)?;
    }
    Ok(())
}
