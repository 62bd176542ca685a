//! The page: its head, what the colours mean, the axis, and all that is drawn.
ghost use Rattle.std.specs.Prelude.{◌≡◌, ◌++◌, IfOk, OnOk, length, string_bytes};
ghost use Rattle.run_chart.specs.Charts as charts;
ghost use Rattle.run_chart.specs.Pages as pages;

use crate::axis::moments_of;
use crate::charts::{Chart, chart_of};
use crate::dates::push_moment;
use crate::drawing::{push_bars, push_blocks, push_marks};
use crate::numbers::push_numbers;
use crate::pieces::{Piece, push_piece};
use crate::scales::{Scale, across, down, scale_of};
use crate::shapes::{push_attribute, push_number};
use drmaa_model::Entry;
use drmaa_types::{Moment, Text};
use std::alloc::{AllocError, Global};

/// Writes the head of a page that is so high.
#[tactic(auto, unfolding(crate::specs::Pages::head_text))]
fn push_head(out: &mut String, height: u128) -> Result<(), AllocError>
    ensures { OnOk result (string_bytes out.new ≡ string_bytes out.old ++ pages.head_text height) }
{
    push_piece(out, Piece::Opening)?;
    push_attribute(out, "height", height / 100)?;
    push_piece(out, Piece::ViewBox)?;
    push_number(out, height)?;
    push_piece(out, Piece::Style)
}

/// How many runs there are.
fn run_count(chart: &Chart) -> u128
    ensures { result ≡ length chart.now.bars }
{
    chart.bars.as_slice().len() as u128
}

/// How many reservations there are.
fn block_count(chart: &Chart) -> u128
    ensures { result ≡ length chart.now.blocks }
{
    chart.blocks.as_slice().len() as u128
}

/// How many submissions there are.
fn submission_count(chart: &Chart) -> u128
    ensures { result ≡ length chart.now.submitted }
{
    chart.submitted.as_slice().len() as u128
}

/// Writes how many slots and runs there are.
#[tactic(auto, unfolding(crate::specs::Pages::runs_text))]
fn push_runs(out: &mut String, chart: &Chart) -> Result<(), AllocError>
    ensures { OnOk result (string_bytes out.new ≡ string_bytes out.old ++ pages.runs_text chart.now) }
{
    push_piece(out, Piece::Heading)?;
    push_number(out, u128::from(chart.slots))?;
    push_piece(out, Piece::Runs)?;
    push_number(out, run_count(chart))
}

/// Writes how many reservations and submissions there are.
#[tactic(auto, unfolding(crate::specs::Pages::requests_text))]
fn push_requests(out: &mut String, chart: &Chart) -> Result<(), AllocError>
    ensures { OnOk result (string_bytes out.new ≡ string_bytes out.old ++ pages.requests_text chart.now) }
{
    push_piece(out, Piece::Reservations)?;
    push_number(out, block_count(chart))?;
    push_piece(out, Piece::Submissions)?;
    push_number(out, submission_count(chart))
}

/// Writes how much there is of everything, and what the colours mean.
#[tactic(auto, unfolding(crate::specs::Pages::counts_text))]
fn push_counts(out: &mut String, chart: &Chart) -> Result<(), AllocError>
    ensures { OnOk result (string_bytes out.new ≡ string_bytes out.old ++ pages.counts_text chart.now) }
{
    push_runs(out, chart)?;
    push_requests(out, chart)?;
    push_piece(out, Piece::HeadingEnd)?;
    push_piece(out, Piece::Legend)
}

/// Writes the number of the last lane.
#[tactic(auto, unfolding(crate::specs::Pages::last_lane_text))]
fn push_last_lane(out: &mut String, rows: u64, height: u128) -> Result<(), AllocError>
    ensures { OnOk result (string_bytes out.new ≡ string_bytes out.old ++ pages.last_lane_text rows height) }
{
    push_attribute(out, "y", height)?;
    out.push_str(">")?;
    push_number(out, u128::from(rows))?;
    push_piece(out, Piece::TextEnd)
}

/// Writes the lanes.
#[tactic(auto, unfolding(crate::specs::Pages::lanes_text))]
fn push_lanes(out: &mut String, scale: &Scale, height: u128) -> Result<(), AllocError>
    ensures { OnOk result (string_bytes out.new ≡ string_bytes out.old ++ pages.lanes_text scale.now height) }
{
    push_piece(out, Piece::Lanes)?;
    push_attribute(out, "height", u128::from(scale.lane))?;
    push_piece(out, Piece::LaneLine)?;
    push_attribute(out, "height", height)?;
    push_piece(out, Piece::FirstLane)?;
    push_last_lane(out, scale.rows, height)
}

/// Writes the line of a moment of the axis.
#[tactic(auto, unfolding(crate::specs::Pages::line_text))]
fn push_line(out: &mut String, scale: &Scale, height: u128, at: Moment) -> Result<(), AllocError>
    ensures { OnOk result (string_bytes out.new ≡ string_bytes out.old ++ pages.line_text scale.now height at) }
{
    push_number(out, u128::from(across(scale, at)))?;
    push_piece(out, Piece::Down)?;
    push_number(out, height)
}

/// Writes where the label of a moment of the axis stands.
#[tactic(auto, unfolding(crate::specs::Pages::place_text))]
fn push_place(out: &mut String, scale: &Scale, height: u128, at: Moment) -> Result<(), AllocError>
    ensures { OnOk result (string_bytes out.new ≡ string_bytes out.old ++ pages.place_text scale.now height at) }
{
    push_piece(out, Piece::TickLabel)?;
    push_attribute(out, "x", u128::from(across(scale, at)))?;
    push_attribute(out, "y", height)?;
    out.push_str(">")
}

/// Writes the line and the label of a moment of the axis.
#[tactic(auto, unfolding(crate::specs::Pages::tick_text))]
fn push_tick(out: &mut String, scale: &Scale, height: u128, at: Moment) -> Result<(), AllocError>
    ensures { OnOk result (string_bytes out.new ≡ string_bytes out.old ++ pages.tick_text scale.now height at) }
{
    push_piece(out, Piece::GridLine)?;
    push_line(out, scale, height, at)?;
    push_place(out, scale, height, at)?;
    push_moment(out, at)?;
    push_piece(out, Piece::TextEnd)
}

/// Writes these moments of the axis.
fn push_ticks(
    out: &mut String,
    scale: &Scale,
    height: u128,
    moments: &[Moment],
) -> Result<(), AllocError>
    ensures { OnOk result (string_bytes out.new ≡ string_bytes out.old ++ pages.ticks_text scale.now height moments.now) }
{
    for at in moments {
        push_tick(out, scale, height, *at)?;
    }
    Ok(())
}

/// Writes the axis.
#[tactic(auto, unfolding(crate::specs::Pages::axis_text))]
fn push_axis(out: &mut String, alloc: Global, scale: &Scale, height: u128) -> Result<(), AllocError>
    ensures { OnOk result (string_bytes out.new ≡ string_bytes out.old ++ pages.axis_text scale.now height) }
{
    let moments = moments_of(alloc, scale)?;
    push_ticks(out, scale, height, moments.as_slice())
}

/// Writes lanes and axis.
#[tactic(auto, unfolding(crate::specs::Pages::frame_text))]
fn push_frame(
    out: &mut String,
    alloc: Global,
    scale: &Scale,
    height: u128,
) -> Result<(), AllocError>
    ensures { OnOk result (string_bytes out.new ≡ string_bytes out.old ++ pages.frame_text scale.now height) }
{
    push_piece(out, Piece::Frame)?;
    push_lanes(out, scale, height)?;
    push_axis(out, alloc, scale, height)?;
    push_piece(out, Piece::GroupEnd)
}

/// Writes the line of the moment of the machine.
#[tactic(auto, unfolding(crate::specs::Pages::now_text))]
fn push_now(out: &mut String, scale: &Scale, height: u128, moment: Moment) -> Result<(), AllocError>
    ensures { OnOk result (string_bytes out.new ≡ string_bytes out.old ++ pages.now_text scale.now height moment) }
{
    push_piece(out, Piece::NowLine)?;
    push_line(out, scale, height, moment)?;
    push_piece(out, Piece::PathEnd)
}

/// Whether the bars are so few that their words and numbers are written.
fn is_detailed(chart: &Chart) -> bool
    ensures { result ≡ pages.is_detailed chart.now }
{
    run_count(chart) < 500
}

/// The group of what is drawn: the outlines of many bars are thin.
fn group_of(is_detailed: bool) -> Piece
    ensures { result ≡ pages.group_of is_detailed }
{
    if is_detailed {
        Piece::Drawn
    } else {
        Piece::ManyDrawn
    }
}

/// Writes the marks of submissions.
#[tactic(auto, unfolding(crate::specs::Pages::submitted_text))]
fn push_submitted(out: &mut String, scale: &Scale, chart: &Chart) -> Result<(), AllocError>
    ensures { OnOk result (string_bytes out.new ≡ string_bytes out.old ++ pages.submitted_text scale.now chart.now) }
{
    push_piece(out, Piece::Marks)?;
    push_marks(out, scale, chart)?;
    push_piece(out, Piece::PathEnd)
}

/// Writes reservations, bars, submissions and the moment of the machine.
#[tactic(auto, unfolding(crate::specs::Pages::drawn_text))]
fn push_drawn(
    out: &mut String,
    scale: &Scale,
    height: u128,
    chart: &Chart,
) -> Result<(), AllocError>
    ensures { OnOk result (string_bytes out.new ≡ string_bytes out.old ++ pages.drawn_text scale.now height chart.now) }
{
    let is_detailed = is_detailed(chart);
    push_piece(out, group_of(is_detailed))?;
    push_blocks(out, scale, chart)?;
    push_bars(out, scale, chart, is_detailed)?;
    push_submitted(out, scale, chart)?;
    push_now(out, scale, height, chart.moment)?;
    push_piece(out, Piece::GroupEnd)
}

/// Writes the numbers of jobs, where the chart is detailed.
#[tactic(auto, unfolding(crate::specs::Pages::shown_numbers))]
fn push_shown_numbers(out: &mut String, scale: &Scale, chart: &Chart) -> Result<(), AllocError>
    ensures { OnOk result (string_bytes out.new ≡ string_bytes out.old ++ pages.shown_numbers scale.now chart.now) }
{
    if is_detailed(chart) {
        push_numbers(out, scale, chart)
    } else {
        Ok(())
    }
}

/// Writes the numbers of jobs, and the end of the page.
#[tactic(auto, unfolding(crate::specs::Pages::numbers_text))]
fn push_last(out: &mut String, scale: &Scale, chart: &Chart) -> Result<(), AllocError>
    ensures { OnOk result (string_bytes out.new ≡ string_bytes out.old ++ pages.numbers_text scale.now chart.now) }
{
    push_piece(out, Piece::Numbers)?;
    push_shown_numbers(out, scale, chart)?;
    push_piece(out, Piece::End)
}

/// Writes the page of a chart that is laid out so.
#[tactic(auto, unfolding(crate::specs::Pages::page_text))]
fn push_page(
    out: &mut String,
    alloc: Global,
    scale: &Scale,
    chart: &Chart,
) -> Result<(), AllocError>
    ensures { OnOk result (string_bytes out.new ≡ string_bytes out.old ++ pages.page_text scale.now chart.now) }
{
    let height = down(scale, scale.rows);
    push_head(out, height + 11_000)?;
    push_counts(out, chart)?;
    push_frame(out, alloc, scale, height)?;
    push_drawn(out, scale, height, chart)?;
    push_last(out, scale, chart)
}

/// The page of a chart, as SVG.
///
/// # Errors
///
/// Want of memory.
pub fn print_chart(alloc: Global, chart: &Chart) -> Result<Text, AllocError>
    ensures { IfOk result (λ text. text ≡ pages.chart_text chart.now) }
{
    let scale = scale_of(chart);
    let mut page = String::new(alloc);
    push_page(&mut page, alloc, &scale, chart)?;
    Ok(Text::from_string(page))
}

/// The chart of a history, as SVG: of a machine with so many slots, at this moment.
///
/// # Errors
///
/// Want of memory.
pub fn chart(alloc: Global, entries: &[Entry], slots: u32, now: Moment) -> Result<Text, AllocError>
    ensures { IfOk result (λ text. text ≡ pages.chart_text (charts.chart_of slots now entries.now)) }
{
    let chart = chart_of(alloc, entries, slots, now)?;
    print_chart(alloc, &chart)
}
