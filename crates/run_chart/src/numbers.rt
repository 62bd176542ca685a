//! The numbers of jobs in their bars.
ghost use Rattle.std.specs.Prelude.{◌≡◌, ◌++◌, OnOk, string_bytes};
ghost use Rattle.run_chart.specs.Numbers as numbers;

use crate::bars::Bar;
use crate::charts::Chart;
use crate::lanes::Span;
use crate::pieces::{Piece, push_piece};
use crate::scales::{Scale, across, down, width};
use crate::shapes::{push_attribute, push_number};
use itoa::Buffer;
use std::alloc::AllocError;

/// Whether the number of a bar's job fits into it: a digit is reckoned at 8 pixels.
#[tactic(auto, unfolding(crate::specs::Numbers::is_fitting))]
fn is_fitting(scale: &Scale, bar: &Bar) -> bool
    ensures { result ≡ numbers.is_fitting scale.now bar.now }
{
    let mut digits = Buffer::new();
    let len = digits.format(bar.job.0).len() as u64;
    1_200 <= scale.lane && len * 800 + 400 <= width(scale, bar.from, bar.until)
}

/// How far below the top of a lane a number stands in it.
fn line_of(lane: u64) -> u128
    ensures { result ≡ numbers.line_of lane }
{
    (u128::from(lane) + 800) / 2
}

/// Writes where the number of a bar's job stands in these lanes.
#[tactic(auto, unfolding(crate::specs::Numbers::place_text))]
fn push_place(out: &mut String, scale: &Scale, bar: &Bar, span: Span) -> Result<(), AllocError>
    ensures { OnOk result (string_bytes out.new ≡ string_bytes out.old ++ numbers.place_text scale.now bar.now span) }
{
    push_attribute(out, "x", u128::from(across(scale, bar.from)))?;
    push_attribute(out, "y", down(scale, u64::from(span.first)))?;
    push_attribute(out, "dy", line_of(scale.lane))
}

/// Writes the number of a bar's job in these lanes.
#[tactic(auto, unfolding(crate::specs::Numbers::number_at))]
fn push_number_at(out: &mut String, scale: &Scale, bar: &Bar, span: Span) -> Result<(), AllocError>
    ensures { OnOk result (string_bytes out.new ≡ string_bytes out.old ++ numbers.number_at scale.now bar.now span) }
{
    push_piece(out, Piece::JobNumber)?;
    push_place(out, scale, bar, span)?;
    out.push_str(">")?;
    push_number(out, u128::from(bar.job.0))?;
    push_piece(out, Piece::TextEnd)
}

/// Writes the number of a bar's job in the first lanes of the bar, where it fits.
#[tactic(auto, unfolding(crate::specs::Numbers::number_text, crate::specs::Numbers::number_in))]
fn push_number_of(out: &mut String, scale: &Scale, bar: &Bar) -> Result<(), AllocError>
    ensures { OnOk result (string_bytes out.new ≡ string_bytes out.old ++ numbers.number_text scale.now bar.now) }
{
    match bar.lanes.as_slice().first() {
        Some(span) if is_fitting(scale, bar) => push_number_at(out, scale, bar, *span),
        _ => Ok(()),
    }
}

/// Writes the numbers of the jobs of a chart.
pub(crate) fn push_numbers(out: &mut String, scale: &Scale, chart: &Chart) -> Result<(), AllocError>
    ensures { OnOk result (string_bytes out.new ≡ string_bytes out.old ++ numbers.all_text scale.now chart.now.bars) }
{
    for bar in chart.bars.as_slice() {
        push_number_of(out, scale, bar)?;
    }
    Ok(())
}
