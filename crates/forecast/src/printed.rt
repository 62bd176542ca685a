//! The text of a forecast: a line for each start, and how many there are.
ghost use Rattle.std.specs.Prelude.{◌≡◌, ◌++◌, IfOk, OnOk, string_bytes};
ghost use Rattle.forecast.specs.Texts.{forecast_text, start_line, count_line};

use crate::{Predicted, PredictedList};
use drmaa_types::Text;
use itoa::Buffer;
use std::alloc::{AllocError, Global};

/// Writes the line of a start.
fn push_start(out: &mut String, start: &Predicted) -> Result<(), AllocError>
    ensures { OnOk result (string_bytes out.new ≡ string_bytes out.old ++ start_line start.now) }
{
    let mut digits = Buffer::new();
    out.push_str(digits.format(start.job.0))?;
    out.push_str(" @")?;
    out.push_str(digits.format(start.at.number()))?;
    out.push_str(" ")?;
    out.push_str(digits.format(start.slots))?;
    out.push_str("\n")
}

/// Writes how many starts there are.
fn push_count(out: &mut String, count: usize) -> Result<(), AllocError>
    ensures { OnOk result (string_bytes out.new ≡ string_bytes out.old ++ count_line count) }
{
    let mut digits = Buffer::new();
    out.push_str("starts ")?;
    out.push_str(digits.format(count))?;
    out.push_str("\n")
}

/// Writes the lines of these starts, and how many there are.
fn printed(alloc: Global, starts: &[Predicted]) -> Result<String, AllocError>
    ensures { IfOk result (λ text. string_bytes text ≡ forecast_text starts.now) }
{
    let mut out = String::new(alloc);
    for start in starts {
        push_start(&mut out, start)?;
    }
    push_count(&mut out, starts.len())?;
    Ok(out)
}

/// The text of a forecast: a line `JOB @MOMENT SLOTS` for each start, in order, and a last line `starts COUNT`.
///
/// # Errors
///
/// Want of memory.
pub fn print_forecast(alloc: Global, starts: &PredictedList) -> Result<Text, AllocError>
    ensures { IfOk result (λ text. text ≡ forecast_text starts.now) }
{
    let text = printed(alloc, starts.as_slice())?;
    Ok(Text::from_string(text))
}
