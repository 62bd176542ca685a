//! The listing of jobs: a header, and a line for each.
ghost use Rattle.std.specs.Prelude.{◌≡◌, ◌++◌, OnOk, IfOk, IfErr, codes, decimal, string_bytes};
ghost use Rattle.drmaa_types.specs.declared.refusals.Refusal.{Refusal};
ghost use Rattle.text_codec.specs.Formats.{spell_or};
ghost use Rattle.text_codec.specs.Lexical as lexical;
ghost use Rattle.monitor_session.specs.Listings as listings;

use crate::columns::{push_left, push_right};
use drmaa_types::{InfoList, JobInfo, Refusal, Text};
use itoa::Buffer;
use std::alloc::{AllocError, Global};
use text_codec::quoted;

/// How many places the columns have.
const JOB_PLACES: usize = 10;

const STATE_PLACES: usize = 13;

const SLOTS_PLACES: usize = 5;

/// What stands in a column where there is no value.
const UNSET: &str = "-";

/// Writes the three columns that have places.
fn push_columns(out: &mut String, job: &str, state: &str, slots: &str) -> Result<(), AllocError>
    ensures { OnOk result (string_bytes out.new ≡ string_bytes out.old ++ listings.columns job.now state.now slots.now) }
{
    push_right(out, JOB_PLACES, job)?;
    out.push_str(" ")?;
    push_left(out, STATE_PLACES, state)?;
    out.push_str(" ")?;
    push_right(out, SLOTS_PLACES, slots)
}

/// Writes a line.
fn push_line(
    out: &mut String,
    job: &str,
    state: &str,
    slots: &str,
    name: &str,
) -> Result<(), AllocError>
    ensures { OnOk result (string_bytes out.new ≡ string_bytes out.old ++ listings.line job.now state.now slots.now name.now) }
{
    push_columns(out, job, state, slots)?;
    out.push_str(" ")?;
    out.push_str(name)?;
    out.push_str("\n")
}

/// The number of slots in decimal digits.
fn slots_word(digits: &mut Buffer, slots: Option<u32>) -> &str
    ensures { result.now ≡ spell_or (codes "-") decimal slots }
{
    match slots {
        Some(slots) => digits.format(slots),
        None => UNSET,
    }
}

/// The name in its quotes.
fn name_word(alloc: Global, name: &Option<Text>) -> Result<String, AllocError>
    ensures { IfOk result (λ word. string_bytes word ≡ spell_or (codes "-") lexical.quoted name.now) }
{
    match name {
        Some(name) => quoted(alloc, name),
        None => String::from_str(alloc, UNSET),
    }
}

/// Writes the line of a job.
fn push_row(alloc: Global, out: &mut String, info: &JobInfo) -> Result<(), AllocError>
    ensures { OnOk result (string_bytes out.new ≡ string_bytes out.old ++ listings.row info.now) }
{
    let mut job = Buffer::new();
    let mut slots = Buffer::new();
    let name = name_word(alloc, &info.name)?;
    push_line(
        out,
        job.format(info.job.0),
        info.state.name(),
        slots_word(&mut slots, info.slots),
        name.as_str(),
    )
}

/// Writes the header and the lines of these jobs.
fn listed(alloc: Global, infos: &[JobInfo]) -> Result<String, AllocError>
    ensures { IfOk result (λ text. string_bytes text ≡ listings.listing_text infos.now) }
{
    let mut out = String::new(alloc);
    push_line(&mut out, "job", "state", "slots", "name")?;
    for info in infos {
        push_row(alloc, &mut out, info)?;
    }
    Ok(out)
}

/// The listing of jobs: a header, and a line for each of them in the order given. A line has the job's number, its state,
/// the slots of its last launch and its name in quotes; what has no value is `-`. A number with more digits than its column
/// has places is written whole.
///
/// # Errors
///
/// Want of memory.
pub fn listing(alloc: Global, infos: &InfoList) -> Result<Text, Refusal>
    ensures ok { IfOk result (λ text. text ≡ listings.listing_text infos.now) }
    ensures err { IfErr result (λ why. why ≡ Refusal.OutOfMemory) }
{
    match listed(alloc, infos.as_slice()) {
        Ok(text) => Ok(Text::from_string(text)),
        Err(_) => Err(Refusal::OutOfMemory),
    }
}
