//! The row of a kept job.
ghost use Rattle.std.specs.Prelude.{◌≡◌, ◌++◌, OnOk, option_copied, string_bytes};
ghost use Rattle.run_views.specs.JobTexts as texts;

use drmaa_types::{Exit, JobInfo, JobState, Moment, Note, Text};
use itoa::Buffer;
use std::alloc::{AllocError, Global};
use text_codec::quoted;

/// Writes a name in quotes.
#[tactic(auto, unfolding(crate::specs::JobTexts::name_text))]
fn push_name(out: &mut String, alloc: Global, name: Option<&Text>) -> Result<(), AllocError>
    ensures { OnOk result (string_bytes out.new ≡ string_bytes out.old ++ texts.name_text (option_copied name.entry)) }
{
    match name {
        Some(name) => {
            let name = quoted(alloc, name)?;
            out.push_str(name.as_str())
        }
        None => out.push_str("-"),
    }
}

/// Writes a number.
pub(crate) fn push_number(out: &mut String, number: Option<u64>) -> Result<(), AllocError>
    ensures { OnOk result (string_bytes out.new ≡ string_bytes out.old ++ texts.number_text number) }
{
    let mut digits = Buffer::new();
    match number {
        Some(number) => out.push_str(digits.format(number)),
        None => out.push_str("-"),
    }
}

/// Writes a number of slots.
fn push_slots(out: &mut String, slots: Option<u32>) -> Result<(), AllocError>
    ensures { OnOk result (string_bytes out.new ≡ string_bytes out.old ++ texts.number_text slots) }
{
    let mut digits = Buffer::new();
    match slots {
        Some(slots) => out.push_str(digits.format(slots)),
        None => out.push_str("-"),
    }
}

/// Writes an exit.
fn push_exit(out: &mut String, exit: Option<Exit>) -> Result<(), AllocError>
    ensures { OnOk result (string_bytes out.new ≡ string_bytes out.old ++ texts.code_text exit) }
{
    let mut digits = Buffer::new();
    match exit {
        Some(Exit::Code(code)) => {
            out.push_str("code ")?;
            out.push_str(digits.format(code))
        }
        Some(Exit::Signal(signal)) => {
            out.push_str("signal ")?;
            out.push_str(digits.format(signal))
        }
        None => out.push_str("-"),
    }
}

/// How a note stands in a row.
fn noted(note: Note) -> &'static str
    ensures { result.now ≡ texts.noted note }
{
    match note {
        Note::None => "-",
        Note::Terminated => "terminated",
        Note::PastDeadline => "pastDeadline",
        Note::PastLimit => "pastLimit",
        Note::ReservationGone => "reservationGone",
        Note::StartFailed => "startFailed",
        Note::ExitUnknown => "exitUnknown",
        Note::SignalFailed => "signalFailed",
    }
}

/// The seconds that a job has waited.
fn waited(now: Moment, info: &JobInfo) -> u64
    ensures { result ≡ texts.waited now info.now }
{
    let to = match (info.dispatched, info.finished) {
        (Some(dispatched), _) => dispatched,
        (None, Some(finished)) => finished,
        (None, None) => now,
    };
    to.number().saturating_sub(info.submitted.number())
}

/// Writes number, session and name.
pub(crate) fn push_names(
    out: &mut String,
    alloc: Global,
    job: u128,
    session: Option<&Text>,
    name: Option<&Text>,
) -> Result<(), AllocError>
    ensures { OnOk result (string_bytes out.new ≡ string_bytes out.old ++ texts.names_text job (option_copied session.entry) (option_copied name.entry)) }
{
    let mut digits = Buffer::new();
    out.push_str(digits.format(job))?;
    out.push_str("\t")?;
    push_name(out, alloc, session)?;
    out.push_str("\t")?;
    push_name(out, alloc, name)?;
    out.push_str("\t")
}

/// Writes a state.
pub(crate) fn push_state(out: &mut String, state: JobState) -> Result<(), AllocError>
    ensures { OnOk result (string_bytes out.new ≡ string_bytes out.old ++ texts.tabbed_state state) }
{
    out.push_str(state.name())?;
    out.push_str("\t")
}

/// Writes slots, the moment of submission, and the seconds that the job waited.
pub(crate) fn push_times(
    out: &mut String,
    slots: Option<u32>,
    submitted: Moment,
    waited: u64,
) -> Result<(), AllocError>
    ensures { OnOk result (string_bytes out.new ≡ string_bytes out.old ++ texts.times_text slots submitted waited) }
{
    let mut digits = Buffer::new();
    push_slots(out, slots)?;
    out.push_str("\t")?;
    out.push_str(digits.format(submitted.number()))?;
    out.push_str("\t")?;
    out.push_str(digits.format(waited))?;
    out.push_str("\t")
}

/// Writes the seconds of its last launch, its exit, and its note.
fn push_ends(out: &mut String, info: &JobInfo) -> Result<(), AllocError>
    ensures { OnOk result (string_bytes out.new ≡ string_bytes out.old ++ texts.ends_text info.now) }
{
    push_number(out, info.wallclock)?;
    out.push_str("\t")?;
    push_exit(out, info.exit)?;
    out.push_str("\t")?;
    out.push_str(noted(info.note))?;
    out.push_str("\n")
}

/// Writes the row of a kept job.
pub(crate) fn push_row(
    out: &mut String,
    alloc: Global,
    now: Moment,
    info: &JobInfo,
) -> Result<(), AllocError>
    ensures { OnOk result (string_bytes out.new ≡ string_bytes out.old ++ texts.job_row now info.now) }
{
    push_names(
        out,
        alloc,
        info.job.0 as u128,
        info.session.as_ref(),
        info.name.as_ref(),
    )?;
    push_state(out, info.state)?;
    push_times(out, info.slots, info.submitted, waited(now, info))?;
    push_ends(out, info)
}
