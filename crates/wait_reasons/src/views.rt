//! Why each job that waits is not launched.
ghost use Rattle.std.specs.Prelude.{◌≡◌, ◌++◌, IfOk, OnOk, string_bytes};
ghost use Rattle.std.specs.List.{flat_map};
ghost use Rattle.drmaa_model.specs.History.{now_of};
ghost use Rattle.wait_reasons.specs.Sums.{IsKnown};
ghost use Rattle.wait_reasons.specs.Texts as texts;

use crate::finding::reasons_with;
use crate::printed::push_reasons;
use crate::sums::Known;
use drmaa_machine::Machine;
use drmaa_model::Row;
use drmaa_types::Text;
use itoa::Buffer;
use plan_book::states::is_waiting;
use std::alloc::{AllocError, Global};

/// Writes the line of a job that waits.
#[tactic(auto, unfolding(crate::specs::Texts::waiting_line))]
fn push_waiting(
    out: &mut String,
    alloc: Global,
    machine: &Machine,
    row: &Row,
    known: &mut Known,
) -> Result<(), AllocError>
    requires known { IsKnown (now_of machine.now.ledger).plan.rows known.old }
    ensures text { OnOk result (string_bytes out.new ≡ string_bytes out.old ++ texts.waiting_line (now_of machine.now.ledger).plan row.now) }
    ensures known { IsKnown (now_of machine.now.ledger).plan.rows known.new }
{
    let mut digits = Buffer::new();
    let reasons = reasons_with(alloc, machine, row, known)?;
    out.push_str(digits.format(row.job.0))?;
    out.push_str("\t")?;
    push_reasons(out, alloc, machine.queues(), &reasons)?;
    out.push_str("\n")
}

/// Writes the line of a job, where it waits.
fn push_job(
    out: &mut String,
    alloc: Global,
    machine: &Machine,
    row: &Row,
    known: &mut Known,
) -> Result<(), AllocError>
    requires known { IsKnown (now_of machine.now.ledger).plan.rows known.old }
    ensures text { OnOk result (string_bytes out.new ≡ string_bytes out.old ++ texts.job_line (now_of machine.now.ledger).plan row.now) }
    ensures known { IsKnown (now_of machine.now.ledger).plan.rows known.new }
{
    if is_waiting(row.course.state) {
        push_waiting(out, alloc, machine, row, known)
    } else {
        Ok(())
    }
}

/// The same for each of these jobs.
fn push_jobs(
    out: &mut String,
    alloc: Global,
    machine: &Machine,
    rows: &[Row],
    known: &mut Known,
) -> Result<(), AllocError>
    requires known { IsKnown (now_of machine.now.ledger).plan.rows known.old }
    ensures text { OnOk result (string_bytes out.new ≡ string_bytes out.old ++ flat_map (texts.job_line (now_of machine.now.ledger).plan) rows.now) }
    ensures known { IsKnown (now_of machine.now.ledger).plan.rows known.new }
{
    for row in rows {
        push_job(out, alloc, machine, row, known)?;
    }
    Ok(())
}

/// The text that tells why each job that waits is not launched, for the machine as it is: a line for each, by number, with its
/// reasons or `ready`.
///
/// # Errors
///
/// Want of memory.
pub fn print_why(alloc: Global, machine: &Machine) -> Result<Text, AllocError>
    ensures { IfOk result (λ text. text ≡ texts.why_text (now_of machine.now.ledger).plan) }
{
    let mut out = String::new(alloc);
    let mut known = Known::new();
    for block in machine.blocks() {
        push_jobs(&mut out, alloc, machine, &block[..], &mut known)?;
    }
    Ok(Text::from_string(out))
}
