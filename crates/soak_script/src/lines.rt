//! The lines of a step.
ghost use Rattle.std.specs.Prelude.{◌≡◌, ◌∷◌, ◌++◌, ◌≤◌, [], codes, decimal, OnOk, string_bytes};
ghost use Rattle.text_lines.specs.Lines.{ended};
ghost use Rattle.soak_script.specs.Lines as lines;

use crate::draws::template_of;
use itoa::Buffer;
use std::alloc::AllocError;

/// Writes a number behind a text.
fn push_number(out: &mut String, front: &str, number: u64) -> Result<(), AllocError>
    ensures { OnOk result (string_bytes out.new ≡ string_bytes out.old ++ (front.now ++ decimal number)) }
{
    let mut digits = Buffer::new();
    out.push_str(front)?;
    out.push_str(digits.format(number))
}

/// Writes the line of a run by this template.
fn push_run(out: &mut String, step: u64, template: &str) -> Result<(), AllocError>
    ensures { OnOk result (string_bytes out.new ≡ string_bytes out.old ++ ended (lines.run_line step template.now ∷ [])) }
{
    push_number(out, "run j", step)?;
    out.push_str(" s ")?;
    out.push_str(template)?;
    out.push_str("\n")?;
    Ok(())
}

/// Writes the line of a reservation.
fn push_reserve(out: &mut String, step: u64) -> Result<(), AllocError>
    ensures { OnOk result (string_bytes out.new ≡ string_bytes out.old ++ ended (lines.reserve_line step ∷ [])) }
{
    push_number(out, "reserve r", step)?;
    push_number(out, " q x", step)?;
    out.push_str("\n")?;
    Ok(())
}

/// Writes what a step of this draw does.
fn push_act(out: &mut String, step: u64, draw: u64) -> Result<(), AllocError>
    ensures { OnOk result (string_bytes out.new ≡ string_bytes out.old ++ ended (lines.step_line step draw ∷ [])) }
{
    match template_of(draw) {
        Some(template) => push_run(out, step, template),
        None => push_reserve(out, step),
    }
}

/// Writes the lines of a step, without those of the run that it ends.
pub(crate) fn push_step(out: &mut String, step: u64, draw: u64) -> Result<(), AllocError>
    requires { step ≤ 100_000 }
    ensures { OnOk result (string_bytes out.new
        ≡ string_bytes out.old ++ ended (lines.at_line step ∷ lines.step_line step draw ∷ codes "launch" ∷ [])) }
{
    push_number(out, "at @", 10 * step)?;
    out.push_str("\n")?;
    push_act(out, step, draw)?;
    out.push_str("launch\n")?;
    Ok(())
}

/// Writes the lines of the end of a run.
fn push_end_lines(out: &mut String, step: u64) -> Result<(), AllocError>
    ensures { OnOk result (string_bytes out.new ≡ string_bytes out.old ++ ended (lines.end_lines step)) }
{
    push_number(out, "exit j", step)?;
    push_number(out, " 0\nterminate s j", step)?;
    push_number(out, "\nreap s j", step)?;
    out.push_str("\n")?;
    Ok(())
}

/// Writes the lines of the end of a step, if it is a run.
pub(crate) fn push_end(out: &mut String, step: u64, draw: u64) -> Result<(), AllocError>
    ensures { OnOk result (string_bytes out.new ≡ string_bytes out.old ++ ended (lines.end_of step draw)) }
{
    match template_of(draw) {
        Some(_) => push_end_lines(out, step),
        None => Ok(()),
    }
}

/// Writes the template of a reservation.
fn push_reservation_lines(out: &mut String, step: u64) -> Result<(), AllocError>
    requires { step ≤ 100_000 }
    ensures { OnOk result (string_bytes out.new ≡ string_bytes out.old ++ ended (lines.reservation_lines step)) }
{
    push_number(out, "rtemplate x", step)?;
    push_number(out, "\nstart @", 10 * step)?;
    push_number(out, "\nend @", 10 * step + 100_000)?;
    out.push_str("\nduration 500\nminslots 8\nend\n")?;
    Ok(())
}

/// Writes the template of a step's reservation, if it is one.
pub(crate) fn push_template(out: &mut String, step: u64, draw: u64) -> Result<(), AllocError>
    requires { step ≤ 100_000 }
    ensures { OnOk result (string_bytes out.new ≡ string_bytes out.old ++ ended (lines.reservation_of step draw)) }
{
    match template_of(draw) {
        Some(_) => Ok(()),
        None => push_reservation_lines(out, step),
    }
}
