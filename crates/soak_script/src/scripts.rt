//! The whole script.
ghost use Rattle.std.specs.Prelude.{◌≡◌, ◌++◌, ◌<◌, ◌≤◌, nat_lt, if◌then◌else◌, IfOk, OnOk, string_bytes};
ghost use Rattle.text_lines.specs.Lines.{ended};
ghost use Rattle.soak_script.specs.Draws as draws;
ghost use Rattle.soak_script.specs.Lines as lines;

use crate::draws::next_draw;
use crate::lines::{push_end, push_step, push_template};
use std::alloc::{AllocError, Global};

/// The machine, and the templates of runs.
const FIRST_LINES: &str = "machine 128 \"soak\" suspend
template a
command \"true\"
limit WALLCLOCK_TIME 25
end
template b
command \"true\"
minslots 2
priority 1
limit WALLCLOCK_TIME 100
end
template c
command \"true\"
minslots 4
limit WALLCLOCK_TIME 1000
end
";

/// The client opens its sessions.
const CLIENT_LINES: &str = "client
create-jobs s \"s\"
create-reservations q \"q\"
";

/// How many bytes the lines of a step have, about.
const STEP_BYTES: usize = 96;

/// After how many steps a run is ended.
const LASTING: u64 = 50;

/// Writes the templates of the reservations of so many steps.
fn push_templates(out: &mut String, steps: u64, seed: u64) -> Result<(), AllocError>
    requires steps { steps ≤ 100_000 }
    requires seed { seed < 2_147_483_648 }
    ensures { OnOk result (string_bytes out.new ≡ string_bytes out.old ++ ended (lines.for_each (lines.template_lines seed) steps)) }
{
    let mut draw = seed;
    for before in 0..steps {
        draw = next_draw(draw);
        push_template(out, before + 1, draw)?;
    }
    Ok(())
}

/// Writes the end of the step fifty steps before, if there is one, and gives the draw of that step; `draw` is the one before.
fn push_ended(out: &mut String, step: u64, draw: u64) -> Result<u64, AllocError>
    requires { draw < 2_147_483_648 }
    ensures text { IfOk result (λ next. string_bytes out.new ≡ string_bytes out.old ++ ended (lines.ended_lines step next)) }
    ensures next { IfOk result (λ next. next ≡ (if nat_lt 50 step then draws.next_draw draw else draw)) }
    ensures small { IfOk result (λ next. next < 2_147_483_648) }
{
    if step <= LASTING {
        return Ok(draw);
    }
    let next = next_draw(draw);
    push_end(out, step - LASTING, next)?;
    Ok(next)
}

/// Writes the lines of so many steps.
fn push_steps(out: &mut String, steps: u64, seed: u64) -> Result<(), AllocError>
    requires steps { steps ≤ 100_000 }
    requires seed { seed < 2_147_483_648 }
    ensures { OnOk result (string_bytes out.new ≡ string_bytes out.old ++ ended (lines.for_each (lines.step_lines seed) steps)) }
{
    let mut draw = seed;
    let mut ended_draw = seed;
    for before in 0..steps {
        draw = next_draw(draw);
        push_step(out, before + 1, draw)?;
        ended_draw = push_ended(out, before + 1, ended_draw)?;
    }
    Ok(())
}

/// The whole script.
fn whole(alloc: Global, steps: u64, seed: u64) -> Result<String, AllocError>
    requires steps { steps ≤ 100_000 }
    requires seed { seed < 2_147_483_648 }
    ensures { IfOk result (λ text. string_bytes text ≡ lines.soak_text steps seed) }
{
    let mut out = String::with_capacity(alloc, 512 + STEP_BYTES * steps as usize)?;
    out.push_str(FIRST_LINES)?;
    push_templates(&mut out, steps, seed)?;
    out.push_str(CLIENT_LINES)?;
    push_steps(&mut out, steps, seed)?;
    out.push_str("end\n")?;
    Ok(out)
}

/// The script of a soak of so many steps, which the draws from a seed decide.
///
/// # Errors
///
/// Want of memory.
pub fn soak_script(alloc: Global, steps: u32, seed: u32) -> Result<String, AllocError>
    requires steps { steps ≤ 100_000 }
    requires seed { seed ≤ 2_147_483_647 }
    ensures { IfOk result (λ text. string_bytes text ≡ lines.soak_text steps seed) }
{
    whole(alloc, u64::from(steps), u64::from(seed))
}
