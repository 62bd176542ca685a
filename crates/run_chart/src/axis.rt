//! The round moments of the axis of time.
ghost use Rattle.std.specs.Prelude.{◌≡◌, ◌++◌, ◌<◌, IfOk, OnOk, option_to_list};
ghost use Rattle.run_chart.specs.Axes as axes;

use crate::scales::Scale;
use drmaa_types::Moment;
use std::alloc::{AllocError, Global};

/// The steps between two moments of an axis, in seconds, minutes, hours, days and years.
pub const STEPS: [u64; 24] = [
    1,
    2,
    5,
    10,
    20,
    60,
    120,
    300,
    600,
    1_200,
    3_600,
    7_200,
    14_400,
    43_200,
    86_400,
    172_800,
    432_000,
    864_000,
    2_592_000,
    7_776_000,
    31_536_000,
    315_360_000,
    3_153_600_000,
    20_000_000_000,
];

/// The first step that is at least so long, and 1 where there is none.
fn step_in(least: u64, steps: &[u64]) -> u64
    ensures value { result ≡ axes.step_in least steps.now }
{
    for step in steps {
        if least <= *step {
            return *step;
        }
    }
    1
}

/// The step of an axis: with it there are at most seven moments.
fn step_of(scale: &Scale) -> u64
    ensures value { result ≡ axes.step_of scale.now }
    ensures positive { 0 < result }
{
    let passed = scale.last.number().saturating_sub(scale.first.number());
    step_in(passed / 6 + 1, &STEPS).max(1)
}

/// The moment so many steps behind the first multiple of the step, where the axis has it.
#[tactic(auto, unfolding(crate::specs::Axes::moment_at))]
fn moment_at(scale: &Scale, step: u64, place: u8) -> Option<Moment>
    requires { 0 < step }
    ensures { result ≡ axes.moment_at scale.now step place }
{
    let first = scale.first.number();
    let over = first % step;
    let start = u128::from(first) + u128::from((step - over) % step);
    let at = start + u128::from(place) * u128::from(step);
    if at <= u128::from(scale.last.number()) {
        Moment::new(u64::try_from(at).ok()?)
    } else {
        None
    }
}

/// Adds a moment, where there is one.
fn push_moment(moments: &mut Vec<Moment>, moment: Option<Moment>) -> Result<(), AllocError>
    ensures { OnOk result (moments.new.items ≡ moments.old.items ++ option_to_list moment) }
{
    match moment {
        Some(moment) => {
            moments.push(moment)?;
            Ok(())
        }
        None => Ok(()),
    }
}

/// The moments of an axis.
#[tactic(auto, unfolding(crate::specs::Axes::moments_of))]
pub(crate) fn moments_of(alloc: Global, scale: &Scale) -> Result<Vec<Moment>, AllocError>
    ensures { IfOk result (λ moments. moments.items ≡ axes.moments_of scale.now) }
{
    let step = step_of(scale);
    let mut moments = Vec::new(alloc);
    let mut place = 0;
    'places: while place < 8 {
        push_moment(&mut moments, moment_at(scale, step, place))?;
        place += 1;
    }
    Ok(moments)
}
