//! The forecast, from event to event.
ghost use Rattle.std.specs.Prelude.{◌≡◌, ℕ, Err, IfOk};
ghost use Rattle.drmaa_model.specs.History.{now_of};
ghost use Rattle.forecast.specs.Starts.{AreForetold, IsFull};

use crate::ends::end_asked;
use crate::launches::launch_all;
use crate::{ForecastFault, PredictedList};
use drmaa_machine::Machine;
use drmaa_types::{ListOf, Moment};
use std::alloc::Global;

/// When the jobs that wait would start, if each child ended with code 0 at the moment at which time or a caller has asked for
/// its kill, and nobody called: each start with its job, its moment and its slots, in order. What real children do is not
/// forecast. A job that is never to start is not told. The machine is used up.
///
/// # Errors
///
/// `Journal` with the size that the journal would have with one launch more, where that is above the greatest; and want of
/// memory.
pub fn forecast(alloc: Global, mut machine: Machine) -> Result<PredictedList, ForecastFault>
    ensures ok { IfOk result (λ starts. AreForetold (now_of machine.ledger) starts) }
    ensures full { (size : ℕ) → result ≡ Err (ForecastFault.Journal size) → IsFull (now_of machine.ledger) size }
{
    let mut starts = Vec::new(alloc);
    let mut at = machine.moment();
    'moments: loop {
        end_asked(&mut machine, at);
        match launch_all(&mut machine, at, &mut starts) {
            Ok(()) => {}
            Err(fault) => return Err(fault),
        }
        match machine.next_event(at) {
            Some(next) => at = next,
            None => return Ok(ListOf::from_vec(starts)),
        }
    }
}
