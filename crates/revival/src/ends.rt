//! The started jobs end, by number.
ghost use Rattle.std.specs.Prelude.{◌≡◌, ◌+◌, true, Some};
ghost use Rattle.drmaa_model.specs.History.{Ledger, IsLegal, now_of};
ghost use Rattle.drmaa_model.specs.RecordedCalls.{recorded};
ghost use Rattle.drmaa_machine.specs.Applying.{is_run_report};
ghost use Rattle.revival.specs.Stopping.{told_call, Finds, IsStopping, IsStopped};

use drmaa_machine::Machine;
use drmaa_model::{Call, Started};
use drmaa_types::{CallerId, Exit, JobId, Moment};

/// The report of the end of a started job whose process is gone: the exit code that asks to run it again, where it may be and
/// no kill of it was asked, and otherwise that its end can't be learnt.
fn end_of(found: &Started) -> Call
    ensures call { result ≡ told_call found.now }
    ensures recorded { recorded result ≡ result }
    ensures run { is_run_report result ≡ true }
{
    let Started { job, attempt, .. } = *found;
    if found.rerunnable && !found.asked {
        Call::Exited {
            job,
            attempt,
            exit: Exit::Code(99),
        }
    } else {
        Call::ExitUnknown { job, attempt }
    }
}

/// The first started job from this number on ends now.
fn end_one(machine: &mut Machine, at: Moment, from: JobId, found: &Started)
    requires { Finds at from.0 machine.old.ledger (Some found.now) }
    ensures ends { (first : Ledger) → IsLegal first.config first.history → at ≡ (now_of first).plan.moment → IsStopping from.0 first machine.old.ledger →
        IsStopping (found.now.job.0 + 1) first machine.new.ledger }
{
    let _answer = machine.apply(CallerId(0), at, end_of(found));
}

/// The started jobs end at the machine's own moment, by number. Room for these reports was promised and their memory taken when
/// the jobs were launched, so that none of them is refused.
pub(crate) fn end_started(machine: &mut Machine)
    ensures ends { IsStopped machine.old.ledger machine.new.ledger }
{
    let at = machine.moment();
    let mut from = JobId(0);
    'jobs: while let Some(found) = machine.started(at, from) {
        // The history is legal, so that there is a number above this one.
        let next = JobId(found.job.0 + 1);
        end_one(machine, at, from, &found);
        from = next;
    }
}
