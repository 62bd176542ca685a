//! The jobs of which a kill was asked end.
ghost use Rattle.std.specs.Prelude.{◌≡◌, ◌+◌, List, Some};
ghost use Rattle.std.specs.Option.{option_map};
ghost use Rattle.drmaa_model.specs.Events.{started_from, started_of};
ghost use Rattle.drmaa_model.specs.History.{Ledger, now_of};
ghost use Rattle.drmaa_model.specs.Time.{advance};
ghost use Rattle.forecast.specs.declared.predictions.Predicted.{Predicted};
ghost use Rattle.forecast.specs.Runs.{IsFresh, IsEnding, IsEnded};

use drmaa_machine::Machine;
use drmaa_model::{Call, Started};
use drmaa_types::{CallerId, Exit, JobId, Moment};

/// The first started job from this number on ends now, with code 0, where a kill of it was asked.
fn end_one(machine: &mut Machine, at: Moment, from: JobId, found: &Started)
    requires { Some found.now ≡
        option_map started_of (started_from from.0 (advance (now_of machine.old.ledger) at).plan.rows) }
    ensures ends { (first : Ledger) (foretold : List Predicted) → IsEnding at from.0 first machine.old.ledger foretold →
        IsEnding at (found.now.job.0 + 1) first machine.new.ledger foretold }
{
    if found.asked {
        let call = Call::Exited {
            job: found.job,
            attempt: found.attempt,
            exit: Exit::Code(0),
        };
        let _answer = machine.apply(CallerId(0), at, call);
    }
}

/// The started jobs of which a kill was asked end now, by number.
pub fn end_asked(machine: &mut Machine, at: Moment)
    ensures ends { (first : Ledger) (foretold : List Predicted) → IsFresh at first machine.old.ledger foretold →
        IsEnded at first machine.new.ledger foretold }
{
    let mut from = JobId(0);
    'jobs: while let Some(found) = machine.started(at, from) {
        // The history is legal, so that there is a number above this one.
        let next = JobId(found.job.0 + 1);
        end_one(machine, at, from, &found);
        from = next;
    }
}
