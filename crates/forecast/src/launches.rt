//! Jobs are launched as long as one can be.
ghost use Rattle.std.specs.Prelude.{◌≡◌, ◌+◌, ◌≤◌, ℕ, List, [], ◌∷◌, ◌++◌, Err, OnOk, length};
ghost use Rattle.drmaa_model.specs.History.{Ledger, now_of};
ghost use Rattle.forecast.specs.declared.predictions.Predicted.{Predicted};
ghost use Rattle.forecast.specs.Runs.{IsEnded, IsOver, TellsOf};
ghost use Rattle.forecast.specs.Starts.{IsFull};

use crate::{ForecastFault, Predicted};
use drmaa_machine::Machine;
use drmaa_model::{Call, NoEntry, Reply};
use drmaa_types::{CallerId, Moment};

/// What becomes of one launch more.
enum Tried {
    Launched(Predicted),
    Nothing,
    OutOfMemory,
    Full(u64),
}

/// What the answer to a launch tells.
fn told_of(at: Moment, answer: Result<Reply, NoEntry>) -> Tried
    ensures launched { (start : Predicted) → result ≡ Tried.Launched start → TellsOf at answer start }
    ensures nothing { result ≡ Tried.Nothing → answer ≡ Err NoEntry.Nothing }
    ensures full { (n : ℕ) → result ≡ Tried.Full n → answer ≡ Err (NoEntry.Journal n) }
{
    match answer {
        Ok(Reply::Launch(launch)) => Tried::Launched(Predicted {
            job: launch.job,
            at,
            slots: launch.slots,
        }),
        Ok(_) => Tried::OutOfMemory,
        Err(NoEntry::Nothing) => Tried::Nothing,
        Err(NoEntry::Journal { size }) => Tried::Full(size),
        Err(_) => Tried::OutOfMemory,
    }
}

/// The next job is launched now, if one can be.
fn launch_one(machine: &mut Machine, at: Moment) -> Tried
    ensures launched { (start : Predicted) → result ≡ Tried.Launched start →
        (first : Ledger) (foretold : List Predicted) → IsEnded at first machine.old.ledger foretold → IsEnded at first machine.new.ledger (foretold ++ start ∷ []) }
    ensures nothing { result ≡ Tried.Nothing → (first : Ledger) (foretold : List Predicted) →
        IsEnded at first machine.old.ledger foretold → IsOver at first machine.new.ledger foretold }
    ensures full { (n : ℕ) → result ≡ Tried.Full n → (first : Ledger) (foretold : List Predicted) →
        IsEnded at first machine.old.ledger foretold → IsFull (now_of first) n }
    ensures grows { (start : Predicted) → result ≡ Tried.Launched start →
        length machine.new.ledger.history ≡ length machine.old.ledger.history + 1 }
    ensures few { length machine.new.ledger.history ≤ 4_000_000 }
{
    let answer = machine.apply(CallerId(0), at, Call::TakeLaunch);
    told_of(at, answer)
}

/// Jobs are launched now until none can be; their starts are told.
///
/// # Errors
///
/// `Journal` with the size that the journal would have with one launch more, where that is above the greatest; and want of
/// memory.
pub fn launch_all(
    machine: &mut Machine,
    at: Moment,
    starts: &mut Vec<Predicted>,
) -> Result<(), ForecastFault>
    ensures ok { OnOk result ((first : Ledger) →
        IsEnded at first machine.old.ledger starts.old.items → IsOver at first machine.new.ledger starts.new.items) }
    ensures full { (n : ℕ) → result ≡ Err (ForecastFault.Journal n) → (first : Ledger) →
        IsEnded at first machine.old.ledger starts.old.items → IsFull (now_of first) n }
{
    'launches: loop {
        match launch_one(machine, at) {
            Tried::Launched(start) => match starts.push(start) {
                Ok(()) => {}
                Err(_) => return Err(ForecastFault::OutOfMemory),
            },
            Tried::Nothing => return Ok(()),
            Tried::OutOfMemory => return Err(ForecastFault::OutOfMemory),
            Tried::Full(size) => return Err(ForecastFault::Journal { size }),
        }
    }
}
