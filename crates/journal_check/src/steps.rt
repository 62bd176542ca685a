//! One entry, replayed by the machine that has made those before it.
ghost use Rattle.std.specs.Prelude.{◌≡◌, None};
ghost use Rattle.drmaa_model.specs.RecordedCalls.{recorded};
ghost use Rattle.journal_check.specs.Findings.{Finds, Compares};

use drmaa_machine::Machine;
use drmaa_model::{Entry, NoEntry, Reply};
use drmaa_types::Same;

/// What a machine makes of an entry.
#[derive(Drop)]
pub(crate) enum Finding {
    /// It is a step, which the machine has made.
    Step,
    /// It is none: its reply, and the one that the machine gives in its place.
    Fault {
        given: Reply,
        machine: Option<Reply>,
    },
    /// Memory ran out.
    OutOfMemory,
}

/// Makes the call of an entry, and compares the machine's reply with the entry's.
pub(crate) fn replay(machine: &mut Machine, entry: Entry) -> Finding
    requires { recorded entry.call ≡ entry.call }
    ensures { Finds machine.old.ledger entry result machine.new.ledger }
{
    let Entry {
        caller,
        at,
        call,
        reply,
    } = entry;
    match machine.apply(caller, at, call) {
        Ok(own) => compared(reply, own),
        Err(NoEntry::OutOfMemory) => Finding::OutOfMemory,
        Err(NoEntry::NotYet) => unanswered(reply),
        Err(NoEntry::Nothing) => unanswered(reply),
        Err(NoEntry::Journal { .. }) => unanswered(reply),
    }
}

/// What it comes to that the machine makes no entry.
fn unanswered(given: Reply) -> Finding
    ensures { result ≡ Finding.Fault given None }
{
    Finding::Fault {
        given,
        machine: None,
    }
}

/// What two replies to one call come to.
fn compared(given: Reply, own: Reply) -> Finding
    ensures { Compares given own result }
{
    if given.is_same(&own) {
        Finding::Step
    } else {
        Finding::Fault {
            given,
            machine: Some(own),
        }
    }
}
