//! What an operation of the core has answered becomes replies, and an entry more. A refusal is a reply.
ghost use Rattle.std.specs.Prelude.{◌≡◌, ◌<◌};
ghost use Rattle.drmaa_model.specs.Effects.{unit};
ghost use Rattle.drmaa_model.specs.declared.replies.Reply.{Reply};
ghost use Rattle.machine_readings.specs.Stores.{world_of};
ghost use Rattle.machine_calls.specs.Runs.{told_of};
ghost use Rattle.machine_calls.specs.Serving.{AreBoth, Concludes, Keeps, reply_of};

use crate::replies::Replies;
use drmaa_model::{NoEntry, Submitted};
use drmaa_types::{Refusal, Reserved};
use machine_readings::Store;

/// Of an operation that tells nothing.
pub fn conclude(
    store: &mut Store,
    done: Result<Result<(), Refusal>, NoEntry>,
) -> Result<Replies, NoEntry>
    requires few { store.old.entries < 4_000_001 }
    ensures concludes { Concludes unit done (world_of store.old) result (world_of store.new) }
    ensures keeps { Keeps store.old store.new }
    ensures core { store.new.core ≡ store.old.core }
{
    match done {
        Ok(answer) => {
            store.entries += 1;
            Ok(unit_or_refused(answer))
        }
        Err(fault) => Err(fault),
    }
}

/// Of a reservation that was asked for.
pub fn conclude_reserved(
    store: &mut Store,
    done: Result<Result<Reserved, Refusal>, NoEntry>,
) -> Result<Replies, NoEntry>
    requires few { store.old.entries < 4_000_001 }
    ensures concludes { Concludes Reply.Reserved done (world_of store.old) result (world_of store.new) }
    ensures keeps { Keeps store.old store.new }
    ensures core { store.new.core ≡ store.old.core }
{
    match done {
        Ok(answer) => {
            store.entries += 1;
            Ok(reserved_or_refused(answer))
        }
        Err(fault) => Err(fault),
    }
}

/// Of a job or an array that was submitted.
pub fn conclude_submitted(
    store: &mut Store,
    done: Result<Result<Submitted, Refusal>, NoEntry>,
) -> Result<Replies, NoEntry>
    requires few { store.old.entries < 4_000_001 }
    ensures concludes { Concludes told_of done (world_of store.old) result (world_of store.new) }
    ensures keeps { Keeps store.old store.new }
    ensures core { store.new.core ≡ store.old.core }
{
    match done {
        Ok(answer) => {
            store.entries += 1;
            Ok(submitted_or_refused(answer))
        }
        Err(fault) => Err(fault),
    }
}

fn unit_or_refused(answer: Result<(), Refusal>) -> Replies
    ensures { AreBoth result (reply_of unit answer) }
{
    match answer {
        Ok(()) => Replies::unit(),
        Err(why) => Replies::refused(&why),
    }
}

fn reserved_or_refused(answer: Result<Reserved, Refusal>) -> Replies
    ensures { AreBoth result (reply_of Reply.Reserved answer) }
{
    match answer {
        Ok(reserved) => Replies::reserved(&reserved),
        Err(why) => Replies::refused(&why),
    }
}

fn submitted_or_refused(answer: Result<Submitted, Refusal>) -> Replies
    ensures { AreBoth result (reply_of told_of answer) }
{
    match answer {
        Ok(submitted) => replies_of(&submitted),
        Err(why) => Replies::refused(&why),
    }
}

/// The array with its first job and how many there are; or the one job.
fn replies_of(submitted: &Submitted) -> Replies
    ensures { AreBoth result (told_of submitted.now) }
{
    match submitted.array {
        Some(array) => Replies::array(array, submitted.first, submitted.count),
        None => Replies::job(submitted.first),
    }
}
