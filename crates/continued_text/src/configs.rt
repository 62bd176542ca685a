//! Whether a script may still come to the machine and the queues of a journal.
ghost use Rattle.std.specs.Prelude.{◌≡◌};
ghost use Rattle.continued_text.specs.Configs as configs;

use drmaa_model::Config;
use drmaa_types::QueueSpec;

/// Whether two queues have one name and one limit.
fn is_same_queue(one: &QueueSpec, other: &QueueSpec) -> bool
    ensures { result ≡ configs.is_same_queue one.now other.now }
{
    one.name == other.name && one.limit == other.limit
}

/// Whether these queues are the first of those.
fn are_first(some: &[QueueSpec], all: &[QueueSpec]) -> bool
    ensures { result ≡ configs.are_first some.now all.now }
{
    let mut front = some;
    let mut rest = all;
    while let Some((one, others)) = front.split_first() {
        let Some((other, behind)) = rest.split_first() else {
            return false;
        };
        if !is_same_queue(one, other) {
            return false;
        }
        front = others;
        rest = behind;
    }
    true
}

/// Whether both are true, or neither.
fn is_same_answer(one: bool, other: bool) -> bool
    ensures { result ≡ configs.is_same_answer one other }
{
    if one { other } else { !other }
}

/// Whether two machines are one, their queues apart.
fn is_same_machine(one: &Config, other: &Config) -> bool
    ensures { result ≡ configs.is_same_machine one.now other.now }
{
    one.slots == other.slots
        && one.name == other.name
        && is_same_answer(one.suspend, other.suspend)
        && one.journal == other.journal
}

/// Whether the first machine is the second with the first of its queues.
pub(crate) fn is_begun(some: &Config, all: &Config) -> bool
    ensures { result ≡ configs.is_begun some.now all.now }
{
    is_same_machine(some, all) && are_first(some.queues.as_slice(), all.queues.as_slice())
}

/// Whether two machines have as many queues.
pub(crate) fn has_all_queues(some: &Config, all: &Config) -> bool
    ensures { result ≡ configs.has_all_queues some.now all.now }
{
    some.queues.as_slice().len() == all.queues.as_slice().len()
}
