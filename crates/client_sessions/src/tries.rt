//! What a call that does not wait comes to: what its reply tells, and the refusal that stands for its fault.
ghost use Rattle.std.specs.Prelude.{◌≡◌, ◌≢◌, IfOk, IfErr};
ghost use Rattle.drmaa_model.specs.ReplyKinds.{kind_of_reply, a_state, a_refusal};
ghost use Rattle.client_sessions.specs.Tries.{IsRefusalOf};

use call_history::{Reply, TryFault};
use drmaa_types::{JobState, Refusal};

/// The state that the reply to a question for a state tells, or the refusal that it is.
pub(crate) fn state_told(reply: Reply) -> Result<JobState, Refusal>
    ensures ok { IfOk result (λ state. reply ≡ Reply.State state) }
    ensures kind { IfErr result (λ why. kind_of_reply reply ≢ a_state) }
    ensures err { IfErr result (λ why. kind_of_reply reply ≡ a_refusal → reply ≡ Reply.Refused why) }
{
    match &reply {
        Reply::State(state) => Ok(*state),
        Reply::Refused(why) => Err(*why),
        _ => Err(Refusal::OutOfMemory),
    }
}

/// The refusal that stands for a fault of a call that is always answered, but was not waited for.
pub(crate) fn refusal_at_once(fault: TryFault) -> Refusal
    ensures { IsRefusalOf fault result }
{
    match fault {
        TryFault::Busy { served, drawn } => Refusal::TryLater { served, drawn },
        TryFault::Not(fault) => Refusal::from(fault),
    }
}
