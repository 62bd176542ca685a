//! The machine as a value that keeps a history, so that a lock can be put round it.
use crate::machines::Machine;
use drmaa_model::{Call, Config, NoEntry, Reply};
use drmaa_types::{CallerId, Chronicle, Moment};

/// What a machine is asked: a call, and the moment that it is made at.
#[derive(Drop)]
pub struct Ask {
    pub at: Moment,
    pub call: Call,
}

impl Chronicle for Machine {
    ghost use Rattle.std.specs.Prelude.{map};
    ghost use Rattle.drmaa_machine.specs.Chronicles.{told, recorded_ask, IsLegalTold, FailsTold};

    type Ask = Ask;

    type Answer = Reply;

    type Fault = NoEntry;

    type Fixed = Config;

    ghost entries = { λ m. map told m.ledger.history };

    ghost fixed = { λ m. m.ledger.config };

    ghost kept = { recorded_ask };

    ghost legal = { IsLegalTold };

    ghost fails = { FailsTold };

    /// Serves the call at its moment, as `Machine::apply`.
    fn act(&mut self, caller: CallerId, ask: Ask) -> Result<Reply, NoEntry> {
        let Ask { at, call } = ask;
        self.apply(caller, at, call)
    }
}
