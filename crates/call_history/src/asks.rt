//! Calls that are always answered: their reply, or why they are refused.
ghost use Rattle.std.specs.Prelude.{◌≡◌, ◌≢◌, IfOk, IfErr, true};
ghost use Rattle.drmaa_model.specs.History.{IsLegal};
ghost use Rattle.drmaa_model.specs.ReplyKinds.{kind_of_call, kind_of_reply, a_refusal};
ghost use Rattle.turn_lock.specs.Tokens.{IsFree};
ghost use Rattle.call_history.specs.Clients.{seen_of, number_of, KnowsItsOwn, StaysAt};
ghost use Rattle.call_history.specs.Clocks.{dial};
ghost use Rattle.call_history.specs.Calls.{IsServed};
ghost use Rattle.call_history.specs.Refused.{IsRefused, is_answered};

use crate::desks::Desk;
use crate::told::Told;
use drmaa_machine::{Call, Reply};
use drmaa_types::{Clock, Refusal};
use std::sync::Wait;

impl<'a, C: Clock> Desk<'a, C> {
    /// What the reply to a call tells. The call neither waits nor asks for a launch or a signal.
    ///
    /// # Errors
    ///
    /// The refusal of its one entry; or, with no entry, want of memory, or a journal that would be too large.
    pub fn ask_for<R: Wait, T: Told>(&mut self, rt: &R, call: Call) -> Result<T, Refusal>
        requires client { IsFree self.old.shared.now self.old.client }
        requires kind { kind_of_call call ≡ T.kind }
        requires answered { is_answered T.kind ≡ true }
        ensures desk { StaysAt self.old.shared.now self.old.client self.new.shared.now self.new.client }
        ensures ok { IfOk result (λ told. IsServed (dial (C.given self.old.clock) (C.least self.old.clock)) self.old.client call (T.as_reply told)
            (dial (C.given self.new.clock) (C.least self.new.clock)) self.new.client) }
        ensures err { IfErr result (λ why. IsRefused self.old.shared.now.fixed (dial (C.given self.old.clock) (C.least self.old.clock)) self.old.client call why
            (dial (C.given self.new.clock) (C.least self.new.clock)) self.new.client) }
    {
        match self.ask(rt, call) {
            Ok(reply) => match T::of(reply) {
                Some(told) => Ok(told),
                None => Err(Refusal::OutOfMemory),
            },
            Err(why) => Err(why),
        }
    }

    /// The reply to a call that neither waits nor asks for a launch or a signal. It is of the call's own kind.
    ///
    /// # Errors
    ///
    /// The refusal of its one entry; or, with no entry, want of memory, or a journal that would be too large.
    pub fn ask<R: Wait>(&mut self, rt: &R, call: Call) -> Result<Reply, Refusal>
        requires client { IsFree self.old.shared.now self.old.client }
        requires answered { is_answered (kind_of_call call) ≡ true }
        ensures shared { self.new.shared.now ≡ self.old.shared.now }
        ensures client { IsFree self.old.shared.now self.new.client }
        ensures number { number_of self.new.client ≡ number_of self.old.client }
        ensures ok { IfOk result (λ reply. IsServed (dial (C.given self.old.clock) (C.least self.old.clock)) self.old.client call reply
            (dial (C.given self.new.clock) (C.least self.new.clock)) self.new.client) }
        ensures kind { IfOk result (λ reply. kind_of_reply reply ≡ kind_of_call call) }
        ensures err { IfErr result (λ why. IsRefused self.old.shared.now.fixed (dial (C.given self.old.clock) (C.least self.old.clock)) self.old.client call why
            (dial (C.given self.new.clock) (C.least self.new.clock)) self.new.client) }
        ensures own { KnowsItsOwn self.new.client }
        ensures legal { IsLegal self.old.shared.now.fixed (seen_of self.new.client) }
    {
        match self.call(rt, call) {
            Ok(reply) => unrefused(reply),
            Err(fault) => Err(Refusal::from(fault)),
        }
    }
}

/// The reply, or the refusal that it is.
fn unrefused(reply: Reply) -> Result<Reply, Refusal>
    ensures ok { IfOk result (λ told. told ≡ reply) }
    ensures kind { IfOk result (λ told. kind_of_reply told ≢ a_refusal) }
    ensures err { IfErr result (λ why. reply ≡ Reply.Refused why) }
{
    match reply {
        Reply::Refused(why) => Err(why),
        told => Ok(told),
    }
}
