//! What one thread works with.
ghost use Rattle.std.specs.Prelude.{◌≡◌, ℕ, [], IfOk, IfErr, Err};
ghost use Rattle.drmaa_model.specs.History.{IsLegal};
ghost use Rattle.turn_lock.specs.Histories.{BeginsWith};
ghost use Rattle.turn_lock.specs.Tokens.{IsFree};
ghost use Rattle.call_history.specs.Clients.{seen_of, mine_of, number_of, KnowsItsOwn};
ghost use Rattle.call_history.specs.Clocks.{dial};
ghost use Rattle.call_history.specs.Calls.{IsServed, IsUnserved, IsLookedAt, IsTriedInVain};
ghost use Rattle.call_history.specs.Timed.{begun_in, StaysTimed};

use crate::bells::{Bell, News};
use crate::machines::{Client, SharedMachine};
use crate::tries::TryFault;
use drmaa_machine::{Answer, Call, NoEntry, Question, Reply};
use drmaa_types::Clock;
use std::sync::Wait;

/// What one thread works with: the machine, its client, its clock, and the bell that it shares with others.
#[derive(Drop)]
pub struct Desk<'a, C: Clock> {
    pub shared: &'a SharedMachine,
    pub client: Client,
    pub clock: C,
    pub bell: &'a Bell,
}

impl<'a, C: Clock> Desk<'a, C> {
    /// Serves a call, as `SharedMachine::call`, and rings the bell after an entry that may bring something to those who rest.
    ///
    /// # Errors
    ///
    /// As the machine answers; then there is no entry.
    pub fn call<R: Wait>(&mut self, rt: &R, call: Call) -> Result<Reply, NoEntry>
        requires { IsFree self.old.shared.now self.old.client }
        ensures shared { self.new.shared.now ≡ self.old.shared.now }
        ensures client { IsFree self.old.shared.now self.new.client }
        ensures number { number_of self.new.client ≡ number_of self.old.client }
        ensures ok { IfOk result (λ reply. IsServed (dial (C.given self.old.clock) (C.least self.old.clock)) self.old.client call reply
            (dial (C.given self.new.clock) (C.least self.new.clock)) self.new.client) }
        ensures err { IfErr result (λ why. IsUnserved self.old.shared.now.fixed (dial (C.given self.old.clock) (C.least self.old.clock)) self.old.client call why
            (dial (C.given self.new.clock) (C.least self.new.clock)) self.new.client) }
        ensures own { KnowsItsOwn self.new.client }
        ensures legal { IsLegal self.old.shared.now.fixed (seen_of self.new.client) }
        ensures begins { BeginsWith (seen_of self.new.client) (seen_of self.old.client) }
        ensures timed { begun_in call ≡ [] → StaysTimed (mine_of self.old.client) (C.given self.old.clock) (mine_of self.new.client) (C.given self.new.clock) }
    {
        let news = News::of(&call);
        let served = self
            .shared
            .call(rt, &mut self.client, &mut self.clock, call);
        self.bell.ring(rt, news.behind(&served));
        served
    }

    /// Serves a call without waiting, as `SharedMachine::try_call`. The bell does not ring, since that may wait.
    ///
    /// # Errors
    ///
    /// `Busy` where another client had the turn; else as the machine answers, with no entry.
    pub fn try_call(&mut self, call: Call) -> Result<Reply, TryFault>
        requires { IsFree self.old.shared.now self.old.client }
        ensures shared { self.new.shared.now ≡ self.old.shared.now }
        ensures client { IsFree self.old.shared.now self.new.client }
        ensures number { number_of self.new.client ≡ number_of self.old.client }
        ensures ok { IfOk result (λ reply. IsServed (dial (C.given self.old.clock) (C.least self.old.clock)) self.old.client call reply
            (dial (C.given self.new.clock) (C.least self.new.clock)) self.new.client) }
        ensures err { IfErr result (λ why. IsTriedInVain self.old.shared.now.fixed (dial (C.given self.old.clock) (C.least self.old.clock)) self.old.client call
            (dial (C.given self.new.clock) (C.least self.new.clock)) self.new.client why) }
        ensures unread { (served drawn : ℕ) → result ≡ Err (TryFault.Busy served drawn) → self.new.clock ≡ self.old.clock }
        ensures own { KnowsItsOwn self.new.client }
        ensures legal { IsLegal self.old.shared.now.fixed (seen_of self.new.client) }
    {
        self.shared
            .try_call(&mut self.client, &mut self.clock, call)
    }

    /// Answers a question, as `SharedMachine::look`.
    pub fn look<R: Wait>(&mut self, rt: &R, question: Question) -> Answer
        requires { IsFree self.old.shared.now self.old.client }
        ensures shared { self.new.shared.now ≡ self.old.shared.now }
        ensures client { IsFree self.old.shared.now self.new.client }
        ensures number { number_of self.new.client ≡ number_of self.old.client }
        ensures answer { IsLookedAt self.old.shared.now.fixed (dial (C.given self.old.clock) (C.least self.old.clock)) self.old.client question result
            (dial (C.given self.new.clock) (C.least self.new.clock)) self.new.client }
        ensures own { KnowsItsOwn self.new.client }
        ensures legal { IsLegal self.old.shared.now.fixed (seen_of self.new.client) }
        ensures timed { StaysTimed (mine_of self.old.client) (C.given self.old.clock) (mine_of self.new.client) (C.given self.new.clock) }
    {
        self.shared
            .look(rt, &mut self.client, &mut self.clock, question)
    }
}
