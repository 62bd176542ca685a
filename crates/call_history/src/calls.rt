//! Calls and questions of clients: each waits for the turn, or tries to have it at once.
ghost use Rattle.std.specs.Prelude.{◌≡◌, ◌+◌, ℕ, IfOk, IfErr, OnOk, OnErr, length, Ok, Err};
ghost use Rattle.drmaa_model.specs.History.{IsLegal, now_of};
ghost use Rattle.drmaa_model.specs.RecordedCalls.{recorded};
ghost use Rattle.drmaa_machine.specs.Chronicles.{MakesNone};
ghost use Rattle.turn_lock.specs.Tokens.{IsFree, Together};
ghost use Rattle.call_history.specs.Clients.{seen_of, number_of, KnowsItsOwn, Makes, SeesMore};
ghost use Rattle.call_history.specs.Clocks.{dial};
ghost use Rattle.call_history.specs.Calls.{entry_by, IsServed, IsUnserved, IsLookedAt, IsBusy, IsTriedInVain};
ghost use Rattle.call_history.specs.Turns.{entries_of, config_of};

use crate::machines::{Client, SharedMachine};
use crate::tries::TryFault;
use drmaa_machine::{Answer, Ask, Call, Machine, NoEntry, Question, Reply};
use drmaa_types::{Clock, Moment};
use std::sync::Wait;
use turn_lock::{Busy, Turn};

impl SharedMachine {
    /// Serves a call: waits for the turn, reads the clock once in it, and makes one entry at that moment, after all that the
    /// client had seen.
    ///
    /// # Errors
    ///
    /// As the machine answers; then there is no entry.
    pub fn call<R: Wait, C: Clock>(
        &self,
        rt: &R,
        client: &mut Client,
        clock: &mut C,
        call: Call,
    ) -> Result<Reply, NoEntry>
        requires { IsFree self.now client.old }
        ensures client { IsFree self.now client.new }
        ensures number { number_of client.new ≡ number_of client.old }
        ensures ok { IfOk result (λ reply. IsServed (dial (C.given clock.old) (C.least clock.old)) client.old call reply
            (dial (C.given clock.new) (C.least clock.new)) client.new) }
        ensures err { IfErr result (λ why. IsUnserved self.now.fixed (dial (C.given clock.old) (C.least clock.old)) client.old call why
            (dial (C.given clock.new) (C.least clock.new)) client.new) }
        ensures own { KnowsItsOwn client.new }
        ensures legal { IsLegal self.now.fixed (seen_of client.new) }
    {
        let turn = self.lock.enter(rt, client);
        self.serve(turn, client, clock, call)
    }

    /// As `call`; tells the number of the entry too, counted from 1 over the machine's history.
    ///
    /// # Errors
    ///
    /// As the machine answers; then there is no entry.
    pub fn call_numbered<R: Wait, C: Clock>(
        &self,
        rt: &R,
        client: &mut Client,
        clock: &mut C,
        call: Call,
    ) -> Result<(u64, Reply), NoEntry>
        requires { IsFree self.now client.old }
        ensures client { IsFree self.now client.new }
        ensures number { number_of client.new ≡ number_of client.old }
        ensures ok { IfOk result (λ made. IsServed (dial (C.given clock.old) (C.least clock.old)) client.old call made.1
            (dial (C.given clock.new) (C.least clock.new)) client.new) }
        ensures numbered { IfOk result (λ made. made.0 ≡ length (seen_of client.new)) }
        ensures err { IfErr result (λ why. IsUnserved self.now.fixed (dial (C.given clock.old) (C.least clock.old)) client.old call why
            (dial (C.given clock.new) (C.least clock.new)) client.new) }
        ensures own { KnowsItsOwn client.new }
        ensures legal { IsLegal self.now.fixed (seen_of client.new) }
    {
        let turn = self.lock.enter(rt, client);
        let number = turn.value().entries().len() as u64 + 1;
        match self.serve(turn, client, clock, call) {
            Ok(reply) => Ok((number, reply)),
            Err(why) => Err(why),
        }
    }

    /// As `call`, without waiting for another client.
    ///
    /// # Errors
    ///
    /// `Busy` where another client had the turn: nothing has changed then, and the clock was not read. Else as the machine
    /// answers, with no entry.
    pub fn try_call<C: Clock>(
        &self,
        client: &mut Client,
        clock: &mut C,
        call: Call,
    ) -> Result<Reply, TryFault>
        requires { IsFree self.now client.old }
        ensures client { IsFree self.now client.new }
        ensures number { number_of client.new ≡ number_of client.old }
        ensures ok { IfOk result (λ reply. IsServed (dial (C.given clock.old) (C.least clock.old)) client.old call reply
            (dial (C.given clock.new) (C.least clock.new)) client.new) }
        ensures err { IfErr result (λ why. IsTriedInVain self.now.fixed (dial (C.given clock.old) (C.least clock.old)) client.old call
            (dial (C.given clock.new) (C.least clock.new)) client.new why) }
        ensures unread { (served drawn : ℕ) → result ≡ Err (TryFault.Busy served drawn) → clock.new ≡ clock.old }
        ensures own { KnowsItsOwn client.new }
        ensures legal { IsLegal self.now.fixed (seen_of client.new) }
    {
        match self.lock.try_enter(client) {
            Ok(turn) => tried(self.serve(turn, client, clock, call)),
            Err(Busy { served, drawn }) => {
                drop(call);
                Err(TryFault::Busy { served, drawn })
            }
        }
    }

    /// Answers a question at one reading of the clock, once the turn has come. It makes no entry, and takes memory for the name of a
    /// session alone.
    pub fn look<R: Wait, C: Clock>(
        &self,
        rt: &R,
        client: &mut Client,
        clock: &mut C,
        question: Question,
    ) -> Answer
        requires { IsFree self.now client.old }
        ensures client { IsFree self.now client.new }
        ensures number { number_of client.new ≡ number_of client.old }
        ensures answer { IsLookedAt self.now.fixed (dial (C.given clock.old) (C.least clock.old)) client.old question result
            (dial (C.given clock.new) (C.least clock.new)) client.new }
        ensures own { KnowsItsOwn client.new }
        ensures legal { IsLegal self.now.fixed (seen_of client.new) }
    {
        let turn = self.lock.enter(rt, client);
        self.look_in(turn, client, clock, question)
    }

    /// As `look`, without waiting for another client.
    ///
    /// # Errors
    ///
    /// Another client had the turn: nothing has changed then, and the clock was not read.
    pub fn try_look<C: Clock>(
        &self,
        client: &mut Client,
        clock: &mut C,
        question: Question,
    ) -> Result<Answer, Busy>
        requires { IsFree self.now client.old }
        ensures client { IsFree self.now client.new }
        ensures number { number_of client.new ≡ number_of client.old }
        ensures ok { IfOk result (λ answer. IsLookedAt self.now.fixed (dial (C.given clock.old) (C.least clock.old)) client.old question answer
            (dial (C.given clock.new) (C.least clock.new)) client.new) }
        ensures err { IfErr result (λ busy. IsBusy (dial (C.given clock.old) (C.least clock.old)) client.old busy.served busy.drawn
            (dial (C.given clock.new) (C.least clock.new)) client.new) }
        ensures unread { IfErr result (λ busy. clock.new ≡ clock.old) }
        ensures own { KnowsItsOwn client.new }
        ensures legal { IsLegal self.now.fixed (seen_of client.new) }
    {
        let turn = self.lock.try_enter(client)?;
        Ok(self.look_in(turn, client, clock, question))
    }

    /// Serves a call in the client's turn, which ends.
    fn serve<C: Clock>(
        &self,
        turn: Turn<Machine>,
        client: &mut Client,
        clock: &mut C,
        call: Call,
    ) -> Result<Reply, NoEntry>
        requires { Together entries_of config_of self.now client.old turn }
        ensures client { IsFree self.now client.new }
        ensures number { number_of client.new ≡ number_of client.old }
        ensures ok { IfOk result (λ reply. IsServed (dial (C.given clock.old) (C.least clock.old)) client.old call reply
            (dial (C.given clock.new) (C.least clock.new)) client.new) }
        ensures length { OnOk result (length (seen_of client.new) ≡ length turn.value.ledger.history + 1) }
        ensures err { IfErr result (λ why. IsUnserved self.now.fixed (dial (C.given clock.old) (C.least clock.old)) client.old call why
            (dial (C.given clock.new) (C.least clock.new)) client.new) }
        ensures own { KnowsItsOwn client.new }
        ensures legal { IsLegal self.now.fixed (seen_of client.new) }
    {
        let at = clock.now();
        self.act_at(turn, client, at, call)
    }

    /// Serves a call at this moment in the client's turn, which ends.
    pub(crate) fn act_at(
        &self,
        turn: Turn<Machine>,
        client: &mut Client,
        at: Moment,
        call: Call,
    ) -> Result<Reply, NoEntry>
        requires { Together entries_of config_of self.now client.old turn }
        ensures client { IsFree self.now client.new }
        ensures number { number_of client.new ≡ number_of client.old }
        ensures ok { IfOk result (λ reply. Makes client.old (entry_by (number_of client.old) at call reply) client.new) }
        ensures length { OnOk result (length (seen_of client.new) ≡ length turn.value.ledger.history + 1) }
        ensures err { OnErr result (SeesMore client.old client.new) }
        ensures same { OnErr result (seen_of client.new ≡ turn.value.ledger.history) }
        ensures fails { IfErr result (MakesNone (now_of turn.value.ledger) at (recorded call)) }
        ensures config { turn.value.ledger.config ≡ self.now.fixed }
        ensures own { KnowsItsOwn client.new }
        ensures legal { IsLegal self.now.fixed (seen_of client.new) }
    {
        turn.act(&self.lock, client, Ask { at, call })
    }

    /// Answers a question in the client's turn, which ends.
    fn look_in<C: Clock>(
        &self,
        turn: Turn<Machine>,
        client: &mut Client,
        clock: &mut C,
        question: Question,
    ) -> Answer
        requires { Together entries_of config_of self.now client.old turn }
        ensures client { IsFree self.now client.new }
        ensures number { number_of client.new ≡ number_of client.old }
        ensures answer { IsLookedAt self.now.fixed (dial (C.given clock.old) (C.least clock.old)) client.old question result
            (dial (C.given clock.new) (C.least clock.new)) client.new }
        ensures own { KnowsItsOwn client.new }
        ensures legal { IsLegal self.now.fixed (seen_of client.new) }
    {
        let at = clock.now();
        let answer = turn.value().look(at, question);
        turn.leave(&self.lock, client);
        answer
    }
}

/// What a try came to that had the turn.
fn tried<T>(served: Result<T, NoEntry>) -> Result<T, TryFault>
    ensures ok { IfOk served (λ told. result ≡ Ok told) }
    ensures err { IfErr served (λ why. result ≡ Err (TryFault.Not why)) }
{
    match served {
        Ok(told) => Ok(told),
        Err(why) => Err(TryFault::Not(why)),
    }
}
