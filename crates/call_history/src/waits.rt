//! One look of a wait.
ghost use Rattle.std.specs.Prelude.{◌≡◌, ◌≢◌, Err};
ghost use Rattle.drmaa_model.specs.declared.faults.NoEntry.{NoEntry};
ghost use Rattle.drmaa_model.specs.History.{IsLegal};
ghost use Rattle.turn_lock.specs.Tokens.{IsFree, Together};
ghost use Rattle.call_history.specs.Clients.{seen_of, number_of, KnowsItsOwn};
ghost use Rattle.call_history.specs.Clocks.{dial};
ghost use Rattle.call_history.specs.Looks.{IsLookOf};
ghost use Rattle.call_history.specs.Turns.{entries_of, config_of};

use crate::desks::Desk;
use crate::machines::{Client, SharedMachine};
use drmaa_machine::{Awaited, Machine, NoEntry, Reply};
use drmaa_types::Clock;
use std::sync::Wait;
use turn_lock::Turn;

/// What a look of a wait comes to.
#[derive(Drop)]
pub enum WaitLook {
    /// The wait is over: it was answered, or there was no memory or no room for its entry.
    Over(Result<Reply, NoEntry>),
    /// It is not over, and there is no entry: the wait back.
    NotYet(Awaited),
}

impl SharedMachine {
    /// Looks once, at one reading of the clock in the client's turn, whether a wait is over, and answers it if it is. The list of
    /// jobs is not copied. It waits for the turn alone.
    pub fn look_at_wait<R: Wait, C: Clock>(
        &self,
        rt: &R,
        client: &mut Client,
        clock: &mut C,
        awaited: Awaited,
    ) -> WaitLook
        requires { IsFree self.now client.old }
        ensures client { IsFree self.now client.new }
        ensures number { number_of client.new ≡ number_of client.old }
        ensures look { IsLookOf self.now.fixed (dial (C.given clock.old) (C.least clock.old)) client.old awaited
            (dial (C.given clock.new) (C.least clock.new)) client.new result }
        ensures decided { result ≢ WaitLook.Over (Err NoEntry.NotYet) }
        ensures own { KnowsItsOwn client.new }
        ensures legal { IsLegal self.now.fixed (seen_of client.new) }
    {
        let turn = self.lock.enter(rt, client);
        self.look_in_turn(turn, client, clock, awaited)
    }

    /// Looks in the client's turn, which ends.
    fn look_in_turn<C: Clock>(
        &self,
        turn: Turn<Machine>,
        client: &mut Client,
        clock: &mut C,
        awaited: Awaited,
    ) -> WaitLook
        requires { Together entries_of config_of self.now client.old turn }
        ensures client { IsFree self.now client.new }
        ensures number { number_of client.new ≡ number_of client.old }
        ensures look { IsLookOf self.now.fixed (dial (C.given clock.old) (C.least clock.old)) client.old awaited
            (dial (C.given clock.new) (C.least clock.new)) client.new result }
        ensures decided { result ≢ WaitLook.Over (Err NoEntry.NotYet) }
        ensures own { KnowsItsOwn client.new }
        ensures legal { IsLegal self.now.fixed (seen_of client.new) }
    {
        let at = clock.now();
        if turn.value().must_wait(at, &awaited) {
            turn.leave(&self.lock, client);
            return WaitLook::NotYet(awaited);
        }
        WaitLook::Over(self.act_at(turn, client, at, awaited.into_call()))
    }
}

impl<'a, C: Clock> Desk<'a, C> {
    /// Looks once whether a wait is over, as `SharedMachine::look_at_wait`. The bell does not ring after its entry, which brings
    /// others nothing but what time brings.
    pub fn look_at_wait<R: Wait>(&mut self, rt: &R, awaited: Awaited) -> WaitLook
        requires { IsFree self.old.shared.now self.old.client }
        ensures shared { self.new.shared.now ≡ self.old.shared.now }
        ensures client { IsFree self.old.shared.now self.new.client }
        ensures number { number_of self.new.client ≡ number_of self.old.client }
        ensures look { IsLookOf self.old.shared.now.fixed (dial (C.given self.old.clock) (C.least self.old.clock)) self.old.client awaited
            (dial (C.given self.new.clock) (C.least self.new.clock)) self.new.client result }
        ensures decided { result ≢ WaitLook.Over (Err NoEntry.NotYet) }
        ensures own { KnowsItsOwn self.new.client }
        ensures legal { IsLegal self.old.shared.now.fixed (seen_of self.new.client) }
    {
        self.shared
            .look_at_wait(rt, &mut self.client, &mut self.clock, awaited)
    }
}
