//! A play that is under way.
ghost use Rattle.std.specs.Prelude.{◌≡◌, ◌+◌, ◌≤◌, min, length, take};
ghost use Rattle.drmaa_types.specs.Moments.{greatest};
ghost use Rattle.script_play.specs.Callbacks.{number_in};

use crate::names::Names;
use drmaa_machine::Machine;
use drmaa_model::{Call, NoEntry, Reply};
use drmaa_types::{CallerId, Change, Moment};
use script_asks::{Attempts, ask};
use script_lines::Line;
use script_text::Script;
use std::alloc::{AllocError, Global};
use std::marker::Model;
use std::snapshot::Snapshot;

/// A play that is under way. Contracts see what its machine was made with and has served, what there was before the play, the
/// moment that it has come to, the names of the block that is played, the attempts that reports name, and the size that stopped it.
#[derive(Drop)]
pub struct Player {
    alloc: Global,
    machine: Machine,
    before: Snapshot<Machine>,
    moment: Moment,
    names: Names,
    attempts: Attempts,
    full: Option<u64>,
}

impl Model for Player {
    ghost use Rattle.script_play.specs.View.{View, start_of};

    ghost Value = { View };

    ghost view = { λ p. record {
      ledger = p.machine.ledger;
      start = start_of p.before.value.ledger;
      moment = p.moment;
      names = p.names;
      attempts = p.attempts;
      full = p.full;
    } };
}

/// How many entries a machine has made, and how many changes there were.
#[derive(Clone, Copy, Debug, PartialEq, Eq)]
pub struct Counts {
    pub entries: usize,
    pub changes: usize,
}

/// What a look at the machine came to.
#[derive(Clone, Copy, Debug, PartialEq, Eq)]
pub enum Looked {
    /// It was the last one.
    Done,
    /// What is waited for has not come, and nothing has changed.
    NotYet,
}

/// The least moment.
#[tactic(auto, unfolding(drmaa_types::specs::Moments::greatest))]
pub fn beginning() -> Moment
    ensures { result ≡ 0 }
{
    match Moment::new(0) {
        Some(moment) => moment,
        None => unreachable!(),
    }
}

/// The moment so many seconds later, or the greatest one.
pub fn later(moment: Moment, seconds: u64) -> Moment
    ensures { result ≡ min (moment + seconds) greatest }
{
    match moment.plus(seconds) {
        Some(moment) => moment,
        None => Moment::greatest(),
    }
}

/// The number that a reply registers.
fn number_in(reply: &Reply) -> Option<u32>
    ensures { result ≡ number_in reply.now }
{
    match reply {
        Reply::Callback(number) => Some(*number),
        _ => None,
    }
}

/// The first 64 of these changes, as many as there are.
fn first_64(changes: &[Change]) -> &[Change]
    ensures value { result.now ≡ take 64 changes.now }
    ensures few { length result.now ≤ 64 }
{
    &changes[..changes.len().min(64)]
}

impl Player {
    ghost use Rattle.std.specs.Prelude.{◌≡◌, ◌≤◌, is_some, length, take, drop, slice_get, IfOk};
    ghost use Rattle.drmaa_model.specs.History.{IsLegal, now_of};
    ghost use Rattle.script_play.specs.Callbacks.{number_of};
    ghost use Rattle.script_play.specs.Looks.{asks_from, IsLook, Learns};
    ghost use Rattle.script_play.specs.View.{IsNoted, unplayed};

    /// A play that has not begun, on a machine that may have served other calls. It begins at the machine's moment, and takes no
    /// memory.
    pub fn new(alloc: Global, machine: Machine) -> Player
        ensures player { result ≡ unplayed machine.ledger }
        ensures legal { IsLegal machine.ledger.config machine.ledger.history }
    {
        let before = Snapshot::of(&machine);
        let moment = machine.moment();
        Player {
            alloc,
            machine,
            before,
            moment,
            names: Names::new(alloc),
            attempts: Attempts::new(alloc),
            full: None,
        }
    }

    /// Whether the greatest journal size has stopped the play.
    pub fn is_full(&self) -> bool
        ensures { result ≡ is_some self.now.full }
    {
        self.full.is_some()
    }

    /// The moment that the play has come to.
    pub fn moment(&self) -> Moment
        ensures { result ≡ self.now.moment }
    {
        self.moment
    }

    /// The names of the block that is played.
    pub fn names(&self) -> &Names
        ensures { result.now ≡ self.now.names }
    {
        &self.names
    }

    /// How many entries and changes there are.
    pub fn counts(&self) -> Counts
        ensures entries { result.entries ≡ length self.now.ledger.history }
        ensures changes { result.changes ≡ length (now_of self.now.ledger).plan.changes }
        ensures legal { IsLegal self.now.ledger.config self.now.ledger.history }
    {
        Counts {
            entries: self.machine.entries().len(),
            changes: self.machine.changes().len(),
        }
    }

    /// The number of the callback that the entry at this place registered, if there is one and it did.
    pub fn registered(&self, place: usize) -> Option<u32>
        ensures number { result ≡ number_of (slice_get self.now.ledger.history place) }
        ensures legal { IsLegal self.now.ledger.config self.now.ledger.history }
    {
        match self.machine.entries().get(place) {
            Some(entry) => number_in(&entry.reply),
            None => None,
        }
    }

    /// The first 64 changes from this place on, as many as there are.
    pub fn changes_from(&self, place: usize) -> &[Change]
        ensures value { result.now ≡ take 64 (drop place (now_of self.now.ledger).plan.changes) }
        ensures few { length result.now ≤ 64 }
    {
        let changes = self.machine.changes();
        first_64(&changes[place.min(changes.len())..])
    }

    /// Comes to another moment.
    pub fn come_to(&mut self, moment: Moment)
        ensures { self.new ≡ record self.old { moment = moment } }
    {
        self.moment = moment;
    }

    /// Begins a further block, with these names.
    pub fn begin_block(&mut self, names: Names)
        ensures { self.new ≡ record self.old { names = names } }
    {
        self.names = names;
    }

    /// What a line asks, where a wait began at this moment.
    pub fn ask(
        &self,
        script: &Script,
        begun: Moment,
        line: &Line,
    ) -> Result<Option<Call>, AllocError>
        requires { IsNoted self.now }
        ensures { IfOk result (λ call. call ≡ asks_from script.now self.now begun line.now) }
    {
        ask(
            self.alloc,
            script,
            self.names.given(),
            &self.attempts,
            begun,
            line,
        )
    }

    /// Makes the call of a line. After an `Err` memory ran out, and the play is lost.
    pub fn look(&mut self, caller: CallerId, line: &Line, call: Call) -> Result<Looked, AllocError>
        requires { IsNoted self.old }
        ensures { IfOk result (λ looked. IsLook self.old caller line.now call looked self.new) }
    {
        match self.machine.apply(caller, self.moment, call) {
            Ok(reply) => {
                self.learn(line, &reply)?;
                Ok(Looked::Done)
            }
            Err(NoEntry::Nothing) => Ok(Looked::Done),
            Err(NoEntry::NotYet) => Ok(Looked::NotYet),
            Err(NoEntry::Journal { size }) => {
                self.full = Some(size);
                Ok(Looked::Done)
            }
            Err(NoEntry::OutOfMemory) => Err(AllocError),
        }
    }

    /// Notes what the reply to a line gives its name, and the attempt of a launch. After an `Err` memory ran out, and both are lost.
    fn learn(&mut self, line: &Line, reply: &Reply) -> Result<(), AllocError>
        ensures { IfOk result (λ _. Learns self.old line.now reply.now self.new) }
    {
        self.names.learn(line, reply)?;
        self.attempts.note(reply)
    }

    /// The machine, and the size that stopped the play.
    pub fn end(self) -> (Machine, Option<u64>)
        ensures machine { result.0.ledger ≡ self.ledger }
        ensures full { result.1 ≡ self.full }
    {
        let Player { machine, full, .. } = self;
        (machine, full)
    }
}
