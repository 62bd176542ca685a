//! The machine: a history, and the world that it leads to.
ghost use Rattle.std.specs.Prelude.{◌≡◌, ◌≢◌, ◌+◌, ◌≤◌, ◌↔◌, ◌⊎◌, ℕ, [], map, IfOk, IfErr, IsOk, OnOk, OnErr, IsTrue, true, None, Some, length};
ghost use Rattle.std.specs.Option.{option_copied, option_map};
ghost use Rattle.drmaa_types.specs.Queues.{are_queues};
ghost use Rattle.drmaa_types.specs.declared.refusals.Refusal.{Refusal};
ghost use Rattle.drmaa_model.specs.declared.rows.Row.{Row};
ghost use Rattle.drmaa_model.specs.Consistent.{IsConsistent};
ghost use Rattle.drmaa_model.specs.Effects.{nothing, not_yet};
ghost use Rattle.drmaa_model.specs.Events.{next_event, started_from, started_of};
ghost use Rattle.drmaa_model.specs.History.{IsLegal, now_of};
ghost use Rattle.drmaa_model.specs.Honoured.{IsOnTime, IsDueInside};
ghost use Rattle.drmaa_model.specs.Infos.{infos, reservation_info};
ghost use Rattle.drmaa_model.specs.RecordedCalls.{recorded};
ghost use Rattle.drmaa_model.specs.Load.{first_overfull};
ghost use Rattle.drmaa_model.specs.NextLaunch.{held};
ghost use Rattle.drmaa_model.specs.Refusals.{refusal};
ghost use Rattle.drmaa_model.specs.Size.{size};
ghost use Rattle.drmaa_model.specs.Steps.{answer, IsStep};
ghost use Rattle.drmaa_model.specs.Time.{advance};
ghost use Rattle.drmaa_model.specs.WaitLaws.{HandsOut, SendsOut};
ghost use Rattle.drmaa_model.specs.World.{counted};
ghost use Rattle.plan_book.specs.Blocks.{rows_in};
ghost use Rattle.session_table.specs.Sessions.{name_of};
ghost use Rattle.drmaa_machine.specs.Applying.{served, IsTooLarge, GoesByEdges, IsOver, IsRefusedFor, is_submission, is_foreseen, is_frugal, is_run_report};
ghost use Rattle.drmaa_machine.specs.Looks.{IsAnswer};
ghost use Rattle.drmaa_machine.specs.Waits.{call_of};

use crate::applying::serve;
use crate::looks::{look_in, must_wait_in, reserve_in};
use crate::waits::Awaited;
use drmaa_model::{Accepted, Answer, Call, Config, Entry, NoEntry, Question, Reply, Row, Started};
use drmaa_types::{
    CallerId, Change, End, InfoList, JobId, Moment, QueueList, Refusal, ReservationList, Text,
};
use machine_readings::Store;
use scheduler_core::Core;
use session_table::SessionTable;
use std::alloc::Global;
use std::marker::Model;

/// A scheduler for one machine. Contracts see what it was made with and what it has served, and `spare`: how many entries and
/// changes more it has room for, beside those that are promised.
pub struct Machine {
    store: Store,
}

// By hand, so that how its parts are let go is proved here once, and not again in each crate that lets a machine go.
impl Drop for Machine {
    fn drop(self) {
        let Machine { store: _ } = self;
    }
}

impl Model for Machine {
    ghost use Rattle.drmaa_machine.specs.View.{View};
    ghost use Rattle.machine_calls.specs.Serving.{spare_of};

    ghost Value = { View };

    ghost use Rattle.drmaa_machine.specs.Invariant.{IsMachine};

    ghost view = { λ m. record {
      ledger = record { config = m.store.config; history = m.store.history.items };
      spare = spare_of m.store;
    } };

    ghost invariant = { λ m. IsMachine m.store };
}

impl Machine {
    /// A machine that has served nothing. Slots are from 1 to 65,535, and the journal size from 1 to 4,000,000. There are at most 16
    /// queues, with distinct names of 1 to 255 bytes and limits from 1 to the slots (`drmaa_types::are_queues`).
    ///
    /// # Errors
    ///
    /// Want of memory.
    pub fn new(alloc: Global, config: Config) -> Result<Machine, Refusal>
        requires least_slots { 1 ≤ config.slots }
        requires most_slots { config.slots ≤ 65_535 }
        requires least_journal { 1 ≤ config.journal }
        requires most_journal { config.journal ≤ 4_000_000 }
        requires queues { are_queues config.slots config.queues ≡ true }
        ensures ok { IfOk result (λ machine. machine.ledger ≡ record { config = config; history = [] }) }
        ensures err { IfErr result (λ why. why ≡ Refusal.OutOfMemory) }
    {
        let Ok(sessions) = SessionTable::new(alloc) else {
            return Err(Refusal::OutOfMemory);
        };
        let Ok(queues) = config.queues.clone() else {
            return Err(Refusal::OutOfMemory);
        };
        Ok(Machine {
            store: Store {
                alloc,
                core: Core::new(alloc, config.slots, queues),
                config,
                sessions,
                registrations: 0,
                entries: 0,
                history: Vec::new(alloc),
            },
        })
    }

    /// Serves a call, as one step and one entry; a refusal is a reply too. The entry has the call as it is recorded: a limit
    /// whose name no journal can print is recorded as `OTHER`.
    ///
    /// # Errors
    ///
    /// `NotYet` exactly where the call waits for what has not come; `Nothing` exactly where there is no job to launch or no signal
    /// to send; `Journal` with the size that the journal would have, where that is above the greatest; and want of memory. The
    /// machine is then as it was, its moment too, and nothing that was reserved is lost.
    pub fn apply(&mut self, caller: CallerId, at: Moment, call: Call) -> Result<Reply, NoEntry>
        // One step of the machine, with exactly one entry.
        ensures step { IfOk result (λ reply. IsStep (now_of self.old.ledger)
            (record { caller = caller; at = at; call = recorded call; reply = reply }) (now_of self.new.ledger)) }
        ensures entry { IfOk result (λ reply. self.new.ledger ≡
            served self.old.ledger (record { caller = caller; at = at; call = recorded call; reply = reply })) }
        ensures legal { IsLegal self.new.ledger.config self.new.ledger.history }
        ensures consistent { IsConsistent (now_of self.new.ledger) }
        ensures few { length self.new.ledger.history ≤ 4_000_000 }

        // No entry, no change.
        ensures err { OnErr result (self.new.ledger ≡ self.old.ledger) }
        ensures waits { (result ≡ Err NoEntry.NotYet) ↔ (answer (now_of self.old.ledger) at (recorded call) ≡ not_yet) }
        ensures finds_nothing { (result ≡ Err NoEntry.Nothing) ↔ (answer (now_of self.old.ledger) at (recorded call) ≡ nothing) }
        ensures full { (n : ℕ) → result ≡ Err (NoEntry.Journal n) → IsTooLarge (now_of self.old.ledger) at (recorded call) n }
        ensures above { (n : ℕ) → IsTooLarge (now_of self.old.ledger) at (recorded call) n →
            (result ≡ Err (NoEntry.Journal n)) ⊎ ((result ≡ Err NoEntry.OutOfMemory) × (is_submission call ≡ true)) }

        // The first refusal of the table, and no other but a timeout. It changes nothing but time.
        ensures refuses { (why : Refusal) → refusal (advance (now_of self.old.ledger) at) (recorded call) ≡ Some why →
            IfOk result (λ reply. reply ≡ Reply.Refused why) }
        ensures over { IsOver (now_of self.old.ledger) at (recorded call) → IfOk result (λ reply. reply ≡ Reply.Refused Refusal.Timeout) }
        ensures refused { (why : Refusal) → result ≡ Ok (Reply.Refused why) →
            IsRefusedFor (now_of self.old.ledger) at (recorded call) why × (now_of self.new.ledger ≡ counted (advance (now_of self.old.ledger) at)) }

        // Each change is an edge of the state model, from the state that the job had.
        ensures edges { OnOk result (GoesByEdges (now_of self.old.ledger) (now_of self.new.ledger)) }

        // A launch is that of the first job in order that is ready, and a signal that of the first order that is not taken and
        // whose job is alive.
        ensures launch { call ≡ Call.TakeLaunch → IfOk result (λ reply.
            HandsOut (advance (now_of self.old.ledger) at) reply (now_of self.new.ledger)) }
        ensures signal { call ≡ Call.TakeSignal → IfOk result (λ reply.
            SendsOut (advance (now_of self.old.ledger) at) reply (now_of self.new.ledger)) }

        // A job whose reservation has the slots that it asks for finds them free, and can be launched.
        ensures honoured_slots { (row : Row) → IsOnTime (advance (now_of self.old.ledger) at).plan → IsDueInside (advance (now_of self.old.ledger) at).plan row →
            held (advance (now_of self.old.ledger) at).plan.rows + row.wants.min ≤ (advance (now_of self.old.ledger) at).plan.total }
        ensures honoured { (row : Row) → call ≡ Call.TakeLaunch → IsOnTime (advance (now_of self.old.ledger) at).plan →
            IsDueInside (advance (now_of self.old.ledger) at).plan row → result ≢ Err NoEntry.Nothing }

        // What takes no memory that was not taken ahead: a state, a hold or a release of one job; a report of a start or an end,
        // which leaves all that is spare. Most calls use one of what is spare at most, and one that makes no entry uses none.
        ensures memory { is_foreseen call ≡ true → 1 ≤ self.old.spare → result ≢ Err NoEntry.OutOfMemory }
        ensures spare { is_frugal call ≡ true → self.old.spare ≤ self.new.spare + 1 }
        ensures reports { is_run_report call ≡ true → refusal (advance (now_of self.old.ledger) at) call ≡ None → IsOk result }
        ensures promised { is_run_report call ≡ true → refusal (advance (now_of self.old.ledger) at) call ≡ None → self.old.spare ≤ self.new.spare }
        ensures unspent { OnErr result (self.old.spare ≤ self.new.spare) }
    {
        serve(&mut self.store, caller, at, call)
    }

    /// Takes the memory for so many further entries and changes.
    ///
    /// # Errors
    ///
    /// Want of memory; nothing has changed then, and no less is spare.
    pub fn reserve(&mut self, n: u32) -> Result<(), Refusal>
        ensures ledger { self.new.ledger ≡ self.old.ledger }
        ensures spare { OnOk result (n ≤ self.new.spare) }
        ensures more { self.old.spare ≤ self.new.spare }
        ensures err { IfErr result (λ why. why ≡ Refusal.OutOfMemory) }
    {
        reserve_in(&mut self.store, n)
    }

    /// Answers a question at the greater of this moment and the machine's. It makes no entry, and takes memory for the name of a
    /// session alone.
    pub fn look(&self, at: Moment, question: Question) -> Answer
        ensures { IsAnswer (advance (now_of self.now.ledger) at) (now_of self.now.ledger) question result }
    {
        look_in(&self.store, at, question)
    }

    /// Whether a wait that is made at this moment has no answer yet. It takes no memory and makes no entry.
    pub fn must_wait(&self, at: Moment, awaited: &Awaited) -> bool
        ensures { IsTrue result ↔ (answer (now_of self.now.ledger) at (call_of awaited.now) ≡ not_yet) }
    {
        must_wait_in(&self.store, at, awaited)
    }

    /// What is told of each kept job, in order of number, as it is now: no time passes.
    ///
    /// # Errors
    ///
    /// Want of memory.
    pub fn infos(&self) -> Result<InfoList, Refusal>
        ensures ok { IfOk result (λ list. list ≡ infos (now_of self.now.ledger)) }
        ensures err { IfErr result (λ why. why ≡ Refusal.OutOfMemory) }
    {
        match self.store.present_infos() {
            Ok(list) => Ok(list),
            Err(_) => Err(Refusal::OutOfMemory),
        }
    }

    /// What is told of each accepted reservation, once time has come to this moment. It makes no entry.
    ///
    /// # Errors
    ///
    /// Want of memory.
    pub fn reservations(&self, at: Moment) -> Result<ReservationList, Refusal>
        ensures ok { IfOk result (λ list. list ≡ map (reservation_info (advance (now_of self.now.ledger) at)) (advance (now_of self.now.ledger) at).plan.reservations) }
        ensures err { IfErr result (λ why. why ≡ Refusal.OutOfMemory) }
    {
        match self.store.reservation_infos(at) {
            Ok(list) => Ok(list),
            Err(_) => Err(Refusal::OutOfMemory),
        }
    }

    /// The size of the journal: its entries and changes, and the room that is promised to jobs.
    pub fn size(&self) -> u64
        ensures { result ≡ size (now_of self.now.ledger) }
    {
        self.store.entries + self.store.core.size()
    }

    /// The moment to which time has come. It takes no memory.
    pub fn moment(&self) -> Moment
        ensures moment { result ≡ (now_of self.now.ledger).plan.moment }
        ensures legal { IsLegal self.now.ledger.config self.now.ledger.history }
    {
        self.store.core.moment()
    }

    /// The kept jobs as they are now, in order of number, in blocks. It takes no memory and makes no entry.
    pub fn blocks(&self) -> &[Vec<Row>]
        ensures { rows_in result.now ≡ (now_of self.now.ledger).plan.rows }
    {
        self.store.core.blocks()
    }

    /// The accepted reservations as they are now, in order of number. It takes no memory and makes no entry.
    pub fn accepted(&self) -> &[Accepted]
        ensures { result.now ≡ (now_of self.now.ledger).plan.reservations }
    {
        self.store.core.reservations()
    }

    /// The slots of the machine.
    pub fn slots(&self) -> u32
        ensures slots { result ≡ (now_of self.now.ledger).plan.total }
        ensures consistent { IsConsistent (now_of self.now.ledger) }
    {
        self.store.config.slots
    }

    /// The queues of the machine, in order of place.
    pub fn queues(&self) -> &QueueList
        ensures { result.now ≡ (now_of self.now.ledger).plan.queues }
    {
        &self.store.config.queues
    }

    /// The slots that all jobs hold.
    pub fn held(&self) -> u32
        ensures { result ≡ held (now_of self.now.ledger).plan.rows }
    {
        self.store.core.held()
    }

    /// The first moment from now on and before this end at which so many slots more would be too many. None exactly where they
    /// fit. It takes no memory and makes no entry.
    pub fn first_overfull(&self, slots: u32, until: End) -> Option<Moment>
        ensures { result ≡ first_overfull (now_of self.now.ledger).plan slots (now_of self.now.ledger).plan.moment until }
    {
        self.store.core.first_overfull(slots, until)
    }

    /// The started job of least number that is this one or above it, at the greater of this moment and the machine's. It takes
    /// no memory and makes no entry.
    pub fn started(&self, at: Moment, from: JobId) -> Option<Started>
        ensures found { result ≡ option_map started_of (started_from from.0 (advance (now_of self.now.ledger) at).plan.rows) }
        ensures legal { IsLegal self.now.ledger.config self.now.ledger.history }
        ensures few { length self.now.ledger.history ≤ 4_000_000 }
    {
        self.store.core.started(at, from)
    }

    /// The next moment, after this one, at which time may change something: a startTime or a deadlineTime of a job that waits,
    /// a planned end, or a start or an end of a reservation. It takes no memory and makes no entry.
    pub fn next_event(&self, after: Moment) -> Option<Moment>
        ensures { result ≡ next_event (now_of self.now.ledger).plan after }
    {
        self.store.core.next_event(after)
    }

    /// The name of the named session with this number, as a change and a notification have it. None exactly where there is no such
    /// session, or no longer. It takes no memory and makes no entry.
    pub fn session_name(&self, home: u64) -> Option<&Text>
        ensures { option_copied result ≡ name_of home (now_of self.now.ledger).sessions.named }
    {
        self.store.sessions.name(home)
    }

    /// What was served, in order.
    pub fn entries(&self) -> &[Entry]
        ensures entries { result.now ≡ self.now.ledger.history }
        ensures legal { IsLegal self.now.ledger.config self.now.ledger.history }
        ensures consistent { IsConsistent (now_of self.now.ledger) }
        ensures few { length self.now.ledger.history ≤ 4_000_000 }
    {
        self.store.history.as_slice()
    }

    /// What became of the jobs' states, in order.
    pub fn changes(&self) -> &[Change]
        ensures { result.now ≡ (now_of self.now.ledger).plan.changes }
    {
        self.store.core.changes()
    }

    /// What the machine was made with.
    pub fn config(&self) -> &Config
        ensures { result.now ≡ self.now.ledger.config }
    {
        &self.store.config
    }
}

/// What a machine has served is a legal history: replayed on the sequential machine it gives each of its replies. It is a law, whose
/// function does nothing.
pub fn a_history_is_legal(machine: &Machine)
    ensures { IsLegal machine.now.ledger.config machine.now.ledger.history }
{
    let _ = machine.entries();
}
