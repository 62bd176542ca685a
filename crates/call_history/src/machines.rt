//! The machine behind its lock: who opens it to clients, what clients tell each other, and how it is closed.
ghost use Rattle.std.specs.Prelude.{◌≡◌, ℕ, ◌<◌, ◌≤◌, List, [], ◌∷◌, ◌++◌, length, IfOk, IfErr, Some, None, true, slice_set, slice_index_or};
ghost use Rattle.drmaa_types.specs.Queues.{are_queues};
ghost use Rattle.drmaa_types.specs.declared.refusals.Refusal.{Refusal};
ghost use Rattle.drmaa_model.specs.declared.entries.Entry.{Entry};
ghost use Rattle.drmaa_model.specs.History.{IsLegal};
ghost use Rattle.turn_lock.specs.Histories.{BeginsWith, left_of};
ghost use Rattle.turn_lock.specs.Tokens.{BelongsTo, IsFree};
ghost use Rattle.turn_lock.specs.Views.{opener};
ghost use Rattle.call_history.specs.Callers.{calls_of};
ghost use Rattle.call_history.specs.Clients.{seen_of, mine_of, number_of, retired_of, KnowsItsOwn};

use drmaa_machine::{Config, Machine};
use drmaa_types::{Boxed, Chronicle, Refusal, Shared};
use std::alloc::{AllocError, Global};
use std::marker::Model;
use turn_lock::{NotePass, Opener, Pass, TurnLock};

/// Who calls a shared machine: one thread at a time uses it. Contracts see the entries that it has seen, a beginning of the
/// machine's history, and those of them that are its own.
pub type Client = Pass<Machine>;

/// Who gives clients out and takes them back.
pub type MachineOpener = Opener<Machine>;

/// What a client had seen at one time. It takes no memory, and may be kept behind another lock.
pub type Note = NotePass<Machine>;

/// One machine that several threads use, one at a time, in the order in which they came. Contracts see which machine it is and
/// its configuration.
pub struct SharedMachine {
    pub(crate) lock: TurnLock<Machine>,
    alloc: Global,
}

// By hand, so that how its parts are let go is proved here once, and not again in each crate that lets a machine go.
impl Drop for SharedMachine {
    fn drop(self) {
        let SharedMachine { lock: _, alloc: _ } = self;
    }
}

impl Model for SharedMachine {
    ghost use Rattle.drmaa_model.specs.declared.configs.Config.{Config};
    ghost use Rattle.turn_lock.specs.Tokens.{Named};

    ghost Value = { Named Config };

    ghost view = { λ s. s.lock };
}

impl SharedMachine {
    /// A machine that has served nothing, and its opener. Slots are from 1 to 65,535, and the journal size from 1 to 4,000,000. There
    /// are at most 16 queues, with distinct names of 1 to 255 bytes and limits from 1 to the slots (`drmaa_types::are_queues`).
    ///
    /// # Errors
    ///
    /// Want of memory.
    pub fn new(alloc: Global, config: Config) -> Result<(SharedMachine, MachineOpener), Refusal>
        requires least_slots { 1 ≤ config.slots }
        requires most_slots { config.slots ≤ 65_535 }
        requires least_journal { 1 ≤ config.journal }
        requires most_journal { config.journal ≤ 4_000_000 }
        requires queues { are_queues config.slots config.queues ≡ true }
        ensures config { IfOk result (λ made. made.0.fixed ≡ config) }
        ensures opener { IfOk result (λ made. BelongsTo made.0 made.1) }
        ensures seen { IfOk result (λ made. seen_of made.1 ≡ []) }
        ensures retired { IfOk result (λ made. retired_of made.1 ≡ []) }
        ensures err { IfErr result (λ why. why ≡ Refusal.OutOfMemory) }
    {
        let machine = Machine::new(alloc, config)?;
        let (lock, opener) = locked(alloc, machine)?;
        Ok((SharedMachine { lock, alloc }, opener))
    }

    /// This value in memory of its own, as a call holds the template of a reservation or a filter.
    ///
    /// # Errors
    ///
    /// Want of memory.
    pub(crate) fn own<T: Drop>(&self, value: T) -> Result<Boxed<T>, AllocError>
        ensures { IfOk result (λ b. b ≡ value) }
    {
        Boxed::new(self.alloc, value)
    }

    /// This value in memory that several may share, as a call holds the template of a job.
    ///
    /// # Errors
    ///
    /// Want of memory.
    pub(crate) fn share<T: Drop>(&self, value: T) -> Result<Shared<T>, AllocError>
        ensures { IfOk result (λ s. s ≡ value) }
    {
        Shared::new(self.alloc, value)
    }

    /// The next client: its number is the next one, from 0. It has seen what the opener has, and made nothing. It takes no memory.
    pub fn open_client(&self, opener: &mut MachineOpener) -> Client
        requires opener { BelongsTo self.now opener.old }
        requires room { length (retired_of opener.old) < 4294967295 }
        ensures opener { BelongsTo self.now opener.new }
        ensures seen { seen_of opener.new ≡ seen_of opener.old }
        ensures retired { retired_of opener.new ≡ retired_of opener.old ++ None ∷ [] }
        ensures client { IsFree self.now result }
        ensures number { number_of result ≡ length (retired_of opener.old) }
        ensures begins { seen_of result ≡ seen_of opener.old }
        ensures mine { mine_of result ≡ [] }
        ensures own { KnowsItsOwn result }
        ensures clean { (number : ℕ) → length (retired_of opener.new) ≤ number → calls_of (seen_of opener.new) number ≡ [] }
    {
        opener.open_pass(&self.lock)
    }

    /// Takes a client back. The opener has then seen what the client had, and has its entries. It takes no memory.
    pub fn retire(&self, opener: &mut MachineOpener, client: Client)
        requires opener { BelongsTo self.now opener.old }
        requires client { IsFree self.now client }
        ensures opener { BelongsTo self.now opener.new }
        ensures from_old { BeginsWith (seen_of opener.new) (seen_of opener.old) }
        ensures from_client { BeginsWith (seen_of opener.new) (seen_of client) }
        ensures retired { retired_of opener.new ≡ slice_set (retired_of opener.old) (number_of client) (Some (mine_of client)) }
        ensures was_out { slice_index_or (retired_of opener.old) (number_of client) None ≡ None }
        ensures given { number_of client < length (retired_of opener.old) }
        ensures own { KnowsItsOwn client }
        ensures legal { IsLegal self.now.fixed (seen_of opener.new) }
        ensures clean { (number : ℕ) → length (retired_of opener.new) ≤ number → calls_of (seen_of opener.new) number ≡ [] }
    {
        opener.retire(&self.lock, client);
    }

    /// A note of what the client has seen. It takes no memory.
    pub fn note(&self, client: &mut Client) -> Note
        requires { IsFree self.now client.old }
        ensures client { client.new ≡ client.old }
        ensures own { KnowsItsOwn client.new }
        ensures note { BelongsTo self.now result }
        ensures seen { seen_of result ≡ seen_of client.old }
    {
        self.lock.note(client)
    }

    /// Lets the client know what the note says. It takes no memory.
    pub fn learn(&self, client: &mut Client, note: Note)
        requires client { IsFree self.now client.old }
        requires note { BelongsTo self.now note }
        ensures client { IsFree self.now client.new }
        ensures number { number_of client.new ≡ number_of client.old }
        ensures mine { mine_of client.new ≡ mine_of client.old }
        ensures own { KnowsItsOwn client.new }
        ensures from_old { BeginsWith (seen_of client.new) (seen_of client.old) }
        ensures from_note { BeginsWith (seen_of client.new) (seen_of note) }
        ensures legal { IsLegal self.now.fixed (seen_of client.new) }
    {
        self.lock.learn(client, note);
    }

    /// Lets one client know what another has seen. It takes no memory.
    pub fn hand_over(&self, from: &mut Client, to: &mut Client)
        requires from { IsFree self.now from.old }
        requires to { IsFree self.now to.old }
        ensures from { from.new ≡ from.old }
        ensures to { IsFree self.now to.new }
        ensures number { number_of to.new ≡ number_of to.old }
        ensures mine { mine_of to.new ≡ mine_of to.old }
        ensures own { KnowsItsOwn to.new }
        ensures from_old { BeginsWith (seen_of to.new) (seen_of to.old) }
        ensures from_other { BeginsWith (seen_of to.new) (seen_of from.old) }
        ensures legal { IsLegal self.now.fixed (seen_of to.new) }
    {
        let note = self.note(from);
        self.learn(to, note);
    }

    /// How many clients are out. The machine can be had back once none is.
    pub fn left(&self, opener: &MachineOpener) -> u32
        ensures { result ≡ left_of (retired_of opener.now) }
    {
        opener.left()
    }

    /// The machine, once every client is back. Its history is legal, begins with what the opener had seen, has for each client
    /// exactly its entries, and no entry of another number. It takes no memory.
    pub fn close(self, opener: MachineOpener) -> Machine
        requires opener { BelongsTo self opener }
        requires back { left_of (retired_of opener) ≡ 0 }
        ensures config { result.ledger.config ≡ self.fixed }
        ensures legal { IsLegal self.fixed result.ledger.history }
        ensures seen { BeginsWith result.ledger.history (seen_of opener) }
        ensures lists { (number : ℕ) (own : List Entry) → slice_index_or (retired_of opener) number None ≡ Some own →
            calls_of result.ledger.history number ≡ own }
        ensures strangers { (number : ℕ) → length (retired_of opener) ≤ number → calls_of result.ledger.history number ≡ [] }
    {
        let SharedMachine { lock, alloc: _ } = self;
        lock.close(opener)
    }
}

/// A lock over a value that has served nothing, and its opener.
fn locked<V: Chronicle + Drop>(alloc: Global, value: V) -> Result<(TurnLock<V>, Opener<V>), Refusal>
    requires { V.entries value ≡ [] }
    ensures fixed { IfOk result (λ made. made.0.fixed ≡ V.fixed value) }
    ensures opener { IfOk result (λ made. made.1.view ≡ opener (V.fixed value)) }
    ensures belongs { IfOk result (λ made. BelongsTo made.0 made.1) }
    ensures err { IfErr result (λ why. why ≡ Refusal.OutOfMemory) }
{
    match TurnLock::new(alloc, value) {
        Ok(made) => Ok(made),
        Err(back) => {
            drop(back);
            Err(Refusal::OutOfMemory)
        }
    }
}
