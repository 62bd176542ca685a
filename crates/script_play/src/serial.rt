//! The play of a script on one thread.
ghost use Rattle.std.specs.Prelude.{◌≡◌, ◌≤◌, [], ◌++◌, length, Ok, Err, IfOk, OnErr, MatchResult};
ghost use Rattle.drmaa_model.specs.History.{now_of};
ghost use Rattle.change_callbacks.specs.Ears.{HaveHeard, silent};
ghost use Rattle.change_callbacks.specs.Places.{registrations_of};
ghost use Rattle.script_asks.specs.Plays.{serial_play, serial_play_from, opening_in};
ghost use Rattle.script_play.specs.Along.{after_block_lines, histories, HeardAlong, HeardPart, HeardPlay, HeardPlayPart};
ghost use Rattle.script_play.specs.Callbacks.{AreCurrent, HaveFront, AreCurrentAfter, HaveFrontAfter};
ghost use Rattle.script_play.specs.Playable.{IsPlayable};
ghost use Rattle.script_play.specs.Served.{IsServed};
ghost use Rattle.script_play.specs.View.{start_of, unplayed};

use crate::blocks::play_blocks;
use crate::hearing::pass_over;
use crate::players::Player;
use change_callbacks::{Callback, Ears};
use drmaa_machine::Machine;
use drmaa_model::Config;
use drmaa_types::QueueList;
use script_text::Script;
use std::alloc::{AllocError, Global};

/// What a play came to.
#[derive(Drop)]
pub struct Played {
    /// The machine that has served the script.
    pub machine: Machine,
    /// The size that the journal would have had by the step that was not made. None where the whole script was played.
    pub full: Option<u64>,
}

/// These queues once more.
#[tactic(auto, using(std::proofs::lemmas::List::Elements::same_from_all_zip))]
fn copied_queues(queues: &QueueList) -> Result<QueueList, AllocError>
    ensures { IfOk result (λ copy. copy ≡ queues.now) }
{
    queues.clone()
}

/// This configuration once more.
pub fn copy_of(config: &Config) -> Result<Config, AllocError>
    ensures { IfOk result (λ copy. copy ≡ config.now) }
{
    Ok(Config {
        slots: config.slots,
        name: config.name.clone()?,
        suspend: config.suspend,
        journal: config.journal,
        queues: copied_queues(&config.queues)?,
    })
}

/// A machine as the script wants it, which has served nothing.
pub fn new_machine(alloc: Global, script: &Script) -> Result<Machine, AllocError>
    requires { IsPlayable script.now }
    ensures { IfOk result (λ machine. machine.ledger ≡ record { config = script.now.config; history = [] }) }
{
    match Machine::new(alloc, copy_of(&script.config)?) {
        Ok(machine) => Ok(machine),
        Err(_) => Err(AllocError),
    }
}

/// What was made, unless what was done to it failed.
fn unless_failed<T: Drop>(value: T, done: Result<(), AllocError>) -> Result<T, AllocError>
    ensures { MatchResult done (λ _. result ≡ Ok value) (λ why. result ≡ Err why) }
{
    match done {
        Ok(()) => Ok(value),
        Err(why) => Err(why),
    }
}

/// Plays the blocks of a script, in a play that has not begun.
fn play_from<B: Callback>(
    script: &Script,
    player: Player,
    ears: &mut Ears<B>,
) -> Result<Player, AllocError>
    requires few { length script.now.clients ≤ 32 }
    requires new { player ≡ unplayed player.ledger }
    requires current { AreCurrentAfter B.counted B.told player.start.callbacks player.ledger ears.old }
    ensures served { IfOk result (IsServed player.ledger script.now) }
    ensures current { IfOk result (λ after. AreCurrentAfter B.counted B.told player.start.callbacks after.ledger ears.new) }
    ensures front { OnErr result (HaveFrontAfter B.counted B.told player.ledger.config player.start (serial_play_from (now_of player.ledger) script.now).entries ears.new) }
    ensures along { IfOk result (λ _. HeardAlong B.counted B.told player.start.callbacks player.ledger.config (histories player.start.entries (after_block_lines script.now (opening_in (now_of player.ledger)))) ears.old ears.new) }
    ensures part { OnErr result (HeardPart B.counted B.told player.start.callbacks player.ledger.config (histories player.start.entries (after_block_lines script.now (opening_in (now_of player.ledger)))) ears.old ears.new) }
    ensures begun { ears.new.begun ≡ ears.old.begun }
    ensures heard { HaveHeard B.counted B.told ears.new }
{
    let mut player = player;
    let done = play_blocks(script, &mut player, ears);
    unless_failed(player, done)
}

/// What a play has come to.
fn played_by(player: Player) -> Played
    ensures machine { result.machine.ledger ≡ player.ledger }
    ensures full { result.full ≡ player.full }
{
    let (machine, full) = player.end();
    Played { machine, full }
}

/// Plays a script on a machine that may have served other calls: its setup block and then its clients' blocks, line by line, from
/// the machine's moment on, at the moments that the lines set. The play stops before the first step whose size would be above the
/// journal's. What the script says of its machine has no part. Reports name attempts of launches of this play alone. A callback that
/// a line registers hears each change of a job's state behind that line's entry, once and in order: it is the one at the place of the
/// number that the line is answered, counted from 1. The callbacks of the numbers that the machine had given before hear nothing.
///
/// # Errors
///
/// Want of memory. What was heard until then stays: each callback heard what a beginning of the play has for it.
pub fn play_on<B: Callback>(
    alloc: Global,
    script: &Script,
    machine: Machine,
    ears: &mut Ears<B>,
) -> Result<Played, AllocError>
    requires few { length script.now.clients ≤ 32 }
    requires silent { ears.old ≡ silent ears.old.begun }
    requires unheard { HaveHeard B.counted B.told ears.old }
    ensures ledger { IfOk result (λ played. played.machine.ledger ≡ record { config = machine.ledger.config; history = machine.ledger.history ++ (serial_play_from (now_of machine.ledger) script.now).entries }) }
    ensures world { IfOk result (λ played. now_of played.machine.ledger ≡ (serial_play_from (now_of machine.ledger) script.now).world) }
    ensures full { IfOk result (λ played. played.full ≡ (serial_play_from (now_of machine.ledger) script.now).full) }
    ensures current { IfOk result (λ played. AreCurrentAfter B.counted B.told (registrations_of machine.ledger.config machine.ledger.history) played.machine.ledger ears.new) }
    ensures front { OnErr result (HaveFrontAfter B.counted B.told machine.ledger.config (start_of machine.ledger) (serial_play_from (now_of machine.ledger) script.now).entries ears.new) }
    ensures along { IfOk result (λ _. HeardPlay B.counted B.told machine.ledger script.now ears.old ears.new) }
    ensures part { OnErr result (HeardPlayPart B.counted B.told machine.ledger script.now ears.old ears.new) }
    ensures begun { ears.new.begun ≡ ears.old.begun }
    ensures heard { HaveHeard B.counted B.told ears.new }
{
    let player = Player::new(alloc, machine);
    pass_over(&player, ears);
    Ok(played_by(play_from(script, player, ears)?))
}

/// Plays a script: its setup block and then its clients' blocks, line by line, in one machine, at the moments that the lines
/// set. The play stops before the first step whose size would be above the journal's. A callback that a line registers hears each
/// change of a job's state behind that line's entry, once and in order; each line's changes are handed over behind the line.
///
/// # Errors
///
/// Want of memory. What was heard until then stays: each callback heard what a beginning of the play has for it.
pub fn play<B: Callback>(
    alloc: Global,
    script: &Script,
    ears: &mut Ears<B>,
) -> Result<Played, AllocError>
    requires playable { IsPlayable script.now }
    requires silent { ears.old ≡ silent ears.old.begun }
    requires unheard { HaveHeard B.counted B.told ears.old }
    ensures ledger { IfOk result (λ played. played.machine.ledger ≡ record { config = script.now.config; history = (serial_play script.now).entries }) }
    ensures world { IfOk result (λ played. now_of played.machine.ledger ≡ (serial_play script.now).world) }
    ensures full { IfOk result (λ played. played.full ≡ (serial_play script.now).full) }
    ensures current { IfOk result (λ played. AreCurrent B.counted B.told played.machine.ledger ears.new) }
    ensures front { OnErr result (HaveFront B.counted B.told script.now.config (serial_play script.now).entries ears.new) }
    ensures along { IfOk result (λ _. HeardPlay B.counted B.told (record { config = script.now.config; history = [] }) script.now ears.old ears.new) }
    ensures part { OnErr result (HeardPlayPart B.counted B.told (record { config = script.now.config; history = [] }) script.now ears.old ears.new) }
    ensures begun { ears.new.begun ≡ ears.old.begun }
    ensures heard { HaveHeard B.counted B.told ears.new }
{
    let machine = new_machine(alloc, script)?;
    play_on(alloc, script, machine, ears)
}
