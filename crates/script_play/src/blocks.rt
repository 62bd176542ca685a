//! The play of blocks.
ghost use Rattle.std.specs.Prelude.{◌≡◌, ◌<◌, ◌≤◌, List, ◌∷◌, length, drop, IfOk, OnErr};
ghost use Rattle.change_callbacks.specs.Ears.{HaveHeard};
ghost use Rattle.script_lines.specs.declared.lines.Line.{Line};
ghost use Rattle.script_text.specs.Follows.{lines_of};
ghost use Rattle.script_asks.specs.Plays as plays;
ghost use Rattle.script_play.specs.Along.{after_lines, after_client_lines, after_block_lines, histories, HeardAlong, HeardPart};
ghost use Rattle.script_play.specs.Callbacks.{AreCurrentAfter, HaveFrontAfter};
ghost use Rattle.script_play.specs.Crews.{crew_meant};
ghost use Rattle.script_play.specs.Looks.{GoesTo};
ghost use Rattle.script_play.specs.View.{IsNoted, playing};

use crate::crews::{Crew, crew_of};
use crate::hearing::hear;
use crate::lines::play_line;
use crate::names::Names;
use crate::players::Player;
use change_callbacks::{Callback, Ears};
use script_text::{Block, Script};
use std::alloc::AllocError;

/// Plays the line at this place of a block. After an `Err` memory ran out, and the play is lost.
fn play_at(
    script: &Script,
    crew: Crew,
    player: &mut Player,
    block: &Block,
    place: usize,
) -> Result<(), AllocError>
    requires noted { IsNoted player.old }
    requires within { place < length block.now }
    ensures { IfOk result (λ _. (line : Line) (rest : List Line) → drop place block.now ≡ line ∷ rest
        → GoesTo player.old (plays.play_line script.now (crew_meant crew) (playing player.old) line) player.new) }
{
    match block.line(place) {
        Ok(line) => {
            let played = play_line(script, crew, player, &line);
            drop(line);
            played
        }
        Err(_) => Err(AllocError),
    }
}

/// Plays the lines of a block, in order. After each line the callbacks hear what it changed.
fn play_lines<B: Callback>(
    script: &Script,
    crew: Crew,
    player: &mut Player,
    block: &Block,
    ears: &mut Ears<B>,
) -> Result<(), AllocError>
    requires noted { IsNoted player.old }
    requires current { AreCurrentAfter B.counted B.told player.old.start.callbacks player.old.ledger ears.old }
    ensures played { IfOk result (λ _. GoesTo player.old (plays.play_lines script.now (crew_meant crew) (playing player.old) block.now) player.new) }
    ensures current { IfOk result (λ _. AreCurrentAfter B.counted B.told player.new.start.callbacks player.new.ledger ears.new) }
    ensures front { OnErr result (HaveFrontAfter B.counted B.told player.old.ledger.config player.old.start (plays.play_lines script.now (crew_meant crew) (playing player.old) block.now).entries ears.new) }
    ensures along { IfOk result (λ _. HeardAlong B.counted B.told player.old.start.callbacks player.old.ledger.config (histories player.old.start.entries (after_lines script.now (crew_meant crew) (playing player.old) block.now)) ears.old ears.new) }
    ensures part { OnErr result (HeardPart B.counted B.told player.old.start.callbacks player.old.ledger.config (histories player.old.start.entries (after_lines script.now (crew_meant crew) (playing player.old) block.now)) ears.old ears.new) }
    ensures begun { ears.new.begun ≡ ears.old.begun }
    ensures heard { HaveHeard B.counted B.told ears.new }
{
    for place in 0..block.len() {
        let before = player.counts();
        play_at(script, crew, player, block, place)?;
        hear(player, before, ears);
    }
    Ok(())
}

/// Plays the setup block, if there is one, in the name of caller 0.
fn play_setup<B: Callback>(
    script: &Script,
    player: &mut Player,
    ears: &mut Ears<B>,
) -> Result<(), AllocError>
    requires few { length script.now.clients ≤ 32 }
    requires noted { IsNoted player.old }
    requires current { AreCurrentAfter B.counted B.told player.old.start.callbacks player.old.ledger ears.old }
    ensures played { IfOk result (λ _. GoesTo player.old
        (plays.play_lines script.now (plays.crew_of (length script.now.clients) 0) (playing player.old) (lines_of script.now.setup)) player.new) }
    ensures current { IfOk result (λ _. AreCurrentAfter B.counted B.told player.new.start.callbacks player.new.ledger ears.new) }
    ensures front { OnErr result (HaveFrontAfter B.counted B.told player.old.ledger.config player.old.start
        (plays.play_lines script.now (plays.crew_of (length script.now.clients) 0) (playing player.old) (lines_of script.now.setup)).entries ears.new) }
    ensures along { IfOk result (λ _. HeardAlong B.counted B.told player.old.start.callbacks player.old.ledger.config (histories player.old.start.entries (after_lines script.now (plays.crew_of (length script.now.clients) 0) (playing player.old) (lines_of script.now.setup))) ears.old ears.new) }
    ensures part { OnErr result (HeardPart B.counted B.told player.old.start.callbacks player.old.ledger.config (histories player.old.start.entries (after_lines script.now (plays.crew_of (length script.now.clients) 0) (playing player.old) (lines_of script.now.setup))) ears.old ears.new) }
    ensures begun { ears.new.begun ≡ ears.old.begun }
    ensures heard { HaveHeard B.counted B.told ears.new }
{
    let clients = script.clients.as_slice().len() as u32;
    match &script.setup {
        Some(block) => play_lines(script, crew_of(clients, 0), player, block, ears),
        None => Ok(()),
    }
}

/// Plays a client's block, which begins with the names of the setup block.
fn play_client<B: Callback>(
    script: &Script,
    crew: Crew,
    names: &Names,
    player: &mut Player,
    block: &Block,
    ears: &mut Ears<B>,
) -> Result<(), AllocError>
    requires noted { IsNoted player.old }
    requires current { AreCurrentAfter B.counted B.told player.old.start.callbacks player.old.ledger ears.old }
    ensures played { IfOk result (λ _. GoesTo player.old
        (plays.play_lines script.now (crew_meant crew) (record (playing player.old) { names = names.now }) block.now) player.new) }
    ensures current { IfOk result (λ _. AreCurrentAfter B.counted B.told player.new.start.callbacks player.new.ledger ears.new) }
    ensures front { OnErr result (HaveFrontAfter B.counted B.told player.old.ledger.config player.old.start
        (plays.play_lines script.now (crew_meant crew) (record (playing player.old) { names = names.now }) block.now).entries ears.new) }
    ensures along { IfOk result (λ _. HeardAlong B.counted B.told player.old.start.callbacks player.old.ledger.config (histories player.old.start.entries (after_lines script.now (crew_meant crew) (record (playing player.old) { names = names.now }) block.now)) ears.old ears.new) }
    ensures part { OnErr result (HeardPart B.counted B.told player.old.start.callbacks player.old.ledger.config (histories player.old.start.entries (after_lines script.now (crew_meant crew) (record (playing player.old) { names = names.now }) block.now)) ears.old ears.new) }
    ensures begun { ears.new.begun ≡ ears.old.begun }
    ensures heard { HaveHeard B.counted B.told ears.new }
{
    player.begin_block(names.copied()?);
    play_lines(script, crew, player, block, ears)
}

/// Plays the clients' blocks, in order, each with the names of the setup block.
fn play_clients<B: Callback>(
    script: &Script,
    names: &Names,
    player: &mut Player,
    ears: &mut Ears<B>,
) -> Result<(), AllocError>
    requires few { length script.now.clients ≤ 32 }
    requires noted { IsNoted player.old }
    requires current { AreCurrentAfter B.counted B.told player.old.start.callbacks player.old.ledger ears.old }
    ensures played { IfOk result (λ _. GoesTo player.old (plays.play_clients script.now names.now 1 (playing player.old) script.now.clients) player.new) }
    ensures current { IfOk result (λ _. AreCurrentAfter B.counted B.told player.new.start.callbacks player.new.ledger ears.new) }
    ensures front { OnErr result (HaveFrontAfter B.counted B.told player.old.ledger.config player.old.start (plays.play_clients script.now names.now 1 (playing player.old) script.now.clients).entries ears.new) }
    ensures along { IfOk result (λ _. HeardAlong B.counted B.told player.old.start.callbacks player.old.ledger.config (histories player.old.start.entries (after_client_lines script.now names.now 1 (playing player.old) script.now.clients)) ears.old ears.new) }
    ensures part { OnErr result (HeardPart B.counted B.told player.old.start.callbacks player.old.ledger.config (histories player.old.start.entries (after_client_lines script.now names.now 1 (playing player.old) script.now.clients)) ears.old ears.new) }
    ensures begun { ears.new.begun ≡ ears.old.begun }
    ensures heard { HaveHeard B.counted B.told ears.new }
{
    let blocks = script.clients.as_slice();
    let clients = blocks.len() as u32;
    let mut number = 1;
    for block in blocks {
        play_client(script, crew_of(clients, number), names, player, block, ears)?;
        number += 1;
    }
    Ok(())
}

/// Plays the setup block, and then the clients' blocks.
pub fn play_blocks<B: Callback>(
    script: &Script,
    player: &mut Player,
    ears: &mut Ears<B>,
) -> Result<(), AllocError>
    requires few { length script.now.clients ≤ 32 }
    requires noted { IsNoted player.old }
    requires current { AreCurrentAfter B.counted B.told player.old.start.callbacks player.old.ledger ears.old }
    ensures played { IfOk result (λ _. GoesTo player.old
        (let first = plays.play_lines script.now (plays.crew_of (length script.now.clients) 0) (playing player.old) (lines_of script.now.setup) in
        plays.play_clients script.now first.names 1 first script.now.clients) player.new) }
    ensures current { IfOk result (λ _. AreCurrentAfter B.counted B.told player.new.start.callbacks player.new.ledger ears.new) }
    ensures front { OnErr result (HaveFrontAfter B.counted B.told player.old.ledger.config player.old.start
        (let first = plays.play_lines script.now (plays.crew_of (length script.now.clients) 0) (playing player.old) (lines_of script.now.setup) in
        plays.play_clients script.now first.names 1 first script.now.clients).entries ears.new) }
    ensures along { IfOk result (λ _. HeardAlong B.counted B.told player.old.start.callbacks player.old.ledger.config (histories player.old.start.entries (after_block_lines script.now (playing player.old))) ears.old ears.new) }
    ensures part { OnErr result (HeardPart B.counted B.told player.old.start.callbacks player.old.ledger.config (histories player.old.start.entries (after_block_lines script.now (playing player.old))) ears.old ears.new) }
    ensures begun { ears.new.begun ≡ ears.old.begun }
    ensures heard { HaveHeard B.counted B.told ears.new }
{
    play_setup(script, player, ears)?;
    let names = player.names().copied()?;
    play_clients(script, &names, player, ears)
}
