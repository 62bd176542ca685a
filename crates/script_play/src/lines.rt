//! The play of a line.
ghost use Rattle.std.specs.Prelude.{◌≡◌, IfOk};
ghost use Rattle.text_codec.specs.Formats.{choose};
ghost use Rattle.script_asks.specs.Plays as plays;
ghost use Rattle.script_play.specs.Crews.{crew_meant};
ghost use Rattle.script_play.specs.Looks.{GoesTo};
ghost use Rattle.script_play.specs.View.{IsNoted, playing};

use crate::crews::{Crew, Performer, performer_of};
use crate::players::{Looked, Player, later};
use drmaa_types::CallerId;
use script_lines::Line;
use script_text::Script;
use std::alloc::AllocError;

/// Plays a line that looks at the machine once.
fn play_call(
    script: &Script,
    caller: CallerId,
    player: &mut Player,
    line: &Line,
) -> Result<(), AllocError>
    requires { IsNoted player.old }
    ensures { IfOk result (λ _. GoesTo player.old (choose (plays.asks_now script.now (playing player.old) line.now)
        (λ c. plays.after_look (playing player.old) caller line.now c (playing player.old)) (playing player.old)) player.new) }
{
    let begun = player.moment();
    match player.ask(script, begun, line) {
        Ok(Some(call)) => {
            player.look(caller, line, call)?;
            Ok(())
        }
        Ok(None) => Ok(()),
        Err(why) => Err(why),
    }
}

/// The second look of a wait that begins now, at the end of its timeout.
fn look_later(
    script: &Script,
    caller: CallerId,
    player: &mut Player,
    line: &Line,
    timeout: u64,
) -> Result<(), AllocError>
    requires { IsNoted player.old }
    ensures { IfOk result (λ _. GoesTo player.old (choose (plays.asks_now script.now (playing player.old) line.now)
        (λ c. plays.second_look (plays.come_later (playing player.old) timeout) caller line.now c) (plays.come_later (playing player.old) timeout)) player.new) }
{
    let begun = player.moment();
    player.come_to(later(begun, timeout));
    match player.ask(script, begun, line)? {
        Some(call) => {
            player.look(caller, line, call)?;
            Ok(())
        }
        None => Ok(()),
    }
}

/// Plays a wait: it looks at the machine, and where what it waits for has not come, once more at the end of its timeout.
fn play_wait(
    script: &Script,
    caller: CallerId,
    player: &mut Player,
    line: &Line,
    timeout: u64,
) -> Result<(), AllocError>
    requires { IsNoted player.old }
    ensures { IfOk result (λ _. GoesTo player.old (choose (plays.asks_now script.now (playing player.old) line.now)
        (λ c. plays.after_look (playing player.old) caller line.now c (plays.second_look (plays.come_later (playing player.old) timeout) caller line.now c))
        (playing player.old)) player.new) }
{
    let begun = player.moment();
    match player.ask(script, begun, line)? {
        Some(call) => match player.look(caller, line, call)? {
            Looked::Done => Ok(()),
            Looked::NotYet => look_later(script, caller, player, line, timeout),
        },
        None => Ok(()),
    }
}

/// Plays a line. After an `Err` memory ran out, and the play is lost.
pub fn play_line(
    script: &Script,
    crew: Crew,
    player: &mut Player,
    line: &Line,
) -> Result<(), AllocError>
    requires { IsNoted player.old }
    ensures { IfOk result (λ _. GoesTo player.old (plays.play_line script.now (crew_meant crew) (playing player.old) line.now) player.new) }
{
    if player.is_full() {
        return Ok(());
    }
    match performer_of(line) {
        Performer::Sets(moment) => {
            player.come_to(moment);
            Ok(())
        }
        Performer::Waits(timeout) => play_wait(script, crew.client, player, line, timeout),
        Performer::Client => play_call(script, crew.client, player, line),
        Performer::Launcher => play_call(script, crew.launcher, player, line),
        Performer::Reaper => play_call(script, crew.reaper, player, line),
    }
}
