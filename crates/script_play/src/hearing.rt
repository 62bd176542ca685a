//! Callbacks that hear a play, line by line.
ghost use Rattle.std.specs.Prelude.{◌≡◌, take, length};
ghost use Rattle.drmaa_model.specs.History.{IsLegal, now_of};
ghost use Rattle.change_callbacks.specs.Ears.{HaveHeard, silent};
ghost use Rattle.script_play.specs.Along.{IsHandedOn};
ghost use Rattle.script_play.specs.Callbacks.{AreCurrentAfter, AreBehind};
ghost use Rattle.script_play.specs.View.{start_of};

use crate::players::{Counts, Player};
use change_callbacks::{Callback, Ears};

/// Hands over the changes from this place on, where those before it were handed over.
fn hand_over<B: Callback>(player: &Player, from: usize, ears: &mut Ears<B>)
    requires front { ears.old.handed ≡ take from (now_of player.now.ledger).plan.changes }
    requires count { length ears.old.handed ≡ from }
    ensures handed { ears.new ≡ record ears.old { callbacks = ears.new.callbacks; handed = (now_of player.now.ledger).plan.changes } }
    ensures heard { HaveHeard B.counted B.told ears.old → HaveHeard B.counted B.told ears.new }
    ensures further { IsHandedOn B.counted B.told ears.old ears.new }
{
    let count = player.counts().changes;
    let mut next = from;
    while next < count {
        let batch = player.changes_from(next);
        ears.hand(next as u64, batch);
        next += batch.len();
    }
}

/// Hands over the changes that there were before the play. No callback has a place yet, so none hears them. It takes no memory.
pub fn pass_over<B: Callback>(player: &Player, ears: &mut Ears<B>)
    requires unplayed { player.now.start ≡ start_of player.now.ledger }
    requires legal { IsLegal player.now.ledger.config player.now.ledger.history }
    requires silent { ears.old ≡ silent ears.old.begun }
    requires unheard { HaveHeard B.counted B.told ears.old }
    ensures current { AreCurrentAfter B.counted B.told player.now.start.callbacks player.now.ledger ears.new }
    ensures begun { ears.new.begun ≡ ears.old.begun }
    ensures further { IsHandedOn B.counted B.told ears.old ears.new }
{
    hand_over(player, 0, ears);
}

/// Gives the callback that the play's last line registered, if it did, its place behind the changes that there are then, and hands
/// over what has changed since there were so many entries and changes. It takes no memory.
pub fn hear<B: Callback>(player: &Player, before: Counts, ears: &mut Ears<B>)
    requires { AreBehind B.counted B.told player.now.start.callbacks before.entries before.changes player.now.ledger ears.old }
    ensures current { AreCurrentAfter B.counted B.told player.now.start.callbacks player.now.ledger ears.new }
    ensures begun { ears.new.begun ≡ ears.old.begun }
    ensures further { IsHandedOn B.counted B.told ears.old ears.new }
{
    let Counts { entries, changes } = before;
    if let Some(number) = player.registered(entries) {
        ears.place(number, player.counts().changes as u64);
    }
    hand_over(player, changes, ears);
}
