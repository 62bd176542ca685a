//! How changes are handed to callbacks: each change is one call of each callback that it is due to.
ghost use Rattle.std.specs.Prelude.{◌≡◌, ◌≤◌, is_some, length, sum_by, take};
ghost use Rattle.std.specs.List.{list_any};
ghost use Rattle.change_callbacks.specs.Hearing.{HasHeard};
ghost use Rattle.change_callbacks.specs.Ears.{EachHeard, notifications, due};

use crate::Callback;
use drmaa_types::{Change, Notification};

/// Tells each placed callback the changes that stand at its place or later, in order. The first change
/// has the place `from`. Where no number has a place it looks at no callback. Answers the number of calls.
pub(crate) fn tell_all<B: Callback>(
    callbacks: &mut [B],
    places: &[Option<u64>],
    is_any_placed: bool,
    from: u64,
    changes: &[Change],
) -> u64
    requires placed { is_any_placed ≡ list_any is_some places.now }
    requires places { length places.now ≤ 64 }
    requires few { length changes.now ≤ 64 }
    ensures heard { EachHeard B.counted B.told (due from changes.now) places.now callbacks.old callbacks.new }
    ensures answer { result ≡ sum_by (λ place. length (due from changes.now place)) (take (length callbacks.old) places.now) }
{
    if !is_any_placed {
        return 0;
    }
    let numbered = callbacks.len().min(places.len());
    let mut calls = 0;
    for i in 0..numbered {
        calls += tell(&mut callbacks[i], due(changes, from, places[i]));
    }
    calls
}

/// Of these changes, those that stand at this place or later; the first one has the place `from`.
fn due(changes: &[Change], from: u64, place: Option<u64>) -> &[Change]
    ensures { result.now ≡ due from changes.now place }
{
    match place {
        Some(place) => {
            let skipped = place.saturating_sub(from).min(changes.len() as u64);
            &changes[skipped as usize..]
        }
        None => &[],
    }
}

/// Tells a callback these changes, in order. Answers the number of calls.
fn tell<B: Callback>(callback: &mut B, changes: &[Change]) -> u64
    ensures heard { HasHeard B.counted B.told callback.old callback.new (notifications changes.now) }
    ensures answer { result ≡ length changes.now }
{
    for change in changes {
        callback.notify(&Notification::of(change));
    }
    changes.len() as u64
}
