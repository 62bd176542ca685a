//! The changes: what became of the jobs' states, in order.
ghost use Rattle.std.specs.Prelude.{◌≡◌, ◌+◌, ◌≤◌, ◌++◌, ◌∷◌, [], vec_len, vec_capacity, if◌then◌else◌};
ghost use Rattle.drmaa_types.specs.States.{is_state};

use crate::states::is_state;
use drmaa_types::Change;

/// Adds a change, unless it leads to the state that it comes from.
pub fn push_change(changes: &mut Vec<Change>, change: Change)
    requires { vec_len changes.old + (if is_state change.from change.to then 0 else 1) ≤ vec_capacity changes.old }
    ensures items { changes.new.items ≡ changes.old.items ++ (if is_state change.from change.to then [] else change ∷ []) }
    ensures len { vec_len changes.new ≡ vec_len changes.old + (if is_state change.from change.to then 0 else 1) }
    ensures capacity { vec_capacity changes.new ≡ vec_capacity changes.old }
{
    if !is_state(change.from, change.to) {
        changes.push_reserved(change);
    }
}
