//! What holds of the lock in every state between two steps of its passes. The law is the contract of a function that
//! does nothing.
ghost use Rattle.std.specs.Prelude.{Option};
ghost use Rattle.atomic_table.specs.Table.{State};
ghost use Rattle.turn_lock.specs.declared.views.View.{View};
ghost use Rattle.turn_lock.specs.Rule.{LockHolds};
ghost use Rattle.turn_lock.specs.Owners.{HasOneTurn, HasOneOwner, IsWithTurn};

use drmaa_types::Chronicle;

/// In each state that meets the rule of a lock, at most one view is in turn: its ticket is the next to be served, and
/// the value is out. No two views have the same ticket. Where the value is out, a view is in turn with the next ticket.
pub fn no_two_turns<V: Chronicle>()
    ensures turn { (fixed : V.Fixed) (s : State (Option V) (View V.Ask V.Answer V.Fixed)) → LockHolds V.entries V.fixed V.legal fixed s → HasOneTurn s }
    ensures ticket { (fixed : V.Fixed) (s : State (Option V) (View V.Ask V.Answer V.Fixed)) → LockHolds V.entries V.fixed V.legal fixed s → HasOneOwner s }
    ensures out { (fixed : V.Fixed) (s : State (Option V) (View V.Ask V.Answer V.Fixed)) → LockHolds V.entries V.fixed V.legal fixed s → IsWithTurn s }
{}
