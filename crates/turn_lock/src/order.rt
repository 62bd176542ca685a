//! The rule of the lock, as the table under it is told.
ghost use Rattle.turn_lock.specs.Views.{opener};
ghost use Rattle.turn_lock.specs.Rule.{LockHolds};

use crate::views::View;
use atomic_table::TableRule;
use drmaa_types::Chronicle;
use std::marker::PhantomData;
use std::snapshot::Snapshot;

/// The rule over a value of this type. The table is told the value that it begins with.
pub struct Order<V> {
    marker: PhantomData<V>,
}

impl<V: Chronicle> TableRule<Option<V>, View<V::Ask, V::Answer, V::Fixed>, Snapshot<V>>
    for Order<V> {
    ghost holds = { λ key. LockHolds V.entries V.fixed V.legal (V.fixed key.value) };

    ghost first = { λ key. opener (V.fixed key.value) };
}
