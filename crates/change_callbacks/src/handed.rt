//! What was handed over so far, known to contracts alone.
ghost use Rattle.std.specs.Prelude.{◌≡◌, [], ◌∷◌, ◌++◌};

use drmaa_types::Change;
use std::marker::Model;
use std::snapshot::Snapshot;

/// The changes handed over so far: those before the last one, and that one. Nothing was handed over where there are none before.
#[derive(Drop)]
pub(crate) struct Handed {
    before: Option<Snapshot<Handed>>,
    last: Snapshot<Change>,
}

impl Model for Handed {
    ghost use Rattle.std.specs.Option.{option_map};
    ghost use Rattle.change_callbacks.specs.Handed.{HandedOver, one_more};

    ghost Value = { HandedOver };

    ghost view = { λ h. one_more (option_map (λ b. b.value) h.before) h.last.value };

    ghost size = { λ over. over.count };
}

impl Handed {
    /// No change.
    pub(crate) fn nothing() -> Handed
        ensures { result.changes ≡ [] }
    {
        Handed {
            before: None,
            last: Snapshot::of(&Change::default()),
        }
    }

    /// These changes, and one after them.
    fn with(&self, change: &Change) -> Handed
        ensures { result.changes ≡ self.now.changes ++ change.now ∷ [] }
    {
        Handed {
            before: Some(Snapshot::of(self)),
            last: Snapshot::of(change),
        }
    }

    /// Further changes were handed over.
    pub(crate) fn follow(&mut self, changes: &[Change])
        ensures { self.new.changes ≡ self.old.changes ++ changes.now }
    {
        for change in changes {
            *self = self.with(change);
        }
    }
}
