//! What follows from what launcher and reaper keep.
ghost use Rattle.std.specs.Prelude.{◌≡◌, ℕ, [], List, Option, Some, None};
ghost use Rattle.child_spawner.specs.declared.fates.Asked.{Asked};
ghost use Rattle.child_spawner.specs.declared.fates.Fate.{Fate};
ghost use Rattle.drmaa_model.specs.declared.entries.Entry.{Entry};
ghost use Rattle.call_history.specs.Callers.{calls_of};
ghost use Rattle.attendant.specs.Acts.{acts_of};
ghost use Rattle.attendant.specs.declared.reaper.Held.{Held};
ghost use Rattle.attendant.specs.declared.reaper.Hand.{Hand};
ghost use Rattle.attendant.specs.Outside.{Keeps, AgreesOf};
ghost use Rattle.attendant.specs.Whole.{AgreesWithOutside, AreAlone};

use child_spawner::Child;

/// Before the first round all is kept, and it agrees with a spawner of which nothing was asked.
pub fn nothing_is_kept<T: Child>()
    ensures untold { (fate : ℕ → Fate) (at : ℕ → Option (Held T)) → ((k : ℕ) → at k ≡ None) → Keeps T.told None fate [] [] at None }
    ensures keeps { (fate : ℕ → Fate) (at : ℕ → Option (Held T)) → ((k : ℕ) → at k ≡ None) → Keeps T.told (Some []) fate [] [] at None }
    ensures agrees { (fate : ℕ → Fate) → AgreesOf (Some []) fate [] [] }
{}

/// What launcher and reaper keep of their own entries in a history says that the outside agrees with it.
pub fn the_outside_agrees<T: Child>()
    ensures { (launcher reaper : ℕ) (starts : List Asked) (fate : ℕ → Fate) (history : List Entry) (at : ℕ → Option (Held T)) (hand : Option Hand) →
        AreAlone launcher reaper (acts_of history) →
        Keeps T.told (Some starts) fate (acts_of (calls_of history launcher)) (acts_of (calls_of history reaper)) at hand →
        AgreesOf (Some starts) fate (acts_of (calls_of history launcher)) (acts_of (calls_of history reaper)) →
        AgreesWithOutside starts fate (acts_of history) }
{}
