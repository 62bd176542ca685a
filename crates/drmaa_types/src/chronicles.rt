//! A value that keeps a history of what it was asked and what it answered.
ghost use Rattle.std.specs.Prelude.{◌≡◌, ◌+◌, ◌^◌, ◌<◌, List, [], ◌∷◌, ◌++◌, length, IfOk, IfErr, OnErr};
ghost use Rattle.drmaa_types.specs.declared.chronicles.ChronicleEntry.{ChronicleEntry};
ghost use Rattle.drmaa_types.specs.declared.identifiers.CallerId.{CallerId};

use crate::CallerId;

/// One entry of a history: who asked, what, and what was answered.
#[derive(Drop)]
pub struct ChronicleEntry<Ask, Answer> {
    pub caller: CallerId,
    pub ask: Ask,
    pub answer: Answer,
}

/// A value whose meaning is a list of entries and a fixed part.
///
/// Each call of `act` that answers `Ok` appends one entry; one that answers `Err` leaves the value as it was.
pub trait Chronicle {
    /// What is asked.
    type Ask;
    /// What is answered.
    type Answer;
    /// Why no entry was made.
    type Fault;
    /// Plain data that no call changes.
    type Fixed;

    /// The entries, in order.
    ghost entries: { Self → List (ChronicleEntry Self.Ask Self.Answer) };

    /// The fixed part.
    ghost fixed: { Self → Self.Fixed };

    /// What an entry holds of what was asked.
    ghost kept: { Self.Ask → Self.Ask };

    /// Holds of the entries of each value, for its fixed part.
    ghost legal: { Self.Fixed → List (ChronicleEntry Self.Ask Self.Answer) → Type 0 };

    /// When this fault may come: after these entries, to this caller who asks this.
    ghost fails: { Self.Fixed → List (ChronicleEntry Self.Ask Self.Answer) → CallerId → Self.Ask → Self.Fault → Type 0 };

    /// Asks the value, in this caller's name.
    fn act(&mut self, caller: CallerId, ask: Self::Ask) -> Result<Self::Answer, Self::Fault>
        ensures ok { IfOk result (λ answer. entries self.new
            ≡ entries self.old ++ (record { caller = caller; ask = kept ask; answer = answer }) ∷ []) }
        ensures err { OnErr result (entries self.new ≡ entries self.old) }
        ensures fails { IfErr result (fails (fixed self.old) (entries self.old) caller ask) }
        ensures fixed { fixed self.new ≡ fixed self.old }
        ensures legal { legal (fixed self.new) (entries self.new) }
        ensures short { length (entries self.new) + 1 < 2 ^ 64 };
}
