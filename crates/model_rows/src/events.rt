//! The moments at which time may change something.
ghost use Rattle.std.specs.Prelude.{◌≡◌, Some};
ghost use Rattle.drmaa_model.specs.Events.{next_event};
ghost use Rattle.drmaa_model.specs.History.{IsLegal, replay};
ghost use Rattle.model_rows.specs.Events as rows;
ghost use Rattle.model_rows.specs.Machines.{node};

/// The next moment is a planned end, then a start, a deadline, and the two ends of a reservation.
pub fn time_has_a_next_event()
    ensures legal { IsLegal node rows.eventful }
    ensures planned { next_event (replay node rows.eventful).plan 0 ≡ Some 3 }
    ensures start { next_event (replay node rows.eventful).plan 3 ≡ Some 5 }
    ensures deadline { next_event (replay node rows.eventful).plan 5 ≡ Some 7 }
    ensures from { next_event (replay node rows.eventful).plan 7 ≡ Some 10 }
    ensures until { next_event (replay node rows.eventful).plan 10 ≡ Some 20 }
{}
