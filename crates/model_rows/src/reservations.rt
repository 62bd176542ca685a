//! Reservations.
ghost use Rattle.std.specs.Prelude.{◌≡◌, ◌++◌};
ghost use Rattle.drmaa_model.specs.declared.calls.Call.TheVariants as call;
ghost use Rattle.drmaa_model.specs.Effects.{nothing};
ghost use Rattle.drmaa_model.specs.History.{IsLegal, replay};
ghost use Rattle.drmaa_model.specs.Steps.{answer};
ghost use Rattle.model_rows.specs.Reservations as rows;
ghost use Rattle.model_rows.specs.Machines.{node};

/// A job is not launched where it would run into a reservation, and one that ends as it begins is.
pub fn a_launch_keeps_out_of_reservations()
    ensures legal { IsLegal node (rows.before_reservation ++ rows.as_it_begins) }
    ensures waits { answer (replay node rows.before_reservation) 6 call.TakeLaunch ≡ nothing }
{}

/// The least start that fits; the least overfull moment of a fixed interval; none where a frame has no start.
pub fn a_frame_is_filled_from_its_start()
    ensures legal { IsLegal node rows.frames }
    ensures full { IsLegal node rows.no_start }
{}

/// A job that runs into a reservation holds its slots until its end is reported; then a job of the reservation is launched.
pub fn a_job_waits_in_its_reservation()
    ensures legal { IsLegal node (rows.in_the_way ++ rows.out_of_the_way) }
    ensures waits { answer (replay node rows.in_the_way) 3 call.TakeLaunch ≡ nothing }
{}

/// A reservation is told until it is ended, and a destroyed session's numbers are gone.
pub fn a_reservation_is_told_and_ended()
    ensures { IsLegal node rows.told_and_ended }
{}
