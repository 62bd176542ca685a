//! Two jobs, of which the second waits.
ghost use Rattle.drmaa_model.specs.History.{IsLegal, replay};
ghost use Rattle.forecast.specs.Starts.{AreForetold};
ghost use Rattle.forecast_rows.specs.Histories as rows;
ghost use Rattle.forecast_rows.specs.Histories.{node};

/// A job starts at the moment at which time asks another to end that has its slots.
pub fn a_job_starts_where_another_ends()
    ensures legal { IsLegal node rows.two_jobs }
    ensures starts { AreForetold (replay node rows.two_jobs) (rows.second_starts 50) }
{}

/// A job that would run into a reservation starts where the reservation ends.
pub fn a_job_starts_where_a_reservation_ends()
    ensures legal { IsLegal node rows.beside_reservation }
    ensures starts { AreForetold (replay node rows.beside_reservation) (rows.second_starts 100) }
{}
