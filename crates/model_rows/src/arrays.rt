//! Arrays of jobs, and waits.
ghost use Rattle.std.specs.Prelude.{◌≡◌, ◌++◌};
ghost use Rattle.drmaa_model.specs.declared.calls.Call.TheVariants as call;
ghost use Rattle.drmaa_model.specs.Effects.{nothing, not_yet};
ghost use Rattle.drmaa_model.specs.History.{IsLegal, replay};
ghost use Rattle.drmaa_model.specs.Steps.{answer};
ghost use Rattle.model_rows.specs.Arrays as rows;
ghost use Rattle.model_rows.specs.Machines.{node};

/// What is done to an array is done to each member that permits it, and refused where none does.
pub fn an_array_is_controlled_as_a_whole()
    ensures { IsLegal node rows.whole_array }
{}

/// A job that ended before it ran answers a wait for its start.
pub fn a_job_that_never_ran_has_started()
    ensures { IsLegal node rows.never_ran }
{}

/// Each member is told its index, and no more members run at once than the bound.
pub fn an_array_runs_within_its_bound()
    ensures legal { IsLegal node (rows.two_at_once ++ rows.then_the_third) }
    ensures waits { answer (replay node rows.two_at_once) 0 call.TakeLaunch ≡ nothing }
{}

/// A wait answers the first listed job that has ended, or times out.
pub fn a_wait_answers_or_times_out()
    ensures legal { IsLegal node (rows.two_ended ++ rows.timed_out) }
    ensures waits { answer (replay node rows.two_ended) 0 rows.two_seconds ≡ not_yet }
{}
