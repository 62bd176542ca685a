//! Control of jobs, signals, and jobs that are queued again.
ghost use Rattle.std.specs.Prelude.{◌≡◌, ◌++◌};
ghost use Rattle.drmaa_model.specs.declared.calls.Call.TheVariants as call;
ghost use Rattle.drmaa_model.specs.Effects.{nothing};
ghost use Rattle.drmaa_model.specs.History.{IsLegal, replay};
ghost use Rattle.drmaa_model.specs.Steps.{answer};
ghost use Rattle.model_rows.specs.Controls as rows;
ghost use Rattle.model_rows.specs.Jobs.{no_suspend};
ghost use Rattle.model_rows.specs.Machines.{node};

/// A started job that is terminated runs on until its end is reported, and its one signal is handed out once.
pub fn a_job_is_killed()
    ensures legal { IsLegal node (rows.asked_to_end ++ rows.killed) }
    ensures taken { answer (replay node rows.asked_to_end) 0 call.TakeSignal ≡ nothing }
{}

/// Exit code 99 queues a rerunnable job again, which may be held then; one that was asked to end fails.
pub fn a_job_is_queued_again()
    ensures { IsLegal node rows.queued_again }
{}

/// A machine that can't suspend refuses to, but for a job that is not there; the end of a suspended job takes its signal with it.
pub fn a_job_is_suspended()
    ensures refused { IsLegal no_suspend rows.not_suspended }
    ensures legal { IsLegal node (rows.suspended ++ rows.suspended_ended) }
    ensures removed { answer (replay node rows.suspended) 0 call.TakeSignal ≡ nothing }
{}
