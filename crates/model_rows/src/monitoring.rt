//! Monitoring, and jobs whose session is destroyed.
ghost use Rattle.drmaa_model.specs.History.{IsLegal};
ghost use Rattle.model_rows.specs.Machines.{node};
ghost use Rattle.model_rows.specs.Monitoring as rows;

/// Monitoring is told of every job, and may reap one whose session is destroyed once it has ended.
pub fn a_job_outlives_its_session()
    ensures { IsLegal node rows.monitored }
{}
