//! Queues with limits on the slots of their jobs.
ghost use Rattle.std.specs.Prelude.{◌≡◌, ◌++◌};
ghost use Rattle.drmaa_model.specs.declared.calls.Call.TheVariants as call;
ghost use Rattle.drmaa_model.specs.Effects.{nothing};
ghost use Rattle.drmaa_model.specs.History.{IsLegal, replay};
ghost use Rattle.drmaa_model.specs.Steps.{answer};
ghost use Rattle.model_rows.specs.Machines.{node};
ghost use Rattle.model_rows.specs.Queues as rows;

/// The jobs of a queue hold no more slots than its limit; one whose queue is full waits, and another is launched.
pub fn a_queue_bounds_its_jobs()
    ensures legal { IsLegal rows.queued_node (rows.up_to_limits ++ rows.then_the_waiting) }
    ensures waits { answer (replay rows.queued_node rows.up_to_limits) 0 call.TakeLaunch ≡ nothing }
{}

/// A job that names a queue that is not there is refused, and one that asks for more slots than its queue has. Without queues
/// none may be named.
pub fn a_job_names_a_queue_that_is_there()
    ensures queues { IsLegal rows.queued_node rows.wrong_queues }
    ensures unsupported { IsLegal node rows.no_queues }
{}

/// A job of a reservation may hold more slots than its queue has, and they do not count there.
pub fn no_queue_bounds_the_jobs_of_a_reservation()
    ensures { IsLegal rows.queued_node rows.unbound }
{}
