//! What follows from the rules alone. Each law is the contract of a function that does nothing.
ghost use Rattle.std.specs.Prelude.{◌≡◌, ◌≢◌, Bool, ℕ, Option, IsTrue, IsFalse, IfSome};
ghost use Rattle.drmaa_types.specs.States as rule;
ghost use Rattle.drmaa_types.specs.declared.states.JobState.{JobState};
ghost use Rattle.drmaa_types.specs.declared.states.Control.{Control};
ghost use Rattle.drmaa_types.specs.declared.states.Exit.{Exit};

use drmaa_types::{Control, JobState};

/// Every exit of a started job, known or not, goes along an edge.
pub fn exits_go_along_edges()
    ensures { (state : JobState) (exit : Option Exit) (rerunnable asked : Bool) → IsTrue (rule.is_started state)
        → IsTrue (rule.may state (rule.after_exit exit rerunnable asked)) }
{}

/// Every failed start of a started job goes along an edge.
pub fn failed_starts_go_along_edges()
    ensures { (state : JobState) (attempt : ℕ) (rerunnable asked : Bool) → IsTrue (rule.is_started state)
        → IsTrue (rule.may state (rule.after_start_failure attempt rerunnable asked)) }
{}

/// Every control call that a job's state permits goes along an edge, but for terminating a started
/// job.
pub fn controls_go_along_edges()
    ensures other_calls { (state : JobState) (control : Control) → control ≢ Control.Terminate
        → IfSome (rule.after_control state control) (λ next. IsTrue (rule.may state next)) }
    ensures other_states { (state : JobState) (control : Control) → IsFalse (rule.is_started state)
        → IfSome (rule.after_control state control) (λ next. IsTrue (rule.may state next)) }
{}

/// Terminating a started job is permitted, and leaves its state as it is.
pub fn terminating_a_started_job_leaves_its_state()
    ensures { (state : JobState) → IsTrue (rule.is_started state)
        → rule.after_control state Control.Terminate ≡ Some state }
{}

/// What a wait waits for stays so once it has come: every edge keeps "has started" and "has
/// terminated".
pub fn edges_keep_what_has_come()
    ensures started { (from to : JobState) → IsTrue (rule.may from to)
        → IsTrue (rule.has_started from) → IsTrue (rule.has_started to) }
    ensures terminated { (from to : JobState) → IsTrue (rule.may from to)
        → IsTrue (rule.has_terminated from) → IsTrue (rule.has_terminated to) }
{}

/// Nothing leaves DONE or FAILED.
pub fn nothing_leaves_an_ended_job()
    ensures { (from to : JobState) → IsTrue (rule.has_terminated from) → IsFalse (rule.may from to) }
{}

/// No edge leads to UNDETERMINED.
pub fn nothing_leads_to_undetermined()
    ensures { (from : JobState) → IsFalse (rule.may from JobState.Undetermined) }
{}
