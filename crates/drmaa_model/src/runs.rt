//! What is true of the runs of jobs, of the load and of reservations. Each law is the contract of a function that does
//! nothing.
ghost use Rattle.std.specs.Prelude.{◌≡◌, ◌+◌, ◌≤◌, ℕ, List, None, Some, IsSome, false, true};
ghost use Rattle.std.specs.List.{AllByRecursion};
ghost use Rattle.drmaa_types.specs.Moments.{greatest};
ghost use Rattle.drmaa_types.specs.declared.identifiers.JobId.{JobId};
ghost use Rattle.drmaa_types.specs.declared.moments.End.{End};
ghost use Rattle.drmaa_types.specs.declared.states.Exit.{Exit};
ghost use Rattle.drmaa_types.specs.declared.states.SignalKind.{SignalKind};
ghost use Rattle.drmaa_model.specs.declared.calls.Call.{Call};
ghost use Rattle.drmaa_model.specs.declared.configs.Config.{Config};
ghost use Rattle.drmaa_model.specs.declared.entries.Entry.{Entry};
ghost use Rattle.drmaa_model.specs.declared.replies.Launch.{Launch};
ghost use Rattle.drmaa_model.specs.declared.replies.Reply.{Reply};
ghost use Rattle.drmaa_model.specs.declared.rows.Row.{Row};
ghost use Rattle.drmaa_model.specs.BoundaryLaws.{FitsStarts};
ghost use Rattle.drmaa_model.specs.Effects.{gives};
ghost use Rattle.drmaa_model.specs.Fit.{IsFit};
ghost use Rattle.drmaa_model.specs.History.{IsLegal, replay};
ghost use Rattle.drmaa_model.specs.Honoured.{IsOnTime, IsDueInside};
ghost use Rattle.drmaa_model.specs.LegalRunLaws.{IsLastLaunch};
ghost use Rattle.drmaa_model.specs.Load.{fits};
ghost use Rattle.drmaa_model.specs.NextLaunch.{held, next_launch, settled, IsReady};
ghost use Rattle.drmaa_model.specs.NextLaunchLaws.{IsFirst};
ghost use Rattle.drmaa_model.specs.Plan.{Plan};
ghost use Rattle.drmaa_model.specs.Refusals.{refusal};
ghost use Rattle.drmaa_model.specs.Runs.{is_launched};
ghost use Rattle.drmaa_model.specs.SettledLaws.{IsQuiet};
ghost use Rattle.drmaa_model.specs.Steps.{answer};
ghost use Rattle.drmaa_model.specs.Time.{advance, advance_plan};
ghost use Rattle.drmaa_model.specs.World.{World};

/// In a legal history each launch is new: the job was not handed out before as its launch of this number.
pub fn a_launch_is_new()
    ensures { (config : Config) (history : List Entry) (at : ℕ) (told : Launch) (next : World) → IsLegal config history →
        answer (replay config history) at Call.TakeLaunch ≡ gives (Reply.Launch told) next → is_launched history told.job.0 told.attempt ≡ false }
{}

/// In a legal history a report of a start, of an end or of a signal that is accepted is of the job's last launch.
pub fn a_report_is_of_the_last_launch()
    ensures started { (config : Config) (history : List Entry) (at : ℕ) (job : JobId) (attempt : ℕ) → IsLegal config history →
        refusal (advance (replay config history) at) (Call.Started job attempt) ≡ None → IsLastLaunch history job.0 attempt }
    ensures start_failed { (config : Config) (history : List Entry) (at : ℕ) (job : JobId) (attempt : ℕ) → IsLegal config history →
        refusal (advance (replay config history) at) (Call.StartFailed job attempt) ≡ None → IsLastLaunch history job.0 attempt }
    ensures exited { (config : Config) (history : List Entry) (at : ℕ) (job : JobId) (attempt : ℕ) (exit : Exit) → IsLegal config history →
        refusal (advance (replay config history) at) (Call.Exited job attempt exit) ≡ None → IsLastLaunch history job.0 attempt }
    ensures exit_unknown { (config : Config) (history : List Entry) (at : ℕ) (job : JobId) (attempt : ℕ) → IsLegal config history →
        refusal (advance (replay config history) at) (Call.ExitUnknown job attempt) ≡ None → IsLastLaunch history job.0 attempt }
    ensures signal_done { (config : Config) (history : List Entry) (at : ℕ) (job : JobId) (attempt : ℕ) (kind : SignalKind) → IsLegal config history →
        refusal (advance (replay config history) at) (Call.SignalDone job attempt kind) ≡ None → IsLastLaunch history job.0 attempt }
    ensures signal_failed { (config : Config) (history : List Entry) (at : ℕ) (job : JobId) (attempt : ℕ) (kind : SignalKind) → IsLegal config history →
        refusal (advance (replay config history) at) (Call.SignalFailed job attempt kind) ≡ None → IsLastLaunch history job.0 attempt }
{}

/// The job that is launched next is ready for its slots, and for no more of those that it can use. It stands
/// before each other job that is ready. Where no job is launched, none is ready.
pub fn the_next_launch_is_the_first_ready()
    ensures first { (p : Plan) (row : Row) (slots : ℕ) → IsFit p → next_launch p ≡ Some (row, slots) → IsFirst p row slots }
    ensures none { (p : Plan) → next_launch p ≡ None → AllByRecursion (λ (row : Row). IsReady p row.wants.min row → ⊥) p.rows }
{}

/// A job may come now, its reservation covers the moment and has its least number of slots left, no started ordinary
/// job is past its planned end, and each started job that names a reservation is inside it: then the slots are free,
/// and a launch finds a job.
pub fn reservations_are_honoured()
    ensures { (p : Plan) (row : Row) → p.moment ≤ greatest → IsFit p → IsOnTime p → IsDueInside p row →
        (held p.rows + row.wants.min ≤ p.total) × IsSome (next_launch p) }
{}

/// So many slots fit an interval exactly where they fit its start and each start of a reservation inside it.
pub fn an_interval_fits_where_its_starts_do()
    ensures fits { (p : Plan) (slots from : ℕ) (until : End) → FitsStarts p slots from until → fits p slots from until ≡ true }
    ensures starts { (p : Plan) (slots from : ℕ) (until : End) → fits p slots from until ≡ true → FitsStarts p slots from until }
{}

/// A settled plan has no job that holds slots and no order, and neither has the plan before time acted.
pub fn a_settled_plan_is_quiet()
    ensures now { (p : Plan) → settled p ≡ true → IsQuiet p }
    ensures before { (entry at : ℕ) (p : Plan) → IsFit p → settled (advance_plan entry at p) ≡ true → IsQuiet p }
{}
