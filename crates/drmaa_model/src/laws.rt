//! What is true of every plan, of every world and of every step. Each law is the contract of a function that does
//! nothing: the clause speaks of all plans, calls, moments and worlds.
ghost use Rattle.std.specs.Prelude.{◌≡◌, ◌≢◌, ◌+◌, ◌≤◌, ◌==◌, ◌||◌, ◌∷◌, [], ℕ, List, Option, Some, None, IfSome, codes, is_some, length, max, nat_lt, true};
ghost use Rattle.drmaa_types.specs.declared.identifiers.JobId.{JobId};
ghost use Rattle.drmaa_types.specs.declared.identifiers.ReservationId.{ReservationId};
ghost use Rattle.drmaa_types.specs.Queues.{queue_at};
ghost use Rattle.drmaa_types.specs.declared.queues.QueueSpec.{QueueSpec};
ghost use Rattle.drmaa_types.specs.declared.refusals.Attribute.TheVariants as attribute;
ghost use Rattle.drmaa_types.specs.declared.refusals.Refusal.TheVariants.{UnsupportedAttribute};
ghost use Rattle.drmaa_types.specs.declared.states.Control.{Control};
ghost use Rattle.job_template.specs.JobTests.{is_bad_least, queue_test};
ghost use Rattle.job_template.specs.Wants.{min_slots};
ghost use Rattle.job_template.specs.declared.templates.JobTemplate.{JobTemplate};
ghost use Rattle.job_template.specs.declared.templates.ReservationTemplate.{ReservationTemplate};
ghost use Rattle.drmaa_model.specs.declared.calls.Indices.{Indices};
ghost use Rattle.drmaa_model.specs.declared.calls.Report.{Report};
ghost use Rattle.drmaa_model.specs.declared.calls.Target.{Target};
ghost use Rattle.drmaa_model.specs.declared.configs.Config.{Config};
ghost use Rattle.drmaa_model.specs.declared.courses.Course.{Course};
ghost use Rattle.drmaa_model.specs.declared.entries.Entry.{Entry};
ghost use Rattle.drmaa_model.specs.declared.replies.Reply.{Reply};
ghost use Rattle.drmaa_model.specs.declared.rows.Row.{Row};
ghost use Rattle.drmaa_model.specs.Consistent.{IsConsistent, AddsEdges};
ghost use Rattle.drmaa_model.specs.Controlling.{control, reap};
ghost use Rattle.drmaa_model.specs.Courses.{launched, planned_end};
ghost use Rattle.drmaa_model.specs.Effects.{gives, through, unit, forget_home};
ghost use Rattle.drmaa_model.specs.Fit.{IsFit};
ghost use Rattle.drmaa_model.specs.Growth.{growth, is_of_run};
ghost use Rattle.drmaa_model.specs.History.{IsLegal, replay};
ghost use Rattle.drmaa_model.specs.Infos.{queue_name, queue_names};
ghost use Rattle.drmaa_model.specs.Launching.{launch, signal};
ghost use Rattle.drmaa_model.specs.Load.{fits, in_queue};
ghost use Rattle.drmaa_model.specs.Moving.{MovesOne, ReportMoves};
ghost use Rattle.drmaa_model.specs.OperationLaws.{KeepsFit};
ghost use Rattle.drmaa_model.specs.NextLaunch.{has_slots_free, next_launch};
ghost use Rattle.drmaa_model.specs.Plan.{Plan};
ghost use Rattle.drmaa_model.specs.QueueLaws.{ArePlaced, AreQueueless};
ghost use Rattle.drmaa_model.specs.Reporting.{report_of};
ghost use Rattle.drmaa_model.specs.Requests.{request, end_reservation};
ghost use Rattle.drmaa_model.specs.Resting.{IsResting};
ghost use Rattle.drmaa_model.specs.Rows.{row_of};
ghost use Rattle.drmaa_model.specs.Size.{size, weight};
ghost use Rattle.drmaa_model.specs.Steps.{IsStep};
ghost use Rattle.drmaa_model.specs.Submitting.{submit};
ghost use Rattle.drmaa_model.specs.Time.{advance, advance_plan};
ghost use Rattle.drmaa_model.specs.World.{World};

/// Time keeps a plan fit, each operation that is not refused does, and so does what becomes of the jobs and the
/// reservations of a named session that is destroyed.
pub fn every_operation_keeps_a_plan_fit()
    ensures time { (entry at : ℕ) (p : Plan) → IsFit p → IsFit (advance_plan entry at p) }
    ensures submit { (home : ℕ) (template : JobTemplate) (indices : Option Indices) → KeepsFit (submit home template indices) }
    ensures control { (meant : Target) (what : Control) → KeepsFit (control meant what) }
    ensures reap { (meant : Target) → KeepsFit (reap meant) }
    ensures launch { KeepsFit launch }
    ensures report { (report : Report) → KeepsFit (report_of report) }
    ensures signal { KeepsFit signal }
    ensures request { (home : ℕ) (template : ReservationTemplate) → KeepsFit (request home template) }
    ensures end { (number : ReservationId) → KeepsFit (end_reservation number) }
    ensures home { (home : ℕ) (p : Plan) → IsFit p → IsFit (forget_home home p) }
{}

/// A step leads from a consistent world to a consistent one. Each change that it adds bears the number of its entry
/// and is an edge of the state model, from the state that the job's row had. It makes one entry, and leaves the
/// configuration and the number of slots. Its moment is the greater of the one before and
/// the one handed in.
pub fn a_step_keeps_the_world()
    ensures consistent { (w : World) (entry : Entry) (next : World) → IsConsistent w → IsStep w entry next → IsConsistent next }
    ensures edges { (w : World) (entry : Entry) (next : World) → IsConsistent w → IsStep w entry next → AddsEdges (w.entries + 1) w.plan next.plan }
    ensures entries { (w : World) (entry : Entry) (next : World) → IsConsistent w → IsStep w entry next → next.entries ≡ w.entries + 1 }
    ensures config { (w : World) (entry : Entry) (next : World) → IsConsistent w → IsStep w entry next → next.config ≡ w.config }
    ensures total { (w : World) (entry : Entry) (next : World) → IsConsistent w → IsStep w entry next → next.plan.total ≡ w.plan.total }
    ensures moment { (w : World) (entry : Entry) (next : World) → IsConsistent w → IsStep w entry next → next.plan.moment ≡ max w.plan.moment entry.at }
{}

/// The world of a legal history is consistent, has counted its entries, and has the configuration that the history
/// began with.
pub fn a_legal_history_leads_to_a_consistent_world()
    ensures consistent { (config : Config) (history : List Entry) → IsLegal config history → IsConsistent (replay config history) }
    ensures entries { (config : Config) (history : List Entry) → IsLegal config history → (replay config history).entries ≡ length history }
    ensures config { (config : Config) (history : List Entry) → IsLegal config history → (replay config history).config ≡ config }
{}

/// A step raises the journal's size by its entry and by no more than its call may add. An accepted report of a start
/// or of an end does not raise it, so that the journal has room for it.
pub fn a_report_finds_room()
    ensures step { (w : World) (entry : Entry) (next : World) →
        IsConsistent w → IsStep w entry next → size next ≤ size w + 1 + growth (advance w entry.at) entry.call }
    ensures report { (w : World) (at : ℕ) (report : Report) (told : Reply) (next : World) →
        IsConsistent w → is_of_run report ≡ true → (report_of report).refusal (advance w at).plan ≡ None →
        through unit (report_of report) (advance w at) ≡ gives told next → size next ≤ size w }
{}

/// Time leaves the changes and the promised room as they are together: each change that it adds was promised room. So
/// it leaves the journal's size.
pub fn time_leaves_the_size()
    ensures weight { (entry at : ℕ) (p : Plan) → weight (advance_plan entry at p) ≡ weight p }
    ensures size { (w : World) (at : ℕ) → size (advance w at) ≡ size w }
{}

/// The world of a legal history keeps within the journal's size of its configuration, and so the history has no more
/// entries than that.
pub fn a_legal_history_keeps_within_the_journal()
    ensures size { (config : Config) (history : List Entry) → IsLegal config history → size (replay config history) ≤ config.journal }
    ensures entries { (config : Config) (history : List Entry) → IsLegal config history → length history ≤ config.journal }
{}

/// In the world of a legal history time rests: at the world's own moment, and before it, time changes nothing.
pub fn time_rests_in_a_legal_world()
    ensures rests { (config : Config) (history : List Entry) → IsLegal config history → IsResting (replay config history).plan }
    ensures still { (config : Config) (history : List Entry) (entry at : ℕ) → IsLegal config history →
        at ≤ (replay config history).plan.moment → advance_plan entry at (replay config history).plan ≡ (replay config history).plan }
{}

/// A launch, and a report that is accepted, change the row of one job. Each other job, the reservations and the moment stay
/// as they are.
pub fn a_launch_or_a_report_moves_one_job()
    ensures launch { (entry : ℕ) (p : Plan) (next : Row × ℕ) → IsFit p → next_launch p ≡ Some next →
        MovesOne p (launch.effect entry p) next.0 (launched p.moment next.1 (planned_end next.0.wants p.moment) next.0.course) }
    ensures report { (report : Report) (entry : ℕ) (p : Plan) → IsFit p → (report_of report).refusal p ≡ None →
        ReportMoves report p ((report_of report).effect entry p) }
    ensures others { (p q : Plan) (row : Row) (course : Course) (job : JobId) → MovesOne p q row course → row.job.0 ≢ job.0 →
        row_of job q.rows ≡ row_of job p.rows }
{}

/// At no point of a legal history do the ordinary jobs of a queue hold more slots than its limit.
pub fn no_queue_is_passed()
    ensures { (config : Config) (history : List Entry) → IsLegal config history → (place : ℕ) →
        IfSome (queue_at place config.queues) (λ (queue : QueueSpec). in_queue place (replay config history).plan.rows ≤ queue.limit) }
{}

/// At each point of a legal history each job is of a queue of the machine, and of none only where there are none.
pub fn each_job_is_of_a_queue()
    ensures { (config : Config) (history : List Entry) → IsLegal config history →
        ArePlaced config.queues (replay config history).plan.rows }
{}

/// A machine without queues has none of their rules. No job is of a queue at any point of a legal history, and the slots that
/// are free for such a job are those that fit the calendar. A least number of slots is bad where it is 0 or above the machine's
/// slots, and a template may name no queue. The name that is told of a job's queue, and the only one that is listed, is `default`.
pub fn a_machine_without_queues_has_none_of_their_rules()
    ensures rows { (config : Config) (history : List Entry) → config.queues ≡ [] → IsLegal config history →
        AreQueueless (replay config history).plan.rows }
    ensures slots { (p : Plan) (slots : ℕ) (row : Row) → row.wants.queue ≡ None →
        has_slots_free p slots row ≡ fits p slots p.moment (planned_end row.wants p.moment) }
    ensures least { (slots : ℕ) (t : JobTemplate) → is_bad_least slots [] t ≡ (min_slots t == 0 || nat_lt slots (min_slots t)) }
    ensures named { (t : JobTemplate) → queue_test [] t ≡ (is_some t.queue_name, UnsupportedAttribute attribute.QueueName) }
    ensures told { (queue_name [] None ≡ codes "default") × (queue_names [] ≡ codes "default" ∷ []) }
{}
