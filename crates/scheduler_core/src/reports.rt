//! What launcher and reaper report of the processes of jobs. No report takes memory.
ghost use Rattle.std.specs.Prelude.{◌≡◌, ◌≢◌, ◌≤◌, true, Err};
ghost use Rattle.std.specs.List.{list_any};
ghost use Rattle.drmaa_model.specs.Reporting.{report_of, is_launching, is_idle, may_begin, may_exit, is_taken, signal_number};
ghost use Rattle.drmaa_model.specs.Size.{promised, weight};
ghost use Rattle.plan_book.specs.Occasions.{MeetsAt};
ghost use Rattle.scheduler_core.specs.Facts.{reports_to_come};
ghost use Rattle.scheduler_core.specs.Reports.{job_of, may_report, after_report, edit_after, booked_after, report_move};

use crate::cores::Core;
use drmaa_model::{Course, NoEntry, Order, Phase, Report};
use drmaa_types::{JobId, Moment, Refusal, SignalKind, Which};
use plan_book::courses::{begun, exited, lost, signal_failed, unstarted};
use plan_book::{Booked, Edit, Facts, Move, Occasion};

impl Core {
    /// Takes a report of the last launch of its job. It takes no memory.
    ///
    /// # Errors
    ///
    /// No entry: a journal that would be too large, and else want of memory for the entry.
    ///
    /// A refusal: `InvalidArgument(Job)` where the job is not kept, `InvalidState` where no such report may come of it.
    pub fn report(
        &mut self,
        occasion: Occasion,
        report: Report,
    ) -> Result<Result<(), Refusal>, NoEntry>
        ensures meets { MeetsAt occasion (report_of report) self.old.plan result self.new.plan }
        ensures spare { self.old.spare ≤ self.new.spare }
        ensures memory { occasion.has_memory ≡ true → result ≢ Err NoEntry.OutOfMemory }
    {
        let moment = self.book.moment_at(occasion.at);
        let Some(facts) = self.book.facts_at(occasion.at, job_of(report)) else {
            return self
                .book
                .refuse(occasion, Refusal::InvalidArgument(Which::Job));
        };
        if !may_report(self.book.orders(), report, &facts.course) {
            return self
                .book
                .refuse(occasion, Refusal::InvalidState(facts.course.state));
        }
        let m = report_move(report, &facts, moment);
        self.book.make(occasion, &m)?;
        Ok(Ok(()))
    }

    /// The reports of starts and ends that the processes of all jobs may still bring: two for a job that is handed out to be
    /// started, one for a job whose start is reported. The room that is promised to the jobs in the journal holds them.
    pub fn reports_to_come(&self) -> u64
        ensures value { result ≡ reports_to_come self.now.plan.rows }
        ensures room { result ≤ weight self.now.plan }
        ensures promised { result ≤ promised self.now.plan.rows }
    {
        self.book.reports_to_come()
    }
}

fn job_of(report: Report) -> JobId
    ensures { result ≡ job_of report }
{
    match report {
        Report::Started { job, .. }
        | Report::StartFailed { job, .. }
        | Report::Exited { job, .. }
        | Report::ExitUnknown { job, .. }
        | Report::SignalDone { job, .. }
        | Report::SignalFailed { job, .. } => job,
    }
}

/// Whether the report may come of a job that has this course.
fn may_report(orders: &Vec<Order>, report: Report, course: &Course) -> bool
    ensures { result ≡ may_report report orders.now.items course.now }
{
    match report {
        Report::Started { attempt, .. } | Report::StartFailed { attempt, .. } => {
            may_begin(attempt, course)
        }
        Report::Exited { attempt, .. } | Report::ExitUnknown { attempt, .. } => {
            may_exit(attempt, course)
        }
        Report::SignalDone { job, attempt, kind } | Report::SignalFailed { job, attempt, kind } => {
            course.attempt == attempt && is_any_taken(orders, job, kind)
        }
    }
}

fn may_begin(attempt: u32, course: &Course) -> bool
    ensures { result ≡ may_begin attempt course.now }
{
    is_launching(course.phase) && course.attempt == attempt
}

fn is_launching(phase: Phase) -> bool
    ensures { result ≡ is_launching phase }
{
    match phase {
        Phase::Launching => true,
        Phase::Idle | Phase::Alive => false,
    }
}

fn may_exit(attempt: u32, course: &Course) -> bool
    ensures { result ≡ may_exit attempt course.now }
{
    !is_idle(course.phase) && course.attempt == attempt
}

fn is_idle(phase: Phase) -> bool
    ensures { result ≡ is_idle phase }
{
    match phase {
        Phase::Idle => true,
        Phase::Launching | Phase::Alive => false,
    }
}

/// Whether an order for this job, of this kind, was handed out.
fn is_any_taken(orders: &Vec<Order>, job: JobId, kind: SignalKind) -> bool
    ensures { result ≡ list_any (is_taken job kind) orders.now.items }
{
    orders.iter().any(|order| is_taken(order, job, kind))
}

fn is_taken(order: &Order, job: JobId, kind: SignalKind) -> bool
    ensures { result ≡ is_taken job kind order.now }
{
    order.taken && order.job.0 == job.0 && number_of(order.kind) == number_of(kind)
}

fn number_of(kind: SignalKind) -> u8
    ensures { result ≡ signal_number kind }
{
    match kind {
        SignalKind::Stop => 0,
        SignalKind::Cont => 1,
        SignalKind::Kill => 2,
    }
}

/// What the report does to its job.
fn report_move(report: Report, facts: &Facts, moment: Moment) -> Move
    ensures { result ≡ report_move report moment facts.now }
{
    Move {
        job: facts.job,
        home: facts.home,
        before: facts.course,
        after: after_report(report, &facts.course, moment, facts.rerunnable),
        orders: edit_after(report),
        booked: booked_after(report),
    }
}

fn after_report(report: Report, course: &Course, moment: Moment, rerunnable: bool) -> Course
    ensures { result ≡ after_report report moment rerunnable course.now }
{
    match report {
        Report::Started { .. } => begun(course),
        Report::StartFailed { .. } => unstarted(course, moment, rerunnable),
        Report::Exited { exit, .. } => exited(course, moment, exit, rerunnable),
        Report::ExitUnknown { .. } => lost(course, moment, rerunnable),
        Report::SignalDone { .. } => *course,
        Report::SignalFailed { kind, .. } => signal_failed(course, kind),
    }
}

fn edit_after(report: Report) -> Edit
    ensures { result ≡ edit_after report }
{
    match report {
        Report::Started { .. } => Edit::Keep,
        Report::StartFailed { .. } | Report::Exited { .. } | Report::ExitUnknown { .. } => {
            Edit::Clear
        }
        Report::SignalDone { kind, .. } | Report::SignalFailed { kind, .. } => Edit::Drop(kind),
    }
}

fn booked_after(report: Report) -> Booked
    ensures { result ≡ booked_after report }
{
    match report {
        Report::Started { .. } | Report::SignalDone { .. } | Report::SignalFailed { .. } => {
            Booked::Same
        }
        Report::StartFailed { .. } | Report::Exited { .. } | Report::ExitUnknown { .. } => {
            Booked::Cancels
        }
    }
}
