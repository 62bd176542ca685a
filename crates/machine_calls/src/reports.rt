//! What launcher and reaper report.
ghost use Rattle.std.specs.Prelude.{◌≡◌, ◌≢◌, ◌==◌, ◌&&◌, ◌+◌, ◌≤◌, not, true, OnOk, IsOk, Err, None};
ghost use Rattle.drmaa_model.specs.Growth.{is_of_run};
ghost use Rattle.drmaa_model.specs.Refusals.{refusal};
ghost use Rattle.drmaa_model.specs.Reporting.{is_idle, is_launching, may_begin, may_exit};
ghost use Rattle.drmaa_model.specs.Time.{rows_at};
ghost use Rattle.machine_readings.specs.Stores.{world_of, world_at, IsStore};
ghost use Rattle.machine_calls.specs.Reports.{call_of, has_course, is_promised};
ghost use Rattle.machine_calls.specs.Serving.{Comes, Keeps, HasPlace, spare_of, left_of};

use crate::concludes::conclude;
use crate::places::{next_occasion, occasion_for};
use crate::replies::Replies;
use drmaa_model::{NoEntry, Phase, Report};
use drmaa_types::{JobId, Moment};
use machine_readings::Store;
use scheduler_core::RowFacts;

/// Takes a report of launcher or reaper. One of a start or of an end that may come of its job always makes its entry: the room
/// in the journal, and the memory, were taken with the launch, and nothing that is spare is used.
pub fn report(store: &mut Store, at: Moment, report: Report) -> Result<Replies, NoEntry>
    requires store { IsStore store.old }
    ensures comes { Comes (world_of store.old) at (call_of report) result (world_of store.new) }
    ensures keeps { Keeps store.old store.new }
    ensures place { OnOk result (HasPlace 1 store.new) }
    ensures taken { is_of_run report ≡ true → refusal (world_at at store.old) (call_of report) ≡ None → IsOk result }
    ensures memory { is_of_run report ≡ true → refusal (world_at at store.old) (call_of report) ≡ None → result ≢ Err NoEntry.OutOfMemory }
    ensures spare { spare_of store.old ≤ spare_of store.new }
    ensures promised { is_of_run report ≡ true → refusal (world_at at store.old) (call_of report) ≡ None → spare_of store.old ≤ left_of store.new }
{
    if is_promised(store, at, report) {
        take_promised(store, at, report)
    } else {
        take_other(store, at, report)
    }
}

/// Takes a report whose entry was promised: the memory for it is there.
fn take_promised(store: &mut Store, at: Moment, report: Report) -> Result<Replies, NoEntry>
    requires store { IsStore store.old }
    requires promised { is_promised report (rows_at at store.old.core.plan) ≡ true }
    ensures comes { Comes (world_of store.old) at (call_of report) result (world_of store.new) }
    ensures keeps { Keeps store.old store.new }
    ensures place { OnOk result (HasPlace 1 store.new) }
    ensures taken { IsOk result }
    ensures spare { spare_of store.old ≤ left_of store.new }
{
    let occasion = next_occasion(store, at, true);
    let done = store.core.report(occasion, report);
    conclude(store, done)
}

fn take_other(store: &mut Store, at: Moment, report: Report) -> Result<Replies, NoEntry>
    requires store { IsStore store.old }
    ensures comes { Comes (world_of store.old) at (call_of report) result (world_of store.new) }
    ensures keeps { Keeps store.old store.new }
    ensures place { OnOk result (HasPlace 1 store.new) }
    ensures spare { spare_of store.old ≤ spare_of store.new }
{
    let occasion = occasion_for(store, at);
    let done = store.core.report(occasion, report);
    conclude(store, done)
}

/// Whether the report is of a start or of an end, and may come of its job: the memory for its entry was taken with the launch.
fn is_promised(store: &Store, at: Moment, report: Report) -> bool
    ensures { result ≡ is_promised report (rows_at at store.now.core.plan) }
{
    match report {
        Report::Started { job, attempt } | Report::StartFailed { job, attempt } => {
            may_begin(store, at, job, attempt)
        }
        Report::Exited { job, attempt, .. } | Report::ExitUnknown { job, attempt } => {
            may_exit(store, at, job, attempt)
        }
        Report::SignalDone { .. } | Report::SignalFailed { .. } => false,
    }
}

fn may_begin(store: &Store, at: Moment, job: JobId, attempt: u32) -> bool
    ensures { result ≡ has_course (may_begin attempt) job (rows_at at store.now.core.plan) }
{
    match store.core.row(at, job) {
        Some(facts) => is_begun(&facts, attempt),
        None => false,
    }
}

fn may_exit(store: &Store, at: Moment, job: JobId, attempt: u32) -> bool
    ensures { result ≡ has_course (may_exit attempt) job (rows_at at store.now.core.plan) }
{
    match store.core.row(at, job) {
        Some(facts) => is_running(&facts, attempt),
        None => false,
    }
}

/// Whether this launch of the job was handed out, and its start is not reported.
fn is_begun(facts: &RowFacts, attempt: u32) -> bool
    ensures { result ≡ is_launching facts.now.phase && (facts.now.attempt == attempt) }
{
    is_launching(facts.phase) && facts.attempt == attempt
}

/// Whether this launch of the job was handed out, and its end is not reported.
fn is_running(facts: &RowFacts, attempt: u32) -> bool
    ensures { result ≡ not (is_idle facts.now.phase) && (facts.now.attempt == attempt) }
{
    !is_idle(facts.phase) && facts.attempt == attempt
}

fn is_launching(phase: Phase) -> bool
    ensures { result ≡ is_launching phase }
{
    match phase {
        Phase::Launching => true,
        Phase::Idle | Phase::Alive => false,
    }
}

fn is_idle(phase: Phase) -> bool
    ensures { result ≡ is_idle phase }
{
    match phase {
        Phase::Idle => true,
        Phase::Launching | Phase::Alive => false,
    }
}
