//! Questions that make no entry, and memory that is taken ahead.
ghost use Rattle.std.specs.Prelude.{◌≡◌, ◌⊎◌, ◌≤◌, ◌↔◌, OnOk, IfErr, IsTrue, take, drop, IfOk};
ghost use Rattle.drmaa_model.specs.Effects.{not_yet};
ghost use Rattle.drmaa_model.specs.Steps.{answer};
ghost use Rattle.machine_readings.specs.Stores.{world_of, world_at, IsStore};
ghost use Rattle.drmaa_model.specs.declared.looks.Answer.{Answer};
ghost use Rattle.drmaa_machine.specs.Looks.{IsAnswer, overfull, template_of, opened_name};
ghost use Rattle.drmaa_machine.specs.Waits.{call_of};
ghost use Rattle.machine_calls.specs.Serving.{Keeps, spare_of};

use crate::waits::Awaited;
use drmaa_model::{Answer, Question};
use drmaa_types::{Change, ChangeBatch, JobId, Moment, Refusal, SessionId, Text};
use machine_readings::{Store, is_timed_out};
use std::alloc::AllocError;

/// The most changes of one answer.
const MOST_CHANGES: usize = 64;

/// Takes the memory for so many further entries and changes.
pub fn reserve_in(store: &mut Store, n: u32) -> Result<(), Refusal>
    requires store { IsStore store.old }
    ensures world { world_of store.new ≡ world_of store.old }
    ensures store { IsStore store.new }
    ensures keeps { Keeps store.old store.new }
    ensures spare { OnOk result (n ≤ spare_of store.new) }
    ensures more { spare_of store.old ≤ spare_of store.new }
    ensures err { IfErr result (λ why. why ≡ Refusal.OutOfMemory) }
{
    let wanted = store.core.reports_to_come() as usize + n as usize;
    if store.history.reserve(wanted).is_err() {
        return Err(Refusal::OutOfMemory);
    }
    store.core.reserve(n)
}

/// Whether a wait has no answer yet at a moment.
pub fn must_wait_in(store: &Store, at: Moment, awaited: &Awaited) -> bool
    requires { IsStore store.now }
    ensures { IsTrue result ↔ (answer (world_of store.now) at (call_of awaited.now) ≡ not_yet) }
{
    store
        .wait_refusal(at, awaited.session, &awaited.jobs)
        .is_none()
        && store
            .first_reached(at, awaited.kind, &awaited.jobs)
            .is_none()
        && !is_timed_out(at, awaited.begun, awaited.timeout)
}

/// Answers a question.
pub fn look_in(store: &Store, at: Moment, question: Question) -> Answer
    requires { IsStore store.now }
    ensures { IsAnswer (world_at at store.now) (world_of store.now) question result }
{
    match question {
        Question::Settled => Answer::Settled(store.core.settled(at)),
        Question::Held => Answer::Held(store.core.held()),
        Question::Changes { from } => Answer::Changes(batch(store.core.changes(), from)),
        Question::Full => Answer::Full(overfull(store)),
        Question::Template { job } => template_answer(store, job),
        Question::SessionName { session } => name_answer(store, session),
    }
}

/// The template of a kept job, shared with the machine.
fn template_answer(store: &Store, job: JobId) -> Answer
    requires { IsStore store.now }
    ensures { (result ≡ Answer.Template (template_of job (world_of store.now).plan.rows)) ⊎ (result ≡ Answer.OutOfMemory) }
{
    match store.core.template(job) {
        Ok(template) => Answer::Template(template),
        Err(_) => Answer::OutOfMemory,
    }
}

/// The name of the session that a number was opened on.
fn name_answer(store: &Store, session: SessionId) -> Answer
    requires { IsStore store.now }
    ensures { (result ≡ Answer.SessionName (opened_name session (world_of store.now).sessions)) ⊎ (result ≡ Answer.OutOfMemory) }
{
    match opened_name(store, session) {
        Ok(name) => Answer::SessionName(name),
        Err(_) => Answer::OutOfMemory,
    }
}

fn opened_name(store: &Store, session: SessionId) -> Result<Option<Text>, AllocError>
    requires { IsStore store.now }
    ensures { IfOk result (λ name. name ≡ opened_name session (world_of store.now).sessions) }
{
    let Some(home) = store.home_in(session) else {
        return Ok(None);
    };
    match store.sessions.name(home) {
        Some(name) => Ok(Some(name.clone()?)),
        None => Ok(None),
    }
}

/// The size that the journal would have with one entry more, where that is above the greatest.
fn overfull(store: &Store) -> Option<u64>
    requires { IsStore store.now }
    ensures { result ≡ overfull (world_of store.now) }
{
    let size = store.entries + 1 + store.core.size();
    if size > store.config.journal {
        Some(size)
    } else {
        None
    }
}

/// The first 64 changes from a place on.
fn batch(changes: &[Change], from: u64) -> ChangeBatch
    ensures { result ≡ take 64 (drop from changes.now) }
{
    let mut batch = ChangeBatch::new();
    if from >= changes.len() as u64 {
        return batch;
    }
    let rest = &changes[from as usize..];
    let count = rest.len().min(MOST_CHANGES);
    for change in &rest[..count] {
        batch.push(*change);
    }
    batch
}
