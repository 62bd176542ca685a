//! All occurrences of a reservation are asked for, and taken back where one of them is not to be had.
ghost use Rattle.std.specs.Prelude.{◌≡◌, ◌⊎◌, ℕ, ◌+◌, ◌<◌, ◌≤◌, ◌++◌, ◌∷◌, [], List, vec_len, vec_capacity, IfOk, IfErr};
ghost use Rattle.drmaa_model.specs.declared.reservations.Accepted.{Accepted};
ghost use Rattle.recurring_reservations.specs.Requests.{ReservesEach, GivesUp, AsksForEach, Recurs};
ghost use Rattle.recurring_reservations.specs.Steps.{IsLegalLedger, Holds, TakesBack, EndsNot, RunsShort};

use crate::recurrences::{RecurFault, Recurring, TemplateList};
use crate::requests::{Asker, end, request};
use crate::templates::occurrences;
use drmaa_machine::{Machine, a_history_is_legal};
use drmaa_types::{Boxed, CallerId, IdList, Moment, Refusal, SessionId};
use job_template::ReservationTemplate;
use std::alloc::{AllocError, Global};

/// Asks for all occurrences of a reservation, one after another, at one moment; their numbers. Where one is not accepted, those
/// before it are ended again, from the last to the first.
///
/// # Errors
///
/// With no entry made: what [`occurrences`] refuses, and want of memory. Else the refusal of the first request that is not
/// accepted: its reply, or, where the machine made no entry of it, want of memory, or `OutOfResource(Journal)` with the size that
/// the journal would have. An end of which the machine makes no entry leaves that reservation and those before it: `kept` has their
/// numbers.
pub fn request_all(
    alloc: Global,
    machine: &mut Machine,
    caller: CallerId,
    at: Moment,
    session: SessionId,
    r: Recurring,
) -> Result<IdList, RecurFault>
    ensures answer { Recurs r (record { caller = caller; at = at; session = session }) machine.old.ledger result machine.new.ledger }
    ensures legal { IsLegalLedger machine.new.ledger }
{
    a_history_is_legal(machine);
    let asker = Asker {
        caller,
        at,
        session,
    };
    match occurrences(alloc, &r) {
        Ok(templates) => ask_for_all(alloc, machine, &asker, templates),
        Err(refusal) => Err(unasked(alloc, refusal)),
    }
}

/// The fault that nothing was asked.
fn unasked(alloc: Global, refusal: Refusal) -> RecurFault
    ensures refusal { result.refusal ≡ refusal }
    ensures kept { result.kept ≡ [] }
{
    RecurFault {
        refusal,
        kept: IdList::new(alloc),
    }
}

/// Asks for these, one after another. All memory is taken before the first.
fn ask_for_all(
    alloc: Global,
    machine: &mut Machine,
    asker: &Asker,
    templates: TemplateList,
) -> Result<IdList, RecurFault>
    requires { IsLegalLedger machine.old.ledger }
    ensures legal { IsLegalLedger machine.new.ledger }
    ensures ok { IfOk result (λ numbers. ReservesEach asker.now templates machine.old.ledger numbers machine.new.ledger) }
    ensures err { IfErr result (λ stop. RunsShort machine.old.ledger stop machine.new.ledger ⊎ GivesUp asker.now templates machine.old.ledger stop machine.new.ledger) }
{
    let Ok(boxed) = boxed(alloc, templates) else {
        return Err(unasked(alloc, Refusal::OutOfMemory));
    };
    let Ok(numbers) = Vec::with_capacity(alloc, boxed.len()) else {
        return Err(unasked(alloc, Refusal::OutOfMemory));
    };
    ask_for_each(machine, asker, boxed, numbers)
}

/// The templates, each in memory of its own.
fn boxed(
    alloc: Global,
    templates: TemplateList,
) -> Result<Vec<Boxed<ReservationTemplate>>, AllocError>
    ensures { IfOk result (λ boxed. boxed.items ≡ templates) }
{
    let mut boxed = Vec::new(alloc);
    for template in templates.into_vec() {
        boxed.push(Boxed::new(alloc, template)?)?;
    }
    Ok(boxed)
}

/// Asks for these, one after another. There is room for as many numbers.
fn ask_for_each(
    machine: &mut Machine,
    asker: &Asker,
    templates: Vec<Boxed<ReservationTemplate>>,
    mut numbers: Vec<u64>,
) -> Result<IdList, RecurFault>
    requires legal { IsLegalLedger machine.old.ledger }
    requires empty { numbers.items ≡ [] }
    requires room { vec_len templates ≤ vec_capacity numbers }
    ensures legal { IsLegalLedger machine.new.ledger }
    ensures answer { AsksForEach asker.now templates.items machine.old.ledger result machine.new.ledger }
{
    for template in templates {
        match request(machine, asker, template) {
            Ok(number) => put(&mut numbers, number),
            Err(refusal) => {
                return Err(RecurFault {
                    refusal,
                    kept: end_all(machine, asker, numbers),
                });
            }
        }
    }
    Ok(IdList::from_vec(numbers))
}

/// Adds a number for which there is room.
fn put(numbers: &mut Vec<u64>, number: u64)
    requires { vec_len numbers.old < vec_capacity numbers.old }
    ensures items { numbers.new.items ≡ numbers.old.items ++ number ∷ [] }
    ensures len { vec_len numbers.new ≡ vec_len numbers.old + 1 }
    ensures capacity { vec_capacity numbers.old ≤ vec_capacity numbers.new }
{
    let Ok(()) = numbers.push(number) else {
        unreachable!()
    };
}

/// Ends the reservations of these numbers, from the last to the first, up to the first end of which the machine makes no entry;
/// those that are left.
fn end_all(machine: &mut Machine, asker: &Asker, mut numbers: Vec<u64>) -> IdList
    requires { IsLegalLedger machine.old.ledger }
    ensures legal { IsLegalLedger machine.new.ledger }
    ensures back { (base : List Accepted) → Holds asker.now base numbers.items machine.old.ledger →
        TakesBack asker.now base machine.old.ledger numbers.items result machine.new.ledger }
    ensures unended { (front : List ℕ) (last : ℕ) → result ≡ front ++ last ∷ [] → EndsNot asker.now last machine.new.ledger machine.new.ledger }
{
    while let Some(number) = numbers.pop() {
        if !end(machine, asker, number) {
            // It is kept, and there is the room that it had.
            put(&mut numbers, number);
            break;
        }
    }
    IdList::from_vec(numbers)
}
