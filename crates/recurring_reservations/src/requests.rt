//! One reservation is asked for, or ended.
ghost use Rattle.std.specs.Prelude.{◌≡◌, true, Ok, Err, IfOk, IfErr};
ghost use Rattle.std.specs.Bool.{OnTrue, OnFalse};
ghost use Rattle.drmaa_types.specs.declared.infos.Reserved.{Reserved};
ghost use Rattle.drmaa_types.specs.declared.refusals.Refusal.{Refusal};
ghost use Rattle.recurring_reservations.specs.Steps.{IsLegalLedger, Grants, Denies, Ends, EndsNot};

use drmaa_machine::Machine;
use drmaa_model::{Call, Reply};
use drmaa_types::{Boxed, CallerId, Moment, Refusal, ReservationId, SessionId};
use job_template::ReservationTemplate;

/// Who asks, when, and in which session.
#[derive(Clone, Copy, Debug, PartialEq, Eq)]
pub struct Asker {
    pub caller: CallerId,
    pub at: Moment,
    pub session: SessionId,
}

/// Asks for one reservation; its number.
///
/// # Errors
///
/// The refusal of its entry; or, with no entry, want of memory, or a journal that would be too large.
pub(crate) fn request(
    machine: &mut Machine,
    asker: &Asker,
    template: Boxed<ReservationTemplate>,
) -> Result<u64, Refusal>
    ensures legal { IsLegalLedger machine.new.ledger }
    ensures ok { IfOk result (λ number. Grants asker.now template machine.old.ledger number machine.new.ledger) }
    ensures err { IfErr result (λ why. Denies asker.now template machine.old.ledger why machine.new.ledger) }
{
    let call = Call::RequestReservation {
        session: asker.session,
        template,
    };
    match machine.apply(asker.caller, asker.at, call) {
        Ok(reply) => number_in(reply),
        Err(fault) => Err(Refusal::from(fault)),
    }
}

/// The number of the reservation that a reply tells of, or the refusal that it is. A request has no other reply.
fn number_in(reply: Reply) -> Result<u64, Refusal>
    ensures reserved { (given : Reserved) → reply ≡ Reply.Reserved given → result ≡ Ok given.reservation.0 }
    ensures refused { (why : Refusal) → reply ≡ Reply.Refused why → result ≡ Err why }
{
    match reply {
        Reply::Reserved(given) => Ok(given.reservation.0),
        Reply::Refused(why) => Err(why),
        other => untold(other),
    }
}

/// No number, where a reply tells of none.
fn untold(other: Reply) -> Result<u64, Refusal> {
    drop(other);
    Err(Refusal::OutOfMemory)
}

/// Ends the reservation of a number. False where the machine made no entry of it.
pub(crate) fn end(machine: &mut Machine, asker: &Asker, number: u64) -> bool
    ensures legal { IsLegalLedger machine.new.ledger }
    ensures ended { OnTrue result (Ends asker.now number machine.old.ledger machine.new.ledger) }
    ensures unended { OnFalse result (EndsNot asker.now number machine.old.ledger machine.new.ledger) }
{
    let call = Call::EndReservation {
        session: asker.session,
        reservation: ReservationId(number),
    };
    match machine.apply(asker.caller, asker.at, call) {
        Ok(reply) => is_served(reply),
        Err(_fault) => false,
    }
}

/// Whether a call was served that has this reply.
fn is_served(reply: Reply) -> bool
    ensures { result ≡ true }
{
    drop(reply);
    true
}
