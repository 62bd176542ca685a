//! The reservation that a template names. None of it takes memory.
ghost use Rattle.std.specs.Prelude.{◌≡◌};
ghost use Rattle.std.specs.Option.{option_map};
ghost use Rattle.drmaa_types.specs.Refusals.{first_refusal};
ghost use Rattle.drmaa_model.specs.declared.reservations.Accepted.{Accepted};
ghost use Rattle.drmaa_model.specs.Load.{reservation_of};
ghost use Rattle.drmaa_model.specs.Time.{advance_plan};
ghost use Rattle.plan_book.specs.Book.{plan_of, IsBook};
ghost use Rattle.scheduler_core.specs.Early.{named_tests, slots_tests};

use drmaa_types::{Moment, Refusal, ReservationId, Which};
use job_template::JobTemplate;
use plan_book::Book;

/// What is wrong with the reservation that a template names, once time has come to this moment: it isn't accepted, or has fewer
/// slots than the job needs.
pub fn named_refusal(book: &Book, at: Moment, t: &JobTemplate) -> Option<Refusal>
    requires book { IsBook book.now }
    ensures { result ≡ first_refusal (named_tests t.now (advance_plan 0 at (plan_of book.now))) }
{
    match t.reservation_id {
        None => None,
        Some(number) => {
            let slots = slots_at(book, at, number);
            slots_refusal(slots, t.min_slots())
        }
    }
}

fn slots_refusal(slots: Option<u32>, min: u32) -> Option<Refusal>
    ensures { result ≡ first_refusal (slots_tests slots min) }
{
    match slots {
        None => Some(Refusal::InvalidArgument(Which::Reservation)),
        Some(slots) if slots < min => Some(Refusal::InvalidArgument(Which::MinSlots)),
        Some(_) => None,
    }
}

/// The slots of the reservation of this number, where it is accepted once time has come to this moment.
fn slots_at(book: &Book, at: Moment, number: ReservationId) -> Option<u32>
    requires book { IsBook book.now }
    ensures { result ≡ option_map (λ (a : Accepted). a.slots) (reservation_of number (advance_plan 0 at (plan_of book.now)).reservations) }
{
    if !book.is_accepted_at(at, number) {
        return None;
    }
    match book.reservation(number) {
        Some(r) => Some(r.slots),
        None => None,
    }
}
