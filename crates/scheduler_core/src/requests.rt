//! Requests for reservations.
ghost use Rattle.std.specs.Prelude.{◌≡◌, ◌≢◌, ◌+◌, ◌^◌, ◌<◌, ◌≤◌, max, true, Ok, Err, Some, IsSome};
ghost use Rattle.drmaa_types.specs.Refusals.{first_refusal, refused_or};
ghost use Rattle.job_template.specs.Frames.{frame_of};
ghost use Rattle.drmaa_model.specs.Fit.{IsFit};
ghost use Rattle.drmaa_model.specs.FrameLaws.{IsFrame};
ghost use Rattle.drmaa_model.specs.Requests.{request, request_tests, reserved_as, start_in, with_reservation};
ghost use Rattle.plan_book.specs.Book.{calendar_of, plan_of, spare, IsBook};
ghost use Rattle.plan_book.specs.Occasions.{plan_at, Meets, MeetsAt};
ghost use Rattle.plan_book.specs.Ties.{booked_for, IsFree};
ghost use Rattle.scheduler_core.specs.Requesting.{accepted_of, come, offer_at, offered, room_tests};

use crate::cores::Core;
use crate::starts::{denied_at, is_full, slots_in, start_in};
use drmaa_model::{Accepted, NoEntry};
use drmaa_types::{Limit, Moment, Refusal, ReservationId, Reserved};
use job_template::{Frame, ReservationTemplate, validate_reservation};
use plan_book::{Book, Occasion};

/// What a request is offered: so many slots, from a moment up to another.
#[derive(Clone, Copy)]
struct Offer {
    slots: u32,
    from: Moment,
    until: Moment,
}

impl Core {
    /// Asks for a reservation, for the named session of this number. It starts at the least start in the frame of its template
    /// from which the least number of slots fits, has the greatest number of slots that fits from there, and has the next
    /// number.
    ///
    /// # Errors
    ///
    /// No entry: a journal that would be too large, and else want of memory, for the entry, or for the reservation where it is not
    /// refused.
    ///
    /// A refusal, the first of these that holds: what is wrong with the template; `OutOfResource(Reservations)` where 10,000
    /// reservations last; `DeniedByDrms` where no start fits, with the least overfull moment of the interval, and with none where
    /// start, end and duration are all set.
    pub fn request_reservation(
        &mut self,
        occasion: Occasion,
        home: u64,
        template: ReservationTemplate,
    ) -> Result<Result<Reserved, Refusal>, NoEntry>
        requires number { self.old.plan.next_reservation ≤ occasion.entry }
        ensures meets { MeetsAt occasion (request home template) self.old.plan result self.new.plan }
        ensures spare { self.new.spare ≡ self.old.spare }
        ensures memory { occasion.has_memory ≡ true → IsSome ((request home template).refusal (plan_at occasion self.old.plan)) → result ≢ Err NoEntry.OutOfMemory }
    {
        match offer_for(&self.book, occasion.at, &template) {
            Err(why) => self.book.refuse(occasion, why),
            Ok(offer) => {
                let accepted = accepted_of(self.book.next_reservation(), home, template, &offer);
                accept(&mut self.book, occasion, accepted)
            }
        }
    }
}

/// What a request is offered once time has come to a moment.
fn offer_for(book: &Book, at: Moment, t: &ReservationTemplate) -> Result<Offer, Refusal>
    requires book { IsBook book.now }
    ensures { result ≡ refused_or (first_refusal (request_tests t.now (come at (plan_of book.now)))) (offered t.now (come at (plan_of book.now))) }
{
    let moment = book.moment_at(at);
    match validate_reservation(t, moment) {
        Err(why) => Err(why),
        Ok(frame) => offer_in(book, at, t, &frame),
    }
}

/// What a request is offered whose template is in form and has this frame.
fn offer_in(
    book: &Book,
    at: Moment,
    t: &ReservationTemplate,
    frame: &Frame,
) -> Result<Offer, Refusal>
    requires book { IsBook book.now }
    requires frame { IsFrame (max (plan_of book.now).moment at) frame.now }
    requires frame_of { frame.now ≡ frame_of (max (plan_of book.now).moment at) t.now }
    ensures { result ≡ refused_or (first_refusal (room_tests t.now (come at (plan_of book.now)))) (offered t.now (come at (plan_of book.now))) }
{
    if is_full(&book.reservations, book.moment_at(at)) {
        return Err(Refusal::OutOfResource(Limit::Reservations));
    }
    match start_in(book, frame) {
        None => Err(Refusal::DeniedByDrms(denied_at(book, t, frame))),
        Some(from) => Ok(offer_from(book, frame, from)),
    }
}

/// What a request is offered from the start that was found.
fn offer_from(book: &Book, frame: &Frame, from: Moment) -> Offer
    requires book { IsBook book.now }
    requires frame { IsFrame (plan_of book.now).moment frame.now }
    requires start { start_in frame.now (plan_of book.now) ≡ Some from }
    ensures { result ≡ offer_at frame.now (plan_of book.now) from }
{
    let until = end_of(from, frame);
    Offer {
        slots: slots_in(book, frame, from, until),
        from,
        until,
    }
}

/// The end of an interval that lies in the frame.
fn end_of(from: Moment, frame: &Frame) -> Moment
    requires { from + frame.now.span ≤ frame.now.until }
    ensures { result ≡ from + frame.now.span }
{
    from.plus(frame.span).unwrap_or(frame.until)
}

/// The reservation of an offer, with this number.
fn accepted_of(number: u64, home: u64, template: ReservationTemplate, offer: &Offer) -> Accepted
    ensures { result ≡ accepted_of number home template offer.now }
{
    Accepted {
        reservation: ReservationId(number),
        home: Some(home),
        name: template.reservation_name,
        slots: offer.slots,
        from: offer.from,
        until: offer.until,
    }
}

/// Accepts a reservation, and tells what it was given.
fn accept(
    book: &mut Book,
    occasion: Occasion,
    accepted: Accepted,
) -> Result<Result<Reserved, Refusal>, NoEntry>
    requires book { IsBook book.old }
    requires number { accepted.reservation.0 ≡ (plan_of book.old).next_reservation }
    requires next { (plan_of book.old).next_reservation + 1 < 2 ^ 64 }
    requires free { IsFree (calendar_of book.old) (booked_for accepted) }
    requires fit { IsFit (with_reservation accepted (plan_at occasion (plan_of book.old))) }
    ensures meets { Meets occasion (Ok (reserved_as accepted)) (with_reservation accepted (plan_at occasion (plan_of book.old))) (plan_of book.old) result (plan_of book.new) }
    ensures book { IsBook book.new }
    ensures spare { spare book.new ≡ spare book.old }
{
    let reserved = reserved_as(&accepted);
    match book.accept(occasion, accepted) {
        Ok(()) => Ok(Ok(reserved)),
        Err(fault) => Err(fault),
    }
}

/// What is told of a reservation that was accepted.
fn reserved_as(accepted: &Accepted) -> Reserved
    ensures { result ≡ reserved_as accepted.now }
{
    Reserved {
        reservation: accepted.reservation,
        slots: accepted.slots,
        from: accepted.from,
        until: accepted.until,
    }
}
