//! Reservation sessions: they ask for slots ahead, and tell which reservations there are.
ghost use Rattle.std.specs.Prelude.{◌≡◌, ℕ, List, IfOk, IfErr};
ghost use Rattle.drmaa_types.specs.declared.infos.Reserved.{Reserved};
ghost use Rattle.turn_lock.specs.Tokens.{IsFree};
ghost use Rattle.call_history.specs.Clients.{StaysAt};
ghost use Rattle.client_sessions.specs.Desks.{dial_of, Serves, Denies};
ghost use Rattle.client_sessions.specs.Lists.{reservations_of, IsUnlisted};

use crate::lists::reservations_of;
use crate::reservations::Reservation;
use call_history::{Call, Desk, Reply, ReservationNumbers};
use drmaa_types::{
    Clock, IdList, ListOf, Refusal, ReservationId, ReservationInfo, Reserved, SessionId,
};
use job_template::ReservationTemplate;
use std::alloc::Global;
use std::sync::Wait;

/// An open reservation session: reservations are requested in it (GFD.231, ReservationSession).
#[derive(Clone, Copy, Debug, PartialEq, Eq)]
pub struct ReservationSession {
    /// The session number, as the session manager answered it.
    pub session: SessionId,
}

impl ReservationSession {
    /// Asks for slots ahead; tells the number, the slots and the time that were given (GFD.231,
    /// ReservationSession::requestReservation).
    ///
    /// # Errors
    ///
    /// `InvalidSession` where this is no open reservation session, what is wrong with the template (`InvalidArgument`,
    /// `OutOfResource`, `UnsupportedAttribute`), `OutOfResource(Reservations)` at 10,000 accepted reservations,
    /// `DeniedByDrms` where the slots are not free at the time that is asked for; with no entry, `OutOfMemory` or
    /// `OutOfResource(Journal)`.
    pub fn request_reservation<R: Wait, C: Clock>(
        self,
        rt: &R,
        desk: &mut Desk<C>,
        template: ReservationTemplate,
    ) -> Result<Reserved, Refusal>
        requires { IsFree desk.old.shared.now desk.old.client }
        ensures desk { StaysAt desk.old.shared.now desk.old.client desk.new.shared.now desk.new.client }
        ensures ok { IfOk result (λ told. Serves C.given C.least desk.old (Call.RequestReservation self.session template) (Reply.Reserved told) desk.new) }
        ensures err { IfErr result (λ why. Denies C.given C.least desk.old (Call.RequestReservation self.session template) why desk.new) }
    {
        let session = self.session;
        desk.ask_to_reserve(rt, session, template)
    }

    /// Asks for slots ahead (GFD.231, ReservationSession::requestReservation). The reservation is asked for through this session;
    /// its `get_info` tells the slots and the time that were given.
    ///
    /// # Errors
    ///
    /// As `request_reservation`.
    pub fn reserve<R: Wait, C: Clock>(
        self,
        rt: &R,
        desk: &mut Desk<C>,
        template: ReservationTemplate,
    ) -> Result<Reservation, Refusal>
        requires { IsFree desk.old.shared.now desk.old.client }
        ensures desk { StaysAt desk.old.shared.now desk.old.client desk.new.shared.now desk.new.client }
        ensures ok { IfOk result (λ made. (told : Reserved) × (told.reservation ≡ made.reservation) × Serves C.given C.least desk.old (Call.RequestReservation self.session template) (Reply.Reserved told) desk.new) }
        ensures session { IfOk result (λ made. made.session ≡ self.session) }
        ensures err { IfErr result (λ why. Denies C.given C.least desk.old (Call.RequestReservation self.session template) why desk.new) }
    {
        let told = self.request_reservation(rt, desk, template)?;
        Ok(Reservation {
            session: self.session,
            reservation: told.reservation,
        })
    }

    /// What is known of an accepted reservation of the session (GFD.231, ReservationSession::getReservation).
    ///
    /// # Errors
    ///
    /// `InvalidSession` where this is no open reservation session, `InvalidArgument(Reservation)` for one that is not
    /// accepted in it; with no entry, `OutOfMemory` or `OutOfResource(Journal)`.
    pub fn get_reservation<R: Wait, C: Clock>(
        self,
        rt: &R,
        desk: &mut Desk<C>,
        reservation: ReservationId,
    ) -> Result<ReservationInfo, Refusal>
        requires { IsFree desk.old.shared.now desk.old.client }
        ensures desk { StaysAt desk.old.shared.now desk.old.client desk.new.shared.now desk.new.client }
        ensures ok { IfOk result (λ told. Serves C.given C.least desk.old (Call.GetReservation self.session reservation) (Reply.Reservation told) desk.new) }
        ensures err { IfErr result (λ why. Denies C.given C.least desk.old (Call.GetReservation self.session reservation) why desk.new) }
    {
        let session = self.session;
        desk.ask_for::<R, ReservationInfo>(
            rt,
            Call::GetReservation {
                session,
                reservation,
            },
        )
    }

    /// The numbers of the session's accepted reservations, rising (GFD.231, ReservationSession::getReservations).
    ///
    /// # Errors
    ///
    /// `InvalidSession` where this is no open reservation session; with no entry, `OutOfMemory` or
    /// `OutOfResource(Journal)`.
    pub fn get_reservations<R: Wait, C: Clock>(
        self,
        rt: &R,
        desk: &mut Desk<C>,
    ) -> Result<IdList, Refusal>
        requires { IsFree desk.old.shared.now desk.old.client }
        ensures desk { StaysAt desk.old.shared.now desk.old.client desk.new.shared.now desk.new.client }
        ensures ok { IfOk result (λ told. Serves C.given C.least desk.old (Call.GetReservations self.session) (Reply.Reservations told) desk.new) }
        ensures err { IfErr result (λ why. Denies C.given C.least desk.old (Call.GetReservations self.session) why desk.new) }
    {
        let session = self.session;
        let told = desk.ask_for::<R, ReservationNumbers>(rt, Call::GetReservations { session })?;
        Ok(told.numbers)
    }

    /// The session's accepted reservations, by rising number (GFD.231, ReservationSession::getReservations). Each is asked for
    /// through this session.
    ///
    /// # Errors
    ///
    /// As `get_reservations`; and `OutOfMemory` where there is none for the list, when the entry has been made.
    pub fn reservations<R: Wait, C: Clock>(
        self,
        alloc: Global,
        rt: &R,
        desk: &mut Desk<C>,
    ) -> Result<ListOf<Reservation>, Refusal>
        requires { IsFree desk.old.shared.now desk.old.client }
        ensures desk { StaysAt desk.old.shared.now desk.old.client desk.new.shared.now desk.new.client }
        ensures ok { IfOk result (λ listed. (numbers : List ℕ) × (listed ≡ reservations_of self.session numbers) × Serves C.given C.least desk.old (Call.GetReservations self.session) (Reply.Reservations numbers) desk.new) }
        ensures err { IfErr result (λ why. IsUnlisted desk.old.shared.now.fixed (dial_of C.given C.least desk.old) desk.old.client (Call.GetReservations self.session) (λ numbers. Reply.Reservations numbers) why (dial_of C.given C.least desk.new) desk.new.client) }
    {
        match self.get_reservations(rt, desk) {
            Ok(numbers) => reservations_of(alloc, self.session, &numbers),
            Err(why) => Err(why),
        }
    }
}
