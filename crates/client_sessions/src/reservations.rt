//! Reservations: they are looked at and ended.
ghost use Rattle.std.specs.Prelude.{IfOk, IfErr};
ghost use Rattle.turn_lock.specs.Tokens.{IsFree};
ghost use Rattle.call_history.specs.Clients.{StaysAt};
ghost use Rattle.client_sessions.specs.Desks.{Serves, Denies};

use call_history::{Call, Desk, Reply};
use drmaa_types::{Clock, Refusal, ReservationId, ReservationInfo, SessionId};
use std::sync::Wait;

/// An advance reservation (GFD.231, Reservation).
#[derive(Clone, Copy, Debug, PartialEq, Eq)]
pub struct Reservation {
    /// The reservation session through which it is asked for.
    pub session: SessionId,
    /// Its number, from 1 in order of acceptance.
    pub reservation: ReservationId,
}

impl Reservation {
    /// What is known of the reservation (GFD.231, Reservation::getInfo).
    ///
    /// # Errors
    ///
    /// `InvalidSession` where its session is no open reservation session, `InvalidArgument(Reservation)` where it is
    /// not accepted in that session; with no entry, `OutOfMemory` or `OutOfResource(Journal)`.
    pub fn get_info<R: Wait, C: Clock>(
        self,
        rt: &R,
        desk: &mut Desk<C>,
    ) -> Result<ReservationInfo, Refusal>
        requires { IsFree desk.old.shared.now desk.old.client }
        ensures desk { StaysAt desk.old.shared.now desk.old.client desk.new.shared.now desk.new.client }
        ensures ok { IfOk result (λ told. Serves C.given C.least desk.old (Call.GetReservation self.session self.reservation) (Reply.Reservation told) desk.new) }
        ensures err { IfErr result (λ why. Denies C.given C.least desk.old (Call.GetReservation self.session self.reservation) why desk.new) }
    {
        let Reservation {
            session,
            reservation,
        } = self;
        desk.ask_for::<R, ReservationInfo>(
            rt,
            Call::GetReservation {
                session,
                reservation,
            },
        )
    }

    /// Ends the reservation: its waiting jobs fail, and its started ones are to be killed (GFD.231,
    /// Reservation::terminate).
    ///
    /// # Errors
    ///
    /// `InvalidSession` where its session is no open reservation session, `InvalidArgument(Reservation)` where it is
    /// not accepted in that session; with no entry, `OutOfMemory` or `OutOfResource(Journal)`.
    pub fn terminate<R: Wait, C: Clock>(self, rt: &R, desk: &mut Desk<C>) -> Result<(), Refusal>
        requires { IsFree desk.old.shared.now desk.old.client }
        ensures desk { StaysAt desk.old.shared.now desk.old.client desk.new.shared.now desk.new.client }
        ensures ok { IfOk result (λ told. Serves C.given C.least desk.old (Call.EndReservation self.session self.reservation) Reply.Unit desk.new) }
        ensures err { IfErr result (λ why. Denies C.given C.least desk.old (Call.EndReservation self.session self.reservation) why desk.new) }
    {
        let Reservation {
            session,
            reservation,
        } = self;
        desk.ask_for::<R, ()>(
            rt,
            Call::EndReservation {
                session,
                reservation,
            },
        )
    }
}
