//! The active session: it is made and closed.
ghost use Rattle.std.specs.Prelude.{◌≡◌, None, Some};
ghost use Rattle.turn_lock.specs.Tokens.{IsFree};
ghost use Rattle.call_history.specs.Clients.{IsStillAt};
ghost use Rattle.drmaa1_face.specs.Answers.{Answered, Opened, left_after, after_exit};
ghost use Rattle.drmaa1_face.specs.FaceEntries.FaceCall.{exit};
ghost use Rattle.drmaa1_face.specs.Posts.{post};

use crate::asking::ask_for;
use crate::face::Face;
use crate::faults::FaceFault;
use call_history::{Call, Desk};
use drmaa_types::{Clock, Refusal, SessionId, Text};
use std::sync::Wait;

impl Face {
    /// Makes a job session and makes it the active one (DRMAA 1, drmaa_init). Its name, where none is given, is the first free
    /// one of `session-1`, `session-2` and so on.
    ///
    /// # Errors
    ///
    /// `AlreadyActive` exactly where a session is active. Else `Refused` with `InvalidArgument(SessionName)` for a name that is
    /// empty, has more than 255 bytes or is in use, with `OutOfResource` at 1,000 sessions or 1,000 valid session numbers, or,
    /// with no entry, with `OutOfMemory` or `OutOfResource(Journal)`. No session is active then.
    pub fn init<R: Wait, C: Clock>(
        &mut self,
        rt: &R,
        desk: &mut Desk<C>,
        name: Option<Text>,
    ) -> Result<(), FaceFault>
        requires { IsFree desk.old.shared.now desk.old.client }
        ensures desk { IsStillAt desk.old.shared.now desk.old.client desk.new.shared.now desk.new.client }
        ensures opened { Opened desk.old.shared.now.fixed self.old (post C.given C.least desk.old) name (post C.given C.least desk.new) self.new result }
    {
        match self.active {
            Some(_) => Err(FaceFault::AlreadyActive),
            None => match ask_for::<R, C, SessionId>(rt, desk, Call::CreateJobSession { name }) {
                Ok(session) => {
                    self.active = Some(session);
                    Ok(())
                }
                Err(why) => Err(FaceFault::Refused(why)),
            },
        }
    }

    /// Closes the active session: none is active then (DRMAA 1, drmaa_exit). The named session and its jobs stay.
    ///
    /// # Errors
    ///
    /// `NoActiveSession` exactly where none is active. Else `Refused` with `InvalidSession` where its number is not valid any
    /// more, and none is active then either; or, with no entry, with `OutOfMemory` or `OutOfResource(Journal)`, and then it is
    /// still active.
    pub fn exit<R: Wait, C: Clock>(&mut self, rt: &R, desk: &mut Desk<C>) -> Result<(), FaceFault>
        requires { IsFree desk.old.shared.now desk.old.client }
        ensures desk { IsStillAt desk.old.shared.now desk.old.client desk.new.shared.now desk.new.client }
        ensures answer { Answered desk.old.shared.now.fixed self.old (post C.given C.least desk.old) (λ told c. c ≡ exit) (post C.given C.least desk.new) result }
        ensures active { self.new ≡ after_exit self.old result }
    {
        let Some(session) = self.active else {
            return Err(FaceFault::NoActiveSession);
        };
        match ask_for::<R, C, ()>(rt, desk, Call::CloseSession { session }) {
            Ok(()) => {
                self.active = None;
                Ok(())
            }
            Err(why) => {
                self.active = left_after(&why, session);
                Err(FaceFault::Refused(why))
            }
        }
    }
}

/// What is active after a session could not be closed: none where its number is not valid.
fn left_after(why: &Refusal, session: SessionId) -> Option<SessionId>
    ensures { result ≡ left_after why.now (Some session) }
{
    match why {
        Refusal::InvalidSession => None,
        _ => Some(session),
    }
}
