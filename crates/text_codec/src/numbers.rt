//! The numbers that name jobs, arrays, reservations, sessions and callers, and how a job ended.
ghost use Rattle.std.specs.Prelude.{◌≡◌, ◌++◌, IfErr, OnOk};
ghost use Rattle.text_codec.specs.declared.unread.Unread.{Unread};
ghost use Rattle.text_codec.specs.Formats.{Answers};
ghost use Rattle.text_codec.specs.Numbers as numbers;
ghost use Rattle.text_codec.specs.NumberLaws as laws;

use crate::{Cursor, Form, Print, Unread, push_number};
use drmaa_types::{ArrayId, CallerId, Exit, JobId, ReservationId, SessionId};
use std::alloc::AllocError;

impl Form for JobId {
    ghost form = { numbers.job_id };

    ghost laws = { laws.job_id_laws };

    #[tactic(auto, unfolding(crate::specs::Numbers::job_id, crate::specs::Formats::mapped))]
    fn read(cursor: &mut Cursor) -> Result<JobId, Unread>
        ensures reads { Answers numbers.job_id.read cursor.old result cursor.new }
        ensures memory { IfErr result (λ e. e ≡ Unread.Unspelled) }
    {
        Ok(JobId(cursor.u64()?))
    }
}

impl Print for JobId {
    ghost form = { numbers.job_id };

    #[tactic(auto, unfolding(crate::specs::Numbers::job_id, crate::specs::Formats::mapped, crate::specs::Formats::number))]
    fn push(&self, out: &mut Vec<u8>) -> Result<(), AllocError> {
        push_number(out, self.0)
    }
}

impl Form for ArrayId {
    ghost form = { numbers.array_id };

    ghost laws = { laws.array_id_laws };

    #[tactic(auto, unfolding(crate::specs::Numbers::array_id, crate::specs::Formats::mapped))]
    fn read(cursor: &mut Cursor) -> Result<ArrayId, Unread>
        ensures reads { Answers numbers.array_id.read cursor.old result cursor.new }
        ensures memory { IfErr result (λ e. e ≡ Unread.Unspelled) }
    {
        Ok(ArrayId(cursor.u64()?))
    }
}

impl Print for ArrayId {
    ghost form = { numbers.array_id };

    #[tactic(auto, unfolding(crate::specs::Numbers::array_id, crate::specs::Formats::mapped, crate::specs::Formats::number))]
    fn push(&self, out: &mut Vec<u8>) -> Result<(), AllocError> {
        push_number(out, self.0)
    }
}

impl Form for ReservationId {
    ghost form = { numbers.reservation_id };

    ghost laws = { laws.reservation_id_laws };

    #[tactic(auto, unfolding(crate::specs::Numbers::reservation_id, crate::specs::Formats::mapped))]
    fn read(cursor: &mut Cursor) -> Result<ReservationId, Unread>
        ensures reads { Answers numbers.reservation_id.read cursor.old result cursor.new }
        ensures memory { IfErr result (λ e. e ≡ Unread.Unspelled) }
    {
        Ok(ReservationId(cursor.u64()?))
    }
}

impl Print for ReservationId {
    ghost form = { numbers.reservation_id };

    #[tactic(auto, unfolding(crate::specs::Numbers::reservation_id, crate::specs::Formats::mapped, crate::specs::Formats::number))]
    fn push(&self, out: &mut Vec<u8>) -> Result<(), AllocError> {
        push_number(out, self.0)
    }
}

impl Form for SessionId {
    ghost form = { numbers.session_id };

    ghost laws = { laws.session_id_laws };

    #[tactic(auto, unfolding(crate::specs::Numbers::session_id, crate::specs::Formats::mapped))]
    fn read(cursor: &mut Cursor) -> Result<SessionId, Unread>
        ensures reads { Answers numbers.session_id.read cursor.old result cursor.new }
        ensures memory { IfErr result (λ e. e ≡ Unread.Unspelled) }
    {
        Ok(SessionId(cursor.u64()?))
    }
}

impl Print for SessionId {
    ghost form = { numbers.session_id };

    #[tactic(auto, unfolding(crate::specs::Numbers::session_id, crate::specs::Formats::mapped, crate::specs::Formats::number))]
    fn push(&self, out: &mut Vec<u8>) -> Result<(), AllocError> {
        push_number(out, self.0)
    }
}

impl Form for CallerId {
    ghost form = { numbers.caller_id };

    ghost laws = { laws.caller_id_laws };

    #[tactic(auto, unfolding(crate::specs::Numbers::caller_id, crate::specs::Formats::mapped))]
    fn read(cursor: &mut Cursor) -> Result<CallerId, Unread>
        ensures reads { Answers numbers.caller_id.read cursor.old result cursor.new }
        ensures memory { IfErr result (λ e. e ≡ Unread.Unspelled) }
    {
        Ok(CallerId(cursor.u32()?))
    }
}

impl Print for CallerId {
    ghost form = { numbers.caller_id };

    #[tactic(auto, unfolding(crate::specs::Numbers::caller_id, crate::specs::Formats::mapped, crate::specs::Formats::number))]
    fn push(&self, out: &mut Vec<u8>) -> Result<(), AllocError> {
        push_number(out, u64::from(self.0))
    }
}

impl Form for Exit {
    ghost form = { numbers.exit };

    ghost laws = { laws.exit_laws };

    #[tactic(auto, unfolding(crate::specs::Numbers::exit, crate::specs::Formats::mapped, crate::specs::Formats::tagged))]
    fn read(cursor: &mut Cursor) -> Result<Exit, Unread>
        ensures reads { Answers numbers.exit.read cursor.old result cursor.new }
        ensures memory { IfErr result (λ e. e ≡ Unread.Unspelled) }
    {
        if cursor.skip(b"code ") {
            return Ok(Exit::Code(cursor.u8()?));
        }
        cursor.expect(b"signal ")?;
        Ok(Exit::Signal(cursor.u8()?))
    }
}

impl Print for Exit {
    ghost form = { numbers.exit };

    #[tactic(auto, unfolding(crate::specs::Numbers::exit, crate::specs::Formats::mapped, crate::specs::Formats::tagged, crate::specs::Formats::number))]
    fn push(&self, out: &mut Vec<u8>) -> Result<(), AllocError> {
        match *self {
            Exit::Code(code) => {
                out.extend_from_slice(b"code ")?;
                push_number(out, u64::from(code))
            }
            Exit::Signal(signal) => {
                out.extend_from_slice(b"signal ")?;
                push_number(out, u64::from(signal))
            }
        }
    }
}
