//! What the replies of typed calls tell.
ghost use Rattle.std.specs.Prelude.{◌≡◌, ◌≢◌, IfSome, None};
ghost use Rattle.drmaa_model.specs.declared.replies.Reply.{Reply};
ghost use Rattle.drmaa_model.specs.declared.replies.Reply.TheVariants as reply_is;
ghost use Rattle.drmaa_model.specs.ReplyKinds.{ReplyKind, kind_of_reply, nothing_told, a_session, texts, a_job, an_array, jobs, a_state, an_info, a_reserved, a_reservation, reservations, infos, reservation_infos, a_machine};

use drmaa_machine::Reply;
use drmaa_types::{
    ArrayId, IdList, InfoList, JobId, JobInfo, JobState, MachineInfo, ReservationInfo,
    ReservationList, Reserved, SessionId, TextList,
};

/// What a reply of one kind tells.
pub trait Told: Sized {
    /// The reply that tells this.
    ghost as_reply: { Self → Reply };

    /// The kind of those replies.
    ghost kind: { ReplyKind };

    /// What the reply tells, where it is of the kind.
    fn of(reply: Reply) -> Option<Self>
        ensures some { IfSome result (λ told. reply ≡ Self.as_reply told) }
        ensures none { result ≡ None → kind_of_reply reply ≢ Self.kind };
}

/// An array that was submitted: its number, its first job, and how many jobs there are.
#[derive(Clone, Copy, Debug, PartialEq, Eq)]
pub struct SubmittedArray {
    pub array: ArrayId,
    pub first: JobId,
    pub count: u32,
}

/// Jobs, by number.
#[derive(Drop)]
pub struct JobNumbers {
    pub numbers: IdList,
}

/// Reservations, by number.
#[derive(Drop)]
pub struct ReservationNumbers {
    pub numbers: IdList,
}

/// Nothing, where a reply is of another kind.
fn unasked<T>(other: Reply) -> Option<T>
    ensures { result ≡ None }
{
    drop(other);
    None
}

/// What a reply tells, where it is of this form.
macro_rules! told_by {
    ($reply:expr, $form:pat => $told:expr) => {
        match $reply {
            $form => Some($told),
            other => unasked(other),
        }
    };
}

impl Told for () {
    ghost as_reply = { λ told. reply_is.Unit };

    ghost kind = { nothing_told };

    fn of(reply: Reply) -> Option<()> {
        told_by!(reply, Reply::Unit => ())
    }
}

impl Told for SessionId {
    ghost as_reply = { λ told. reply_is.Session told };

    ghost kind = { a_session };

    fn of(reply: Reply) -> Option<SessionId> {
        told_by!(reply, Reply::Session(session) => session)
    }
}

impl Told for TextList {
    ghost as_reply = { λ told. reply_is.Names told };

    ghost kind = { texts };

    fn of(reply: Reply) -> Option<TextList> {
        told_by!(reply, Reply::Names(names) => names)
    }
}

impl Told for JobId {
    ghost as_reply = { λ told. reply_is.Job told };

    ghost kind = { a_job };

    fn of(reply: Reply) -> Option<JobId> {
        told_by!(reply, Reply::Job(job) => job)
    }
}

impl Told for SubmittedArray {
    ghost as_reply = { λ told. reply_is.Array told.array told.first told.count };

    ghost kind = { an_array };

    fn of(reply: Reply) -> Option<SubmittedArray> {
        told_by!(reply, Reply::Array { array, first, count } => SubmittedArray { array, first, count })
    }
}

impl Told for JobNumbers {
    ghost as_reply = { λ told. reply_is.Jobs told.numbers };

    ghost kind = { jobs };

    fn of(reply: Reply) -> Option<JobNumbers> {
        told_by!(reply, Reply::Jobs(numbers) => JobNumbers { numbers })
    }
}

impl Told for JobState {
    ghost as_reply = { λ told. reply_is.State told };

    ghost kind = { a_state };

    fn of(reply: Reply) -> Option<JobState> {
        told_by!(reply, Reply::State(state) => state)
    }
}

impl Told for JobInfo {
    ghost as_reply = { λ told. reply_is.Info told };

    ghost kind = { an_info };

    fn of(reply: Reply) -> Option<JobInfo> {
        told_by!(reply, Reply::Info(info) => info.into_inner())
    }
}

impl Told for Reserved {
    ghost as_reply = { λ told. reply_is.Reserved told };

    ghost kind = { a_reserved };

    fn of(reply: Reply) -> Option<Reserved> {
        told_by!(reply, Reply::Reserved(reserved) => reserved)
    }
}

impl Told for ReservationInfo {
    ghost as_reply = { λ told. reply_is.Reservation told };

    ghost kind = { a_reservation };

    fn of(reply: Reply) -> Option<ReservationInfo> {
        told_by!(reply, Reply::Reservation(info) => info.into_inner())
    }
}

impl Told for ReservationNumbers {
    ghost as_reply = { λ told. reply_is.Reservations told.numbers };

    ghost kind = { reservations };

    fn of(reply: Reply) -> Option<ReservationNumbers> {
        told_by!(reply, Reply::Reservations(numbers) => ReservationNumbers { numbers })
    }
}

impl Told for InfoList {
    ghost as_reply = { λ told. reply_is.Infos told };

    ghost kind = { infos };

    fn of(reply: Reply) -> Option<InfoList> {
        told_by!(reply, Reply::Infos(told) => told)
    }
}

impl Told for ReservationList {
    ghost as_reply = { λ told. reply_is.ReservationInfos told };

    ghost kind = { reservation_infos };

    fn of(reply: Reply) -> Option<ReservationList> {
        told_by!(reply, Reply::ReservationInfos(told) => told)
    }
}

impl Told for MachineInfo {
    ghost as_reply = { λ told. reply_is.Machine told };

    ghost kind = { a_machine };

    fn of(reply: Reply) -> Option<MachineInfo> {
        told_by!(reply, Reply::Machine(info) => info)
    }
}
