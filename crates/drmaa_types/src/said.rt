//! What is said to a person: `Display` of states, refusals, moments, numbers and texts.
ghost use Rattle.std.specs.Prelude.{◌≡◌, codes};
ghost use Rattle.drmaa_types.specs.Said as said;

use crate::{
    ArrayId, Attribute, CallerId, JobId, JobState, Limit, Moment, Refusal, ReservationId,
    SessionId, Text, Which,
};
use std::error::Error;
use std::fmt;

impl JobState {
    /// The name of the state (GFD.231, section 8.1).
    pub fn name(self) -> &'static str
        ensures { result.now ≡ said.state_name self }
    {
        match self {
            JobState::Undetermined => "UNDETERMINED",
            JobState::Queued => "QUEUED",
            JobState::QueuedHeld => "QUEUED_HELD",
            JobState::Running => "RUNNING",
            JobState::Suspended => "SUSPENDED",
            JobState::Requeued => "REQUEUED",
            JobState::RequeuedHeld => "REQUEUED_HELD",
            JobState::Done => "DONE",
            JobState::Failed => "FAILED",
        }
    }
}

impl Attribute {
    /// The name of the attribute in the standard.
    pub fn name(self) -> &'static str
        ensures { result.now ≡ said.attribute_name self }
    {
        match self {
            Attribute::QueueName => "queueName",
            Attribute::JobCategory => "jobCategory",
            Attribute::Email => "email",
            Attribute::EmailOnStarted => "emailOnStarted",
            Attribute::EmailOnTerminated => "emailOnTerminated",
            Attribute::CandidateMachines => "candidateMachines",
            Attribute::MinPhysMemory => "minPhysMemory",
            Attribute::MachineOs => "machineOS",
            Attribute::MachineArch => "machineArch",
            Attribute::StageInFiles => "stageInFiles",
            Attribute::StageOutFiles => "stageOutFiles",
            Attribute::AccountingId => "accountingId",
            Attribute::UsersAcl => "usersACL",
            Attribute::CoreFileSize => "CORE_FILE_SIZE",
            Attribute::CpuTime => "CPU_TIME",
            Attribute::DataSize => "DATA_SIZE",
            Attribute::FileSize => "FILE_SIZE",
            Attribute::OpenFiles => "OPEN_FILES",
            Attribute::StackSize => "STACK_SIZE",
            Attribute::VirtualMemory => "VIRTUAL_MEMORY",
        }
    }
}

impl Which {
    /// What is wrong with the argument.
    fn said(self) -> &'static str
        ensures { result.now ≡ said.wrong_argument self }
    {
        match self {
            Which::SessionName => "the session's name is not in form, taken, or that of no session",
            Which::Job => "there is no such job",
            Which::Array => "there is no such array of jobs",
            Which::Reservation => "there is no such reservation",
            Which::Jobs => "no job is listed",
            Which::Indices => "the indices of the array are not in form",
            Which::MaxParallel => "no member of the array may run",
            Which::RemoteCommand => "the command is not in form",
            Which::Args => "an argument is not in form",
            Which::JobEnvironment => "the environment is not in form",
            Which::WorkingDirectory => "the working directory is not in form",
            Which::JobName => "the job's name is not in form",
            Which::InputPath => "the input's path is not in form",
            Which::OutputPath => "the output's path is not in form",
            Which::ErrorPath => "the errors' path is not in form",
            Which::MinSlots => "the least number of slots is 0, or more than there can be",
            Which::MaxSlots => "the greatest number of slots is below the least",
            Which::DeadlineTime => "the deadline is not after now, or not after the start",
            Which::ResourceLimits => "a limit is 0, unknown or set twice",
            Which::ReservationName => "the reservation's name is not in form",
            Which::QueueName => "there is no such queue",
            Which::StartTime => "the start is missing, or would be before now",
            Which::EndTime => "the end is not after the start",
            Which::Duration => "the duration is missing, 0 or too long",
        }
    }
}

impl Refusal {
    /// The number of the refusal, from 1 to 10.
    pub fn number(&self) -> u8
        ensures { result ≡ said.refusal_number self.now }
    {
        match self {
            Refusal::DeniedByDrms(_) => 1,
            Refusal::TryLater { .. } => 2,
            Refusal::Timeout => 3,
            Refusal::InvalidArgument(_) => 4,
            Refusal::InvalidSession => 5,
            Refusal::InvalidState(_) => 6,
            Refusal::OutOfResource(_) => 7,
            Refusal::OutOfMemory => 8,
            Refusal::UnsupportedAttribute(_) => 9,
            Refusal::UnsupportedOperation => 10,
        }
    }
}

impl fmt::Display for JobState {
    ghost use Rattle.std.specs.Prelude.{Some};
    ghost use Rattle.drmaa_types.specs.Said.{state_name};

    ghost output = { λ s. Some (state_name s) };

    fn fmt<W: fmt::Write>(&self, f: &mut fmt::Formatter<W>) -> fmt::Result {
        write!(f, "{}", self.name())
    }
}

/// A limit that is reached.
impl fmt::Display for Limit {
    ghost use Rattle.std.specs.Prelude.{Some};
    ghost use Rattle.drmaa_types.specs.Said.{limit_reached};

    ghost output = { λ l. Some (limit_reached l) };

    fn fmt<W: fmt::Write>(&self, f: &mut fmt::Formatter<W>) -> fmt::Result {
        match self {
            Limit::Sessions => write!(f, "there are too many sessions"),
            Limit::OpenSessions => write!(f, "too many sessions are open"),
            Limit::Jobs => write!(f, "too many jobs would be kept"),
            Limit::Reservations => write!(f, "there are too many reservations"),
            Limit::Callbacks => write!(f, "too many callbacks are registered"),
            Limit::WaitList => write!(f, "too many jobs are listed"),
            Limit::BulkMembers => write!(f, "the array has too many members"),
            Limit::TemplateText => write!(f, "the template has too much text"),
            Limit::KeptText => write!(f, "the templates of all kept jobs would have too much text"),
            Limit::Journal { size } => write!(f, "the journal would have the size {size}"),
        }
    }
}

/// Why a call was refused, without the refusal's number.
#[derive(Clone, Copy)]
struct Reason(Refusal);

impl fmt::Display for Reason {
    ghost use Rattle.std.specs.Prelude.{Some};
    ghost use Rattle.drmaa_types.specs.Said.{reason};

    ghost output = { λ r. Some (reason r.0) };

    fn fmt<W: fmt::Write>(&self, f: &mut fmt::Formatter<W>) -> fmt::Result {
        match self.0 {
            Refusal::DeniedByDrms(None) => write!(f, "the reservation does not fit"),
            Refusal::DeniedByDrms(Some(moment)) => {
                write!(f, "the reservation does not fit at moment {moment}")
            }
            Refusal::TryLater { .. } => write!(f, "another client has the turn"),
            Refusal::Timeout => write!(f, "the wait's time is over"),
            Refusal::InvalidArgument(which) => write!(f, "{}", which.said()),
            Refusal::InvalidSession => write!(f, "there is no such open session"),
            Refusal::InvalidState(state) => write!(
                f,
                "the job, in state {state}, does not permit it"
            ),
            Refusal::OutOfResource(limit) => write!(f, "{limit}"),
            Refusal::OutOfMemory => write!(f, "out of memory"),
            Refusal::UnsupportedAttribute(attribute) => {
                write!(f, "the attribute {} is not supported", attribute.name())
            }
            Refusal::UnsupportedOperation => write!(f, "the operation is not supported"),
        }
    }
}

impl fmt::Display for Refusal {
    ghost use Rattle.std.specs.Prelude.{Some};
    ghost use Rattle.drmaa_types.specs.Said.{refusal_text};

    ghost output = { λ r. Some (refusal_text r) };

    fn fmt<W: fmt::Write>(&self, f: &mut fmt::Formatter<W>) -> fmt::Result {
        write!(f, "{} (refusal {})", Reason(*self), self.number())
    }
}

impl Error for Refusal {}

impl fmt::Display for Moment {
    ghost use Rattle.std.specs.Prelude.{Some, decimal};

    ghost output = { λ m. Some (decimal m) };

    fn fmt<W: fmt::Write>(&self, f: &mut fmt::Formatter<W>) -> fmt::Result {
        write!(f, "{}", self.number())
    }
}

impl fmt::Display for JobId {
    ghost use Rattle.std.specs.Prelude.{Some, decimal};

    ghost output = { λ n. Some (decimal n.0) };

    fn fmt<W: fmt::Write>(&self, f: &mut fmt::Formatter<W>) -> fmt::Result {
        write!(f, "{}", self.0)
    }
}

impl fmt::Display for ArrayId {
    ghost use Rattle.std.specs.Prelude.{Some, decimal};

    ghost output = { λ n. Some (decimal n.0) };

    fn fmt<W: fmt::Write>(&self, f: &mut fmt::Formatter<W>) -> fmt::Result {
        write!(f, "{}", self.0)
    }
}

impl fmt::Display for ReservationId {
    ghost use Rattle.std.specs.Prelude.{Some, decimal};

    ghost output = { λ n. Some (decimal n.0) };

    fn fmt<W: fmt::Write>(&self, f: &mut fmt::Formatter<W>) -> fmt::Result {
        write!(f, "{}", self.0)
    }
}

impl fmt::Display for SessionId {
    ghost use Rattle.std.specs.Prelude.{Some, decimal};

    ghost output = { λ n. Some (decimal n.0) };

    fn fmt<W: fmt::Write>(&self, f: &mut fmt::Formatter<W>) -> fmt::Result {
        write!(f, "{}", self.0)
    }
}

impl fmt::Display for CallerId {
    ghost use Rattle.std.specs.Prelude.{Some, decimal};

    ghost output = { λ n. Some (decimal n.0) };

    fn fmt<W: fmt::Write>(&self, f: &mut fmt::Formatter<W>) -> fmt::Result {
        write!(f, "{}", self.0)
    }
}

impl fmt::Display for Text {
    ghost use Rattle.std.specs.Prelude.{Some};

    ghost output = { λ t. Some t };

    fn fmt<W: fmt::Write>(&self, f: &mut fmt::Formatter<W>) -> fmt::Result {
        write!(f, "{}", self.as_str())
    }
}
