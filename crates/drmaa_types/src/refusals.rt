//! The error conditions of the standard, as this profile has them.
use crate::{JobState, Moment};
use std::alloc::AllocError;

/// Which argument or attribute a call could not accept.
#[derive(Clone, Copy, Debug, PartialEq, Eq)]
pub enum Which {
    SessionName,
    Job,
    Array,
    Reservation,
    Jobs,
    Indices,
    MaxParallel,
    RemoteCommand,
    Args,
    JobEnvironment,
    WorkingDirectory,
    JobName,
    InputPath,
    OutputPath,
    ErrorPath,
    MinSlots,
    MaxSlots,
    DeadlineTime,
    ResourceLimits,
    ReservationName,
    QueueName,
    StartTime,
    EndTime,
    Duration,
}

/// Which limit of this profile a call would pass.
#[derive(Clone, Copy, Debug, PartialEq, Eq)]
pub enum Limit {
    Sessions,
    OpenSessions,
    Jobs,
    Reservations,
    Callbacks,
    WaitList,
    BulkMembers,
    TemplateText,
    KeptText,
    /// The journal would have this size; never stands in an entry.
    Journal { size: u64 },
}

/// An attribute of the standard that this profile reads and does not support.
#[derive(Clone, Copy, Debug, PartialEq, Eq)]
pub enum Attribute {
    QueueName,
    JobCategory,
    Email,
    EmailOnStarted,
    EmailOnTerminated,
    CandidateMachines,
    MinPhysMemory,
    MachineOs,
    MachineArch,
    StageInFiles,
    StageOutFiles,
    AccountingId,
    UsersAcl,
    CoreFileSize,
    CpuTime,
    DataSize,
    FileSize,
    OpenFiles,
    StackSize,
    VirtualMemory,
}

/// Why a call was refused. The refusals have the numbers 1 to 10 in this order.
#[derive(Clone, Copy, Debug, PartialEq, Eq)]
pub enum Refusal {
    /// A reservation does not fit; with the least moment that is overfull, where the interval was fixed.
    DeniedByDrms(Option<Moment>),
    /// Another caller has its turn; never stands in an entry.
    TryLater { served: u64, drawn: u64 },
    Timeout,
    InvalidArgument(Which),
    InvalidSession,
    InvalidState(JobState),
    OutOfResource(Limit),
    /// Memory ran out; never stands in an entry.
    OutOfMemory,
    UnsupportedAttribute(Attribute),
    UnsupportedOperation,
}

impl From<AllocError> for Refusal {
    ghost use Rattle.std.specs.Prelude.{◌≡◌};
    ghost use Rattle.drmaa_types.specs.declared.refusals.Refusal.TheVariants.{OutOfMemory};

    ghost from_gives = { λ _ why. why ≡ OutOfMemory };

    fn from(_: AllocError) -> Refusal {
        Refusal::OutOfMemory
    }
}
