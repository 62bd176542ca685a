//! The optional parts of the standard, and which of them this profile has.
ghost use Rattle.std.specs.Prelude.{◌≡◌};
ghost use Rattle.drmaa_types.specs.Capabilities as profile;

/// An optional part of the standard (GFD.231, capabilities).
#[derive(Clone, Copy, Debug, PartialEq, Eq)]
pub enum Capability {
    /// `ADVANCE_RESERVATION`: slots can be reserved ahead.
    AdvanceReservation,
    /// `RESERVE_SLOTS`: a reservation is of a number of slots.
    ReserveSlots,
    /// `CALLBACK`: state changes are told to callbacks.
    Callback,
    /// `BULK_JOBS_MAXPARALLEL`: an array has a bound on its members that run at once.
    BulkJobsMaxParallel,
    /// `JT_EMAIL`.
    JobEmail,
    /// `JT_STAGING`.
    JobStaging,
    /// `JT_DEADLINE`: a job has a deadline.
    JobDeadline,
    /// `JT_MAXSLOTS`: a job has a greatest number of slots.
    JobMaxSlots,
    /// `JT_ACCOUNTINGID`.
    JobAccountingId,
    /// `RT_STARTNOW`: a reservation can start at the current moment.
    ReservationStartNow,
    /// `RT_DURATION`: a reservation has a duration.
    ReservationDuration,
    /// `RT_MACHINEOS`.
    ReservationMachineOs,
    /// `RT_MACHINEARCH`.
    ReservationMachineArch,
}

/// Whether this profile has the optional part (GFD.231, `drmsSupports`). It takes no memory.
pub fn supports(capability: Capability) -> bool
    ensures { result ≡ profile.supports capability }
{
    match capability {
        Capability::AdvanceReservation
        | Capability::ReserveSlots
        | Capability::Callback
        | Capability::BulkJobsMaxParallel
        | Capability::JobDeadline
        | Capability::JobMaxSlots
        | Capability::ReservationStartNow
        | Capability::ReservationDuration => true,
        Capability::JobEmail
        | Capability::JobStaging
        | Capability::JobAccountingId
        | Capability::ReservationMachineOs
        | Capability::ReservationMachineArch => false,
    }
}
