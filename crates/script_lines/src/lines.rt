//! The lines of blocks: what each says.
use crate::{Apart, Name, Ref};
use drmaa_types::{JobState, ListOf, SignalKind, Text, Timeout};
use text_dates::Said;

/// What jobs are listed by; a field that is unset lets every job through.
#[derive(Drop)]
pub struct Filter {
    pub job: Option<Ref>,
    pub name: Option<Text>,
    pub state: Option<JobState>,
    pub slots: Option<u32>,
    pub queue: Option<Text>,
    pub status: Option<u8>,
    /// In seconds.
    pub wallclock: Option<u64>,
    pub submitted: Option<Said>,
    pub dispatched: Option<Said>,
    pub finished: Option<Said>,
}

/// A line of a block. S is a session, J a job, A an array and R a reservation; what binds a name binds it to the number in
/// the reply.
#[derive(Drop)]
pub enum Line {
    /// `create-jobs NAME TEXT` or `create-jobs NAME`: makes a job session, with a name of its own where there is no text.
    CreateJobs {
        name: Name,
        session: Option<Text>,
    },
    /// `create-reservations NAME TEXT` or `create-reservations NAME`.
    CreateReservations {
        name: Name,
        session: Option<Text>,
    },
    /// `open-jobs NAME TEXT`.
    OpenJobs {
        name: Name,
        session: Text,
    },
    /// `open-reservations NAME TEXT`.
    OpenReservations {
        name: Name,
        session: Text,
    },
    /// `destroy-jobs TEXT`.
    DestroyJobs {
        session: Text,
    },
    /// `destroy-reservations TEXT`.
    DestroyReservations {
        session: Text,
    },
    /// `names-jobs`.
    NamesJobs,
    /// `names-reservations`.
    NamesReservations,
    /// `monitor NAME`.
    Monitor {
        name: Name,
    },
    /// `close S`.
    Close {
        session: Ref,
    },
    /// `run NAME S TEMPLATE`, then `reserved R` where the job runs in a reservation.
    Run {
        name: Name,
        session: Ref,
        template: Name,
        reserved: Option<Apart<Ref>>,
    },
    /// `bulk NAME S TEMPLATE BEGIN END STEP BOUND`, then `reserved R` where the jobs run in a reservation.
    Bulk {
        name: Name,
        session: Apart<Ref>,
        template: Name,
        begin: u32,
        end: u32,
        step: u32,
        bound: Option<u32>,
        reserved: Apart<Option<Ref>>,
    },
    /// `jobs S FILTER..`.
    Jobs {
        session: Ref,
        filter: Apart<Filter>,
    },
    /// `array S A`.
    Array {
        session: Ref,
        array: Ref,
    },
    /// `suspend S J`.
    Suspend {
        session: Ref,
        job: Ref,
    },
    /// `resume S J`.
    Resume {
        session: Ref,
        job: Ref,
    },
    /// `hold S J`.
    Hold {
        session: Ref,
        job: Ref,
    },
    /// `release S J`.
    Release {
        session: Ref,
        job: Ref,
    },
    /// `terminate S J`.
    Terminate {
        session: Ref,
        job: Ref,
    },
    /// `suspend-array S A`.
    SuspendArray {
        session: Ref,
        array: Ref,
    },
    /// `resume-array S A`.
    ResumeArray {
        session: Ref,
        array: Ref,
    },
    /// `hold-array S A`.
    HoldArray {
        session: Ref,
        array: Ref,
    },
    /// `release-array S A`.
    ReleaseArray {
        session: Ref,
        array: Ref,
    },
    /// `terminate-array S A`.
    TerminateArray {
        session: Ref,
        array: Ref,
    },
    /// `reap S J`.
    Reap {
        session: Ref,
        job: Ref,
    },
    /// `reap-array S A`.
    ReapArray {
        session: Ref,
        array: Ref,
    },
    /// `state S J`.
    State {
        session: Ref,
        job: Ref,
    },
    /// `info S J`.
    Info {
        session: Ref,
        job: Ref,
    },
    /// `wait-started S TIMEOUT J..`; the timeout is a number of seconds, or `infinite`.
    WaitStarted {
        session: Apart<Ref>,
        timeout: Timeout,
        jobs: ListOf<Ref>,
    },
    /// `wait-terminated S TIMEOUT J..`; the timeout is a number of seconds, or `infinite`.
    WaitTerminated {
        session: Apart<Ref>,
        timeout: Timeout,
        jobs: ListOf<Ref>,
    },
    /// `reserve NAME S RTEMPLATE`.
    Reserve {
        name: Name,
        session: Ref,
        template: Name,
    },
    /// `reservation S R`.
    Reservation {
        session: Ref,
        reservation: Ref,
    },
    /// `reservations S`.
    Reservations {
        session: Ref,
    },
    /// `cancel S R`.
    Cancel {
        session: Ref,
        reservation: Ref,
    },
    /// `all-jobs S FILTER..`.
    AllJobs {
        session: Ref,
        filter: Apart<Filter>,
    },
    /// `all-reservations S`.
    AllReservations {
        session: Ref,
    },
    /// `queues S`.
    Queues {
        session: Ref,
    },
    /// `machines S`.
    Machines {
        session: Ref,
    },
    /// `register`.
    Register,
    /// `at MOMENT`: sets the play's moment, and asks nothing.
    At {
        moment: Said,
    },
    /// `launch`: the launcher takes a job.
    Launch,
    /// `started J`: the launcher reports that the job was started.
    Started {
        job: Ref,
    },
    /// `start-failed J`: the launcher reports that the job could not be started.
    StartFailed {
        job: Ref,
    },
    /// `exit J NUMBER`: the reaper reports that the job has ended with this code.
    Exit {
        job: Ref,
        code: u8,
    },
    /// `exit-signal J NUMBER`: the reaper reports that the job was ended by this signal.
    ExitSignal {
        job: Ref,
        signal: u8,
    },
    /// `exit-unknown J`: the reaper reports that the job has ended, in a way that can't be learnt.
    ExitUnknown {
        job: Ref,
    },
    /// `signal`: the reaper takes a signal.
    Signal,
    /// `signal-done J KIND`: the reaper reports that the signal was sent.
    SignalDone {
        job: Ref,
        kind: SignalKind,
    },
    /// `signal-failed J KIND`: the reaper reports that the signal could not be sent.
    SignalFailed {
        job: Ref,
        kind: SignalKind,
    },
}
