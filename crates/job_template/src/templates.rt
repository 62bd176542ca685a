//! What a job and a reservation are asked for with (GFD.231, JobTemplate and ReservationTemplate).

use drmaa_types::{
    AttributeList, LimitList, Moment, PairList, ReservationId, Start, Text, TextList,
};

/// What is to be run, and how (GFD.231, JobTemplate). An attribute that is unset is None, empty or false.
#[derive(Drop)]
pub struct JobTemplate {
    /// The program that is run, found as `sh` finds one.
    pub remote_command: Text,
    /// Its arguments.
    pub args: TextList,
    /// Whether the job is submitted as QUEUED_HELD.
    pub submit_as_hold: bool,
    /// Whether it is queued again after exit code 99, and after a failed start of its first or second launch, where no kill
    /// was asked.
    pub rerunnable: bool,
    pub job_environment: PairList,
    pub working_directory: Option<Text>,
    pub job_name: Option<Text>,
    pub input_path: Option<Text>,
    pub output_path: Option<Text>,
    pub error_path: Option<Text>,
    /// Whether errors go to the output's file; the error path is then not used.
    pub join_files: bool,
    /// The reservation that the job runs in. A job that names none is ordinary.
    pub reservation_id: Option<ReservationId>,
    /// Read, and refused where it is set.
    pub queue_name: Option<Text>,
    /// The least number of slots that the job can run on; 1 where it is unset.
    pub min_slots: Option<u32>,
    /// The greatest number of slots that it can use; the least where it is unset.
    pub max_slots: Option<u32>,
    /// A job of greater priority is launched first; 0 where it is unset.
    pub priority: Option<i32>,
    /// It is not launched before this moment.
    pub start_time: Option<Moment>,
    /// It has failed where it isn't launched before this moment, and is killed where it runs then.
    pub deadline_time: Option<Moment>,
    pub resource_limits: LimitList,
    /// The attributes of the standard that are set and that this profile does not support.
    pub others: AttributeList,
}

/// What is asked of a reservation (GFD.231, ReservationTemplate).
#[derive(Drop)]
pub struct ReservationTemplate {
    pub reservation_name: Option<Text>,
    pub start_time: Option<Start>,
    pub end_time: Option<Moment>,
    /// How many seconds it is to last.
    pub duration: Option<u64>,
    /// The least number of slots that is of use; 1 where it is unset.
    pub min_slots: Option<u32>,
    /// The greatest number of slots that is wanted; the least where it is unset.
    pub max_slots: Option<u32>,
    /// The attributes of the standard that are set and that this profile does not support.
    pub others: AttributeList,
}

/// Where a reservation may lie, how long it is, and how many slots it may have.
#[derive(Clone, Copy, Debug, PartialEq, Eq)]
pub struct Frame {
    pub from: Moment,
    pub until: Moment,
    /// Its length in seconds.
    pub span: u64,
    pub min: u32,
    pub max: u32,
}
