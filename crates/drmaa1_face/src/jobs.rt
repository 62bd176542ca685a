//! Jobs of the active session: they are run, controlled, and asked for their state.
ghost use Rattle.std.specs.Prelude.{◌≡◌};
ghost use Rattle.drmaa_types.specs.declared.identifiers.ArrayId.{ArrayId};
ghost use Rattle.turn_lock.specs.Tokens.{IsFree};
ghost use Rattle.call_history.specs.Clients.{IsStillAt};
ghost use Rattle.drmaa1_face.specs.Answers.{Answered};
ghost use Rattle.drmaa1_face.specs.FaceEntries.FaceCall.{run, run_bulk, control, ps};
ghost use Rattle.drmaa1_face.specs.Posts.{post};

use crate::asking::{ask_for, ask_to_run, ask_to_run_array};
use crate::face::Face;
use crate::faults::FaceFault;
use call_history::{Call, Desk};
use drmaa_model::{Indices, Target};
use drmaa_types::{Clock, Control, JobId, JobState};
use job_template::JobTemplate;
use std::sync::Wait;

/// Jobs that were submitted together: the number of the first, and how many there are. Their numbers follow one another.
#[derive(Clone, Copy, Debug, PartialEq, Eq)]
pub struct BulkJobs {
    pub first: JobId,
    pub count: u32,
}

impl Face {
    /// Submits a job in the active session (DRMAA 1, drmaa_run_job).
    ///
    /// # Errors
    ///
    /// `NoActiveSession` exactly where none is active. Else `Refused` with what the machine answers to RunJob; or, with no entry,
    /// with `OutOfMemory` or `OutOfResource(Journal)`.
    pub fn run<R: Wait, C: Clock>(
        &mut self,
        rt: &R,
        desk: &mut Desk<C>,
        template: JobTemplate,
    ) -> Result<JobId, FaceFault>
        requires { IsFree desk.old.shared.now desk.old.client }
        ensures desk { IsStillAt desk.old.shared.now desk.old.client desk.new.shared.now desk.new.client }
        ensures answer { Answered desk.old.shared.now.fixed self.old (post C.given C.least desk.old) (λ job c. c ≡ run template job) (post C.given C.least desk.new) result }
        ensures active { self.new ≡ self.old }
    {
        let Some(session) = self.active else {
            return Err(FaceFault::NoActiveSession);
        };
        match ask_to_run(rt, desk, session, template) {
            Ok(job) => Ok(job),
            Err(why) => Err(FaceFault::Refused(why)),
        }
    }

    /// Submits one job for each index from `begin` by `step` up to `end` (DRMAA 1, drmaa_run_bulk_jobs). Any number of them may
    /// hold slots at once.
    ///
    /// # Errors
    ///
    /// `NoActiveSession` exactly where none is active. Else `Refused` with what the machine answers to RunBulk; or, with no entry,
    /// with `OutOfMemory` or `OutOfResource(Journal)`.
    pub fn run_bulk<R: Wait, C: Clock>(
        &mut self,
        rt: &R,
        desk: &mut Desk<C>,
        template: JobTemplate,
        begin: u32,
        end: u32,
        step: u32,
    ) -> Result<BulkJobs, FaceFault>
        requires { IsFree desk.old.shared.now desk.old.client }
        ensures desk { IsStillAt desk.old.shared.now desk.old.client desk.new.shared.now desk.new.client }
        ensures answer { Answered desk.old.shared.now.fixed self.old (post C.given C.least desk.old) (λ jobs c. (array : ArrayId) × (c ≡ run_bulk template begin end step array jobs)) (post C.given C.least desk.new) result }
        ensures active { self.new ≡ self.old }
    {
        let Some(session) = self.active else {
            return Err(FaceFault::NoActiveSession);
        };
        let indices = Indices {
            begin,
            end,
            step,
            bound: None,
        };
        match ask_to_run_array(rt, desk, session, template, indices) {
            Ok(told) => Ok(BulkJobs {
                first: told.first,
                count: told.count,
            }),
            Err(why) => Err(FaceFault::Refused(why)),
        }
    }

    /// Suspends, resumes, holds, releases or terminates a job of the active session (DRMAA 1, drmaa_control).
    ///
    /// # Errors
    ///
    /// `NoActiveSession` exactly where none is active. Else `Refused` with what the machine answers to Control; or, with no entry,
    /// with `OutOfMemory` or `OutOfResource(Journal)`.
    pub fn control<R: Wait, C: Clock>(
        &mut self,
        rt: &R,
        desk: &mut Desk<C>,
        job: JobId,
        what: Control,
    ) -> Result<(), FaceFault>
        requires { IsFree desk.old.shared.now desk.old.client }
        ensures desk { IsStillAt desk.old.shared.now desk.old.client desk.new.shared.now desk.new.client }
        ensures answer { Answered desk.old.shared.now.fixed self.old (post C.given C.least desk.old) (λ told c. c ≡ control job what) (post C.given C.least desk.new) result }
        ensures active { self.new ≡ self.old }
    {
        let Some(session) = self.active else {
            return Err(FaceFault::NoActiveSession);
        };
        let call = Call::Control {
            session,
            target: Target::Job(job),
            what,
        };
        match ask_for::<R, C, ()>(rt, desk, call) {
            Ok(()) => Ok(()),
            Err(why) => Err(FaceFault::Refused(why)),
        }
    }

    /// The state of a job of the active session (DRMAA 1, drmaa_job_ps).
    ///
    /// # Errors
    ///
    /// `NoActiveSession` exactly where none is active. Else `Refused` with `InvalidSession` where its number is not valid any
    /// more, with `InvalidArgument(Job)` where it has no such kept job; or, with no entry, with `OutOfMemory` or
    /// `OutOfResource(Journal)`.
    pub fn ps<R: Wait, C: Clock>(
        &mut self,
        rt: &R,
        desk: &mut Desk<C>,
        job: JobId,
    ) -> Result<JobState, FaceFault>
        requires { IsFree desk.old.shared.now desk.old.client }
        ensures desk { IsStillAt desk.old.shared.now desk.old.client desk.new.shared.now desk.new.client }
        ensures answer { Answered desk.old.shared.now.fixed self.old (post C.given C.least desk.old) (λ state c. c ≡ ps job state) (post C.given C.least desk.new) result }
        ensures active { self.new ≡ self.old }
    {
        let Some(session) = self.active else {
            return Err(FaceFault::NoActiveSession);
        };
        match ask_for::<R, C, JobState>(rt, desk, Call::GetState { session, job }) {
            Ok(state) => Ok(state),
            Err(why) => Err(FaceFault::Refused(why)),
        }
    }
}
