//! Job sessions: they submit jobs, and tell which there are.
ghost use Rattle.std.specs.Prelude.{◌≡◌, ℕ, List, IfOk, IfErr};
ghost use Rattle.turn_lock.specs.Tokens.{IsFree};
ghost use Rattle.call_history.specs.Clients.{StaysAt};
ghost use Rattle.client_sessions.specs.Desks.{dial_of, Serves, Denies};
ghost use Rattle.client_sessions.specs.Indices.{bulk_indices};
ghost use Rattle.client_sessions.specs.Lists.{jobs_of, IsUnlisted};

use crate::arrays::JobArray;
use crate::jobs::Job;
use crate::lists::jobs_of;
use call_history::{Call, Desk, JobNumbers, Reply, SubmittedArray};
use drmaa_model::Indices;
use drmaa_types::{ArrayId, Clock, IdList, JobFilter, JobId, ListOf, Refusal, SessionId};
use job_template::JobTemplate;
use std::alloc::Global;
use std::sync::Wait;

/// An open job session: jobs are submitted in it (GFD.231, JobSession).
#[derive(Clone, Copy, Debug, PartialEq, Eq)]
pub struct JobSession {
    /// The session number, as the session manager answered it.
    pub session: SessionId,
}

impl JobSession {
    /// Submits a job (GFD.231, JobSession::runJob).
    ///
    /// # Errors
    ///
    /// `InvalidSession` where this is no open job session, what is wrong with the template (`InvalidArgument`,
    /// `OutOfResource(TemplateText)`, `UnsupportedAttribute`), `InvalidArgument(Reservation)` for a reservation that is
    /// not accepted, `InvalidArgument(MinSlots)` for one that has fewer slots than the job's least, `OutOfResource` at
    /// 100,000 kept jobs or at 64 MiB of their text; with no entry, `OutOfMemory` or `OutOfResource(Journal)`.
    pub fn run_job<R: Wait, C: Clock>(
        self,
        rt: &R,
        desk: &mut Desk<C>,
        template: JobTemplate,
    ) -> Result<Job, Refusal>
        requires { IsFree desk.old.shared.now desk.old.client }
        ensures desk { StaysAt desk.old.shared.now desk.old.client desk.new.shared.now desk.new.client }
        ensures ok { IfOk result (λ made. Serves C.given C.least desk.old (Call.RunJob self.session template) (Reply.Job made.job) desk.new) }
        ensures session { IfOk result (λ made. made.session ≡ self.session) }
        ensures err { IfErr result (λ why. Denies C.given C.least desk.old (Call.RunJob self.session template) why desk.new) }
    {
        let session = self.session;
        let job = desk.ask_to_run(rt, session, template)?;
        Ok(Job { session, job })
    }

    /// Submits an array of jobs, one for each index from `begin` by `step` up to `end`, of which at most `max_parallel`
    /// hold slots at once (GFD.231, JobSession::runBulkJobs). The jobs have numbers that follow one another, in order
    /// of their indices.
    ///
    /// # Errors
    ///
    /// `InvalidSession` where this is no open job session, `InvalidArgument(Indices)` for indices that begin at 0, end
    /// before they begin or have the step 0, `InvalidArgument(MaxParallel)` for a bound of 0,
    /// `OutOfResource(BulkMembers)` above 10,000 jobs, what is wrong with the template (`InvalidArgument`,
    /// `OutOfResource(TemplateText)`, `UnsupportedAttribute`), `InvalidArgument(Reservation)` for a reservation that is
    /// not accepted, `InvalidArgument(MinSlots)` for one that has fewer slots than the job's least, `OutOfResource` at
    /// 100,000 kept jobs or at 64 MiB of their text; with no entry, `OutOfMemory` or `OutOfResource(Journal)`.
    pub fn run_bulk_jobs<R: Wait, C: Clock>(
        self,
        rt: &R,
        desk: &mut Desk<C>,
        template: JobTemplate,
        begin: u32,
        end: u32,
        step: u32,
        max_parallel: Option<u32>,
    ) -> Result<JobArray, Refusal>
        requires { IsFree desk.old.shared.now desk.old.client }
        ensures desk { StaysAt desk.old.shared.now desk.old.client desk.new.shared.now desk.new.client }
        ensures ok { IfOk result (λ made. Serves C.given C.least desk.old (Call.RunBulk self.session template (bulk_indices begin end step max_parallel)) (Reply.Array made.array made.first made.count) desk.new) }
        ensures session { IfOk result (λ made. made.session ≡ self.session) }
        ensures err { IfErr result (λ why. Denies C.given C.least desk.old (Call.RunBulk self.session template (bulk_indices begin end step max_parallel)) why desk.new) }
    {
        let session = self.session;
        let indices = Indices {
            begin,
            end,
            step,
            bound: max_parallel,
        };
        let told = desk.ask_to_run_array(rt, session, template, indices)?;
        Ok(JobArray {
            session,
            array: told.array,
            first: told.first,
            count: told.count,
        })
    }

    /// The numbers of the session's kept jobs that the filter lets through, rising (GFD.231, JobSession::getJobs).
    ///
    /// # Errors
    ///
    /// `InvalidSession` where this is no open job session; with no entry, `OutOfMemory` or `OutOfResource(Journal)`.
    pub fn get_jobs<R: Wait, C: Clock>(
        self,
        rt: &R,
        desk: &mut Desk<C>,
        filter: JobFilter,
    ) -> Result<IdList, Refusal>
        requires { IsFree desk.old.shared.now desk.old.client }
        ensures desk { StaysAt desk.old.shared.now desk.old.client desk.new.shared.now desk.new.client }
        ensures ok { IfOk result (λ told. Serves C.given C.least desk.old (Call.GetJobs self.session filter) (Reply.Jobs told) desk.new) }
        ensures err { IfErr result (λ why. Denies C.given C.least desk.old (Call.GetJobs self.session filter) why desk.new) }
    {
        let session = self.session;
        let told = desk.ask_for_jobs(rt, session, filter)?;
        Ok(told.numbers)
    }

    /// The session's kept jobs that the filter lets through, by rising number (GFD.231, JobSession::getJobs). Each is asked for
    /// through this session.
    ///
    /// # Errors
    ///
    /// As `get_jobs`; and `OutOfMemory` where there is none for the list, when the entry has been made.
    pub fn jobs<R: Wait, C: Clock>(
        self,
        alloc: Global,
        rt: &R,
        desk: &mut Desk<C>,
        filter: JobFilter,
    ) -> Result<ListOf<Job>, Refusal>
        requires { IsFree desk.old.shared.now desk.old.client }
        ensures desk { StaysAt desk.old.shared.now desk.old.client desk.new.shared.now desk.new.client }
        ensures ok { IfOk result (λ jobs. (numbers : List ℕ) × (jobs ≡ jobs_of self.session numbers) × Serves C.given C.least desk.old (Call.GetJobs self.session filter) (Reply.Jobs numbers) desk.new) }
        ensures err { IfErr result (λ why. IsUnlisted desk.old.shared.now.fixed (dial_of C.given C.least desk.old) desk.old.client (Call.GetJobs self.session filter) (λ numbers. Reply.Jobs numbers) why (dial_of C.given C.least desk.new) desk.new.client) }
    {
        match self.get_jobs(rt, desk, filter) {
            Ok(numbers) => jobs_of(alloc, self.session, &numbers),
            Err(why) => Err(why),
        }
    }

    /// The numbers of an array's kept jobs, rising (GFD.231, JobSession::getJobArray).
    ///
    /// # Errors
    ///
    /// `InvalidSession` where this is no open job session, `InvalidArgument(Array)` for an array that has no kept job
    /// in it; with no entry, `OutOfMemory` or `OutOfResource(Journal)`.
    pub fn get_job_array<R: Wait, C: Clock>(
        self,
        rt: &R,
        desk: &mut Desk<C>,
        array: ArrayId,
    ) -> Result<IdList, Refusal>
        requires { IsFree desk.old.shared.now desk.old.client }
        ensures desk { StaysAt desk.old.shared.now desk.old.client desk.new.shared.now desk.new.client }
        ensures ok { IfOk result (λ told. Serves C.given C.least desk.old (Call.GetJobArray self.session array) (Reply.Jobs told) desk.new) }
        ensures err { IfErr result (λ why. Denies C.given C.least desk.old (Call.GetJobArray self.session array) why desk.new) }
    {
        let session = self.session;
        let told = desk.ask_for::<R, JobNumbers>(rt, Call::GetJobArray { session, array })?;
        Ok(told.numbers)
    }
}
