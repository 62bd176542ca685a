//! A job's template that is made step by step, from its command on.
//!
//! Each step sets one attribute of GFD.231's JobTemplate, or adds to one (`slots` sets two), and keeps the others. A step that needs memory takes it from
//! where the template has its own; where there is none it is an `Err`, and the template is let go.
ghost use Rattle.std.specs.Prelude.{◌≡◌, ◌++◌, ◌∷◌, [], map, Some, true, IfOk, OnOk};
ghost use Rattle.job_template.specs.Blanks.{blank_template, wallclock};

use crate::JobTemplate;
use crate::additions::{push_pair, push_text, push_texts, set_text, text_of, when_done};
use crate::wants::WALLCLOCK_TIME;
use drmaa_types::{LimitList, ListOf, Moment, ReservationId, ResourceLimit, Text};
use std::alloc::{AllocError, Global};

impl JobTemplate {
    /// A template of which nothing is set; its command is the empty text, which is refused of a job. It takes no memory.
    pub fn blank(alloc: Global) -> JobTemplate
        ensures { result ≡ blank_template }
    {
        JobTemplate {
            remote_command: Text::from_string(String::new(alloc)),
            args: ListOf::new(alloc),
            submit_as_hold: false,
            rerunnable: false,
            job_environment: ListOf::new(alloc),
            working_directory: None,
            job_name: None,
            input_path: None,
            output_path: None,
            error_path: None,
            join_files: false,
            reservation_id: None,
            queue_name: None,
            min_slots: None,
            max_slots: None,
            priority: None,
            start_time: None,
            deadline_time: None,
            resource_limits: ListOf::new(alloc),
            others: ListOf::new(alloc),
        }
    }

    /// A template that runs this program (`remoteCommand`), with every other attribute unset.
    ///
    /// # Errors
    /// Want of memory.
    pub fn command(alloc: Global, command: &str) -> Result<JobTemplate, AllocError>
        ensures { IfOk result (λ t. t ≡ record blank_template { remote_command = command.now }) }
    {
        let remote_command = text_of(alloc, command)?;
        Ok(JobTemplate {
            remote_command,
            ..JobTemplate::blank(alloc)
        })
    }

    /// Adds one argument behind those that it has (`args`).
    ///
    /// # Errors
    /// Want of memory.
    pub fn arg(self, word: &str) -> Result<JobTemplate, AllocError>
        ensures { IfOk result (λ t. t ≡ record self { args = self.args ++ word.now ∷ [] }) }
    {
        let mut template = self;
        let done = push_text(&mut template.args, word);
        when_done(done, template)
    }

    /// Adds arguments, in order, behind those that it has (`args`).
    ///
    /// # Errors
    /// Want of memory.
    pub fn args(self, words: &[&str]) -> Result<JobTemplate, AllocError>
        ensures { IfOk result (λ t. t ≡ record self { args = self.args ++ map (λ word. word.now) words.now }) }
    {
        let mut template = self;
        let done = push_texts(&mut template.args, words);
        when_done(done, template)
    }

    /// Adds an environment variable and its value behind those that it has (`jobEnvironment`). A variable that stands
    /// there twice is refused of a job.
    ///
    /// # Errors
    /// Want of memory.
    pub fn env(self, name: &str, value: &str) -> Result<JobTemplate, AllocError>
        ensures { IfOk result (λ t. t ≡ record self { job_environment = self.job_environment ++ (record { name = name.now; value = value.now }) ∷ [] }) }
    {
        let mut template = self;
        let done = push_pair(&mut template.job_environment, name, value);
        when_done(done, template)
    }

    /// Sets the job's name (`jobName`).
    ///
    /// # Errors
    /// Want of memory.
    pub fn name(self, name: &str) -> Result<JobTemplate, AllocError>
        ensures { IfOk result (λ t. t ≡ record self { job_name = Some name.now }) }
    {
        let mut template = self;
        let alloc = template.args.allocator();
        let done = set_text(&mut template.job_name, alloc, name);
        when_done(done, template)
    }

    /// Sets the directory that the job runs in (`workingDirectory`).
    ///
    /// # Errors
    /// Want of memory.
    pub fn directory(self, path: &str) -> Result<JobTemplate, AllocError>
        ensures { IfOk result (λ t. t ≡ record self { working_directory = Some path.now }) }
    {
        let mut template = self;
        let alloc = template.args.allocator();
        let done = set_text(&mut template.working_directory, alloc, path);
        when_done(done, template)
    }

    /// Sets the file that its input is read from (`inputPath`).
    ///
    /// # Errors
    /// Want of memory.
    pub fn input(self, path: &str) -> Result<JobTemplate, AllocError>
        ensures { IfOk result (λ t. t ≡ record self { input_path = Some path.now }) }
    {
        let mut template = self;
        let alloc = template.args.allocator();
        let done = set_text(&mut template.input_path, alloc, path);
        when_done(done, template)
    }

    /// Sets the file that its output goes to (`outputPath`).
    ///
    /// # Errors
    /// Want of memory.
    pub fn output(self, path: &str) -> Result<JobTemplate, AllocError>
        ensures { IfOk result (λ t. t ≡ record self { output_path = Some path.now }) }
    {
        let mut template = self;
        let alloc = template.args.allocator();
        let done = set_text(&mut template.output_path, alloc, path);
        when_done(done, template)
    }

    /// Sets the file that its errors go to (`errorPath`); it is not used where they go to the output's file.
    ///
    /// # Errors
    /// Want of memory.
    pub fn error(self, path: &str) -> Result<JobTemplate, AllocError>
        ensures { IfOk result (λ t. t ≡ record self { error_path = Some path.now }) }
    {
        let mut template = self;
        let alloc = template.args.allocator();
        let done = set_text(&mut template.error_path, alloc, path);
        when_done(done, template)
    }

    /// Names the queue that it is of (`queueName`).
    ///
    /// # Errors
    /// Want of memory.
    pub fn queue(self, name: &str) -> Result<JobTemplate, AllocError>
        ensures { IfOk result (λ t. t ≡ record self { queue_name = Some name.now }) }
    {
        let mut template = self;
        let alloc = template.args.allocator();
        let done = set_text(&mut template.queue_name, alloc, name);
        when_done(done, template)
    }

    /// Limits how many seconds a launch of it may last (`resourceLimits`, `WALLCLOCK_TIME`). A limit of 0 seconds, or a
    /// second limit, is refused of a job.
    ///
    /// # Errors
    /// Want of memory.
    pub fn limit(self, seconds: u64) -> Result<JobTemplate, AllocError>
        ensures { IfOk result (λ t. t ≡ record self { resource_limits = self.resource_limits ++ wallclock seconds ∷ [] }) }
    {
        let mut template = self;
        let done = push_wallclock(&mut template.resource_limits, seconds);
        when_done(done, template)
    }

    /// Its errors go to the output's file (`joinFiles`).
    pub fn joined(self) -> JobTemplate
        ensures { result ≡ record self { join_files = true } }
    {
        let mut template = self;
        template.join_files = true;
        template
    }

    /// It is submitted as QUEUED_HELD (`submitAsHold`).
    pub fn hold(self) -> JobTemplate
        ensures { result ≡ record self { submit_as_hold = true } }
    {
        let mut template = self;
        template.submit_as_hold = true;
        template
    }

    /// It is queued again after exit code 99, and after a failed start of its first or second launch, where no kill was
    /// asked (`rerunnable`).
    pub fn rerunnable(self) -> JobTemplate
        ensures { result ≡ record self { rerunnable = true } }
    {
        let mut template = self;
        template.rerunnable = true;
        template
    }

    /// Sets the least number of slots that it can run on and the greatest that it can use (`minSlots`, `maxSlots`).
    pub fn slots(self, min: u32, max: u32) -> JobTemplate
        ensures { result ≡ record self { min_slots = Some min; max_slots = Some max } }
    {
        let mut template = self;
        template.min_slots = Some(min);
        template.max_slots = Some(max);
        template
    }

    /// Sets its priority (`priority`): the greater is launched first.
    pub fn with_priority(self, priority: i32) -> JobTemplate
        ensures { result ≡ record self { priority = Some priority } }
    {
        let mut template = self;
        template.priority = Some(priority);
        template
    }

    /// It runs in this reservation (`reservationId`).
    pub fn reserved(self, reservation: ReservationId) -> JobTemplate
        ensures { result ≡ record self { reservation_id = Some reservation } }
    {
        let mut template = self;
        template.reservation_id = Some(reservation);
        template
    }

    /// It is not launched before this moment (`startTime`).
    pub fn starting(self, moment: Moment) -> JobTemplate
        ensures { result ≡ record self { start_time = Some moment } }
    {
        let mut template = self;
        template.start_time = Some(moment);
        template
    }

    /// It has failed where it isn't launched before this moment, and is killed where it runs then (`deadlineTime`).
    pub fn deadline(self, moment: Moment) -> JobTemplate
        ensures { result ≡ record self { deadline_time = Some moment } }
    {
        let mut template = self;
        template.deadline_time = Some(moment);
        template
    }
}

/// Puts behind limits that of how many seconds a launch may last.
fn push_wallclock(limits: &mut LimitList, seconds: u64) -> Result<(), AllocError>
    ensures { OnOk result (limits.new ≡ limits.old ++ wallclock seconds ∷ []) }
{
    push_limit(limits, WALLCLOCK_TIME, seconds)
}

/// Puts behind limits the one of this name and value.
fn push_limit(limits: &mut LimitList, name: &str, value: u64) -> Result<(), AllocError>
    ensures { OnOk result (limits.new ≡ limits.old ++ (record { name = name.now; value = value }) ∷ []) }
{
    let name = text_of(limits.allocator(), name)?;
    limits.push(ResourceLimit { name, value })
}
