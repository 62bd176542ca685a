//! A bell that wakes those who rest until something may have happened.
use drmaa_machine::{Call, NoEntry, Reply};
use drmaa_types::{Control, WaitKind};
use std::sync::{Condvar, Mutex, Wait};
use std::time::{Clock, Duration};

/// The shortest pause between two looks for what rings no bell, as the end of a process, in microseconds.
const SHORTEST_REST: u64 = 500;

/// The longest pause between two looks, in microseconds. What time brings to a job rings no bell, and is seen so late at most.
const LONGEST_REST: u64 = 50_000;

/// Who looks for what rings no bell rests for one part in so many of the time in which nothing has happened.
const PARTS: u64 = 16;

/// What an entry may bring to those who rest, beside what time brings.
#[derive(Clone, Copy)]
pub enum News {
    /// Nothing that anybody rests for.
    Nothing,
    /// Work, or another state of a job that has not ended.
    Change,
    /// The end of a job, or a session or a job that is no longer there.
    End,
}

impl News {
    /// What an entry of this call may bring, if it is not refused. An order that waits for a start is found by the reaper in its
    /// next round.
    pub(crate) fn of(call: &Call) -> News {
        match call {
            Call::RunJob { .. } | Call::RunBulk { .. } | Call::TakeLaunch => News::Change,
            Call::Control { what, .. } => match what {
                Control::Suspend | Control::Resume | Control::Hold | Control::Release => {
                    News::Change
                }
                Control::Terminate => News::End,
            },
            Call::DestroyJobSession { .. }
            | Call::CloseSession { .. }
            | Call::Reap { .. }
            | Call::EndReservation { .. }
            | Call::StartFailed { .. }
            | Call::Exited { .. }
            | Call::ExitUnknown { .. } => News::End,
            Call::CreateJobSession { .. }
            | Call::CreateReservationSession { .. }
            | Call::OpenJobSession { .. }
            | Call::OpenReservationSession { .. }
            | Call::DestroyReservationSession { .. }
            | Call::JobSessionNames
            | Call::ReservationSessionNames
            | Call::OpenMonitoring
            | Call::GetJobs { .. }
            | Call::GetJobArray { .. }
            | Call::GetState { .. }
            | Call::GetInfo { .. }
            | Call::Wait { .. }
            | Call::RequestReservation { .. }
            | Call::GetReservation { .. }
            | Call::GetReservations { .. }
            | Call::AllJobs { .. }
            | Call::AllReservations { .. }
            | Call::AllQueues { .. }
            | Call::AllMachines { .. }
            | Call::Register
            | Call::Started { .. }
            | Call::TakeSignal
            | Call::SignalDone { .. }
            | Call::SignalFailed { .. } => News::Nothing,
        }
    }

    /// What such a call brought that was served so: nothing without an entry, and nothing where it was refused.
    pub(crate) fn behind(self, served: &Result<Reply, NoEntry>) -> News {
        match served {
            Ok(Reply::Refused(_)) | Err(_) => News::Nothing,
            Ok(_) => self,
        }
    }
}

/// How often the bell rang.
#[derive(Clone, Copy)]
struct Rings {
    all: u64,
    ends: u64,
}

impl Rings {
    /// The bell rang once more.
    fn count(&mut self, is_end: bool) {
        self.all = self.all.wrapping_add(1);
        if is_end {
            self.ends = self.ends.wrapping_add(1);
        }
    }

    /// How often it rang for those who wait for this state.
    fn for_state(&self, kind: WaitKind) -> u64 {
        match kind {
            WaitKind::Started => self.all,
            WaitKind::Terminated => self.ends,
        }
    }
}

/// Wakes who rests. It carries no fact: who rests looks again.
pub struct Bell {
    rings: Mutex<Rings>,
    struck: Condvar,
    ended: Condvar,
    is_silent: bool,
}

// By hand, so that how its parts are let go is proved here once, and not again in each crate that lets one go.
impl Drop for Bell {
    fn drop(self) {
        let Bell {
            rings: _,
            struck: _,
            ended: _,
            is_silent: _,
        } = self;
    }
}

/// How often a bell had struck at one time for those who wait for a state.
#[derive(Clone, Copy)]
pub struct Strokes {
    kind: WaitKind,
    count: u64,
}

/// How long to rest between two looks for what rings no bell: the longer nothing has happened, the longer. So what comes soon is seen
/// soon, and a long wait costs little.
#[derive(Clone, Copy)]
pub struct Pace {
    /// Since when nothing has happened, by the pauses, in microseconds.
    quiet: u64,
}

impl Pace {
    /// The pace of who begins to look.
    pub fn new() -> Pace {
        Pace { quiet: 0 }
    }

    /// Something has happened.
    pub fn begin_anew(&mut self) {
        self.quiet = 0;
    }

    /// The next pause, in microseconds.
    fn pause(&self) -> u64 {
        (self.quiet / PARTS).max(SHORTEST_REST).min(LONGEST_REST)
    }

    /// Nothing has happened for this pause.
    fn go_on(&mut self, pause: u64) {
        self.quiet = self.quiet.saturating_add(pause);
    }
}

impl Bell {
    /// A bell. It takes no memory.
    pub fn new() -> Bell {
        Bell::of(false)
    }

    /// A bell whose rest ends at once. It takes no memory.
    pub fn silent() -> Bell {
        Bell::of(true)
    }

    fn of(is_silent: bool) -> Bell {
        Bell {
            rings: Mutex::new(Rings { all: 0, ends: 0 }),
            struck: Condvar::new(),
            ended: Condvar::new(),
            is_silent,
        }
    }

    /// Ends the rests that the news are for. It may wait for another thread.
    pub fn ring<R: Wait>(&self, rt: &R, news: News) {
        if self.is_silent {
            return;
        }
        match news {
            News::Nothing => {}
            News::Change => {
                self.count(rt, false);
                self.struck.notify_all();
            }
            News::End => {
                self.count(rt, true);
                self.struck.notify_all();
                self.ended.notify_all();
            }
        }
    }

    fn count<R: Wait>(&self, rt: &R, is_end: bool) {
        self.rings.lock(rt).count(is_end);
    }

    /// How often the bell has struck for those who wait for this state.
    pub fn strokes<R: Wait>(&self, rt: &R, kind: WaitKind) -> Strokes {
        let count = self.rings.lock(rt).for_state(kind);
        Strokes { kind, count }
    }

    /// Waits until the bell has struck once more for those who wait for that state, or for a while.
    pub fn rest_since<R: Wait + Clock>(&self, rt: &R, before: Strokes) {
        let _struck = self.rest_for(rt, before, LONGEST_REST);
    }

    /// Waits until the bell has struck once more for those who wait for that state, or for a pause at this pace.
    pub fn rest_at<R: Wait + Clock>(&self, rt: &R, before: Strokes, pace: &mut Pace) {
        let pause = pace.pause();
        if self.rest_for(rt, before, pause) {
            pace.begin_anew();
        } else {
            pace.go_on(pause);
        }
    }

    /// Whether the bell struck before so many microseconds were over.
    fn rest_for<R: Wait + Clock>(&self, rt: &R, before: Strokes, longest: u64) -> bool {
        if self.is_silent {
            return false;
        }
        let Strokes { kind, count } = before;
        let struck = match kind {
            WaitKind::Started => &self.struck,
            WaitKind::Terminated => &self.ended,
        };
        let rings = self.rings.lock(rt);
        let longest = Duration::from_micros(longest);
        let (_rings, ended) = struck.wait_timeout_while(
            rt,
            rings,
            longest,
            |now| now.for_state(kind) == count,
        );
        !ended.timed_out()
    }
}
