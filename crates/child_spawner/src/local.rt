//! The spawner of real processes.
ghost use Rattle.std.specs.Prelude.{◌≡◌, ℕ, ◌≤◌, [], ◌++◌, length, Option, None, Some, Ok, OnOk, OnErr, IfOk, IfSome, IfNone, IsErr, IsSome, is_ok, option_map, IsTrue, IsFalse, string_bytes, if◌then◌else◌};
ghost use Rattle.drmaa_types.specs.Readings.{counted_on};
ghost use Rattle.drmaa_types.specs.Counts.{Rose};
ghost use Rattle.child_spawner.specs.Deeds.{Launches, Fails, Clears, Sends, Withholds};
ghost use Rattle.child_spawner.specs.Launch.{number_file, exit_of_status};
ghost use Rattle.child_spawner.specs.Spawners.{plain_fate};

use crate::counts::counted_on;
use crate::shell::{exit_of, launch_command, number_file};
use crate::signals::deliver;
use crate::{Child, Host, Process, Spawner, SystemHost};
use drmaa_types::{Exit, Failed, JobId, SignalKind, Text, TextList};
use std::alloc::Global;
use std::io;
use std::marker::Model;

/// Starts real processes through `sh`. It tells neither what was asked of it nor a fate, and counts
/// each start that failed, for want of memory too.
pub struct LocalSpawner<H: Host = SystemHost> {
    alloc: Global,
    host: H,
    folder: Text,
    faults: u64,
}

// By hand, so that how its parts are let go is proved here once, and not again in each crate that lets one go.
impl<H: Host> Drop for LocalSpawner<H> {
    fn drop(self) {
        let LocalSpawner {
            alloc: _,
            host: _,
            folder: _,
            faults: _,
        } = self;
    }
}

impl<H: Host> Model for LocalSpawner<H> {
    ghost use Rattle.child_spawner.specs.Launch.{Edge};

    ghost Value = { Edge H };

    ghost view = { λ s. record { host = s.host; folder = s.folder; faults = s.faults } };
}

impl LocalSpawner<SystemHost> {
    /// A spawner whose processes write their numbers into files of this folder, one for each attempt of
    /// a job, which is removed when the end is seen.
    pub fn new(rt: HostRuntime, folder: Text) -> LocalSpawner<SystemHost>
        ensures folder { result.folder ≡ folder }
        ensures faults { result.faults ≡ 0 }
    {
        LocalSpawner::over(rt.alloc(), SystemHost::new(rt), folder)
    }
}

impl<H: Host> LocalSpawner<H> {
    /// Such a spawner over this host.
    pub fn over(alloc: Global, host: H, folder: Text) -> LocalSpawner<H>
        ensures { result ≡ record { host = host; folder = folder; faults = 0 } }
    {
        LocalSpawner {
            alloc,
            host,
            folder,
            faults: 0,
        }
    }
}

impl<H: Host + Send> Spawner for LocalSpawner<H>
where
    H::Process: Send,
{
    type One = LocalChild<H>;

    ghost faults = { λ s. s.faults };

    ghost asked = { λ s. None };

    ghost fate = { λ s n. plain_fate };

    /// Starts `sh`, which becomes the job's command. What `sh` can't do, such as to enter the directory,
    /// is seen as the child's exit.
    fn start(&mut self, job: JobId, attempt: u32, words: &TextList) -> Result<LocalChild<H>, Failed>
        ensures cause { OnErr result (Rose self.old.faults self.new.faults) }
        ensures counted { OnOk result (self.new.faults ≡ self.old.faults) }
        ensures never_falls { self.old.faults ≤ self.new.faults }

        // What is asked of the host: exactly the launch of this attempt, or nothing.
        ensures launched { IfOk result (λ child. Launches (number_file self.old.folder job.0 attempt) words.now child.number
            (H.told self.old.host) (H.told self.new.host)) }
        ensures failed { OnErr result (Fails (number_file self.old.folder job.0 attempt) words.now
            (H.told self.old.host) (H.told self.new.host)) }

        ensures seen { self.new ≡ record self.old {
          host = self.new.host;
          faults = if is_ok result then self.old.faults else counted_on self.old.faults;
        } }
        ensures running { IfOk result (λ child. child ≡ record {
          host = child.host;
          file = number_file self.old.folder job.0 attempt;
          number = child.number;
          status = child.status;
          failed_waits = child.failed_waits;
          ended = None;
          faults = 0;
        }) }
        ensures twin { IfOk result (λ child. H.told child.host ≡ H.told self.new.host) }
    {
        match launch(
            self.alloc,
            &mut self.host,
            self.folder.as_str(),
            job,
            attempt,
            words,
        ) {
            Ok(child) => Ok(child),
            Err(_) => {
                self.faults = counted_on(self.faults);
                Err(Failed)
            }
        }
    }
}

/// Starts the process of this attempt. `sh` writes over a file of its name that an earlier run may have left.
fn launch<H: Host>(
    alloc: Global,
    host: &mut H,
    folder: &str,
    job: JobId,
    attempt: u32,
    words: &TextList,
) -> io::Result<LocalChild<H>>
    ensures launched { IfOk result (λ child. Launches (number_file folder.now job.0 attempt) words.now child.number
        (H.told host.old) (H.told host.new)) }
    ensures failed { OnErr result (Fails (number_file folder.now job.0 attempt) words.now
        (H.told host.old) (H.told host.new)) }
    ensures running { IfOk result (λ child. child ≡ record {
      host = child.host;
      file = number_file folder.now job.0 attempt;
      number = child.number;
      status = child.status;
      failed_waits = child.failed_waits;
      ended = None;
      faults = 0;
    }) }
    ensures twin { IfOk result (λ child. H.told child.host ≡ H.told host.new) }
{
    let file = number_file(alloc, folder, job, attempt)?;
    let command = launch_command(alloc, file.as_str(), words)?;
    let process = host.start(command)?;
    Ok(LocalChild {
        alloc,
        host: host.twin(),
        file,
        process,
        ended: None,
        faults: 0,
    })
}

/// A real process. It tells nothing of itself, and counts each poll and signal that failed.
pub struct LocalChild<H: Host = SystemHost> {
    alloc: Global,
    host: H,
    file: String,
    process: H::Process,
    ended: Option<Exit>,
    faults: u64,
}

// By hand, so that how its parts are let go is proved here once, and not again in each crate that lets one go.
impl<H: Host> Drop for LocalChild<H> {
    fn drop(self) {
        let LocalChild {
            alloc: _,
            host: _,
            file: _,
            process: _,
            ended: _,
            faults: _,
        } = self;
    }
}

impl<H: Host> Model for LocalChild<H> {
    ghost use Rattle.std.specs.Prelude.{◌≡◌, Some, option_map, string_bytes};
    ghost use Rattle.std.specs.Option.{ForSome};
    ghost use Rattle.child_spawner.specs.Launch.{EdgeChild, exit_of_status};

    ghost Value = { EdgeChild H };

    ghost view = { λ c. record {
      host = c.host;
      file = string_bytes c.file;
      number = H.Process.number c.process;
      status = H.Process.status c.process;
      failed_waits = H.Process.faults c.process;
      ended = c.ended;
      faults = c.faults;
    } };

    // The end that was seen is that of the status with which the process was waited for.
    ghost invariant = { λ c. ForSome c.ended
        (λ exit. option_map exit_of_status (H.Process.status c.process) ≡ Some exit) };
}

impl<H: Host> Child for LocalChild<H> {
    ghost faults = { λ c. c.faults };

    ghost told = { λ c. None };

    /// How the process ended, or None while it runs. Once its end is seen it is waited for no more, and
    /// each later poll answers the same.
    fn poll(&mut self) -> Result<Option<Exit>, Failed>
        ensures cause { OnErr result (Rose self.old.faults self.new.faults) }
        ensures counted { OnOk result (self.new.faults ≡ self.old.faults) }
        ensures never_falls { self.old.faults ≤ self.new.faults }

        ensures again { IfSome self.old.ended (λ exit. result ≡ Ok (Some exit)) }
        ensures ended { IfOk result (λ seen. self.new.ended ≡ seen) }
        ensures unseen { OnErr result (self.new.ended ≡ self.old.ended) }
        ensures caused { OnErr result (Rose self.old.failed_waits self.new.failed_waits) }
        ensures learnt { IfOk result (λ seen. seen ≡ option_map exit_of_status self.new.status) }
        ensures seen { self.new ≡ record self.old {
          host = self.new.host;
          status = self.new.status;
          failed_waits = self.new.failed_waits;
          ended = self.new.ended;
          faults = if is_ok result then self.old.faults else counted_on self.old.faults;
        } }

        // What is asked of the host: to remove the number's file, once, when the end is seen.
        ensures cleared { IfOk result (λ seen. IsSome seen → IfNone self.old.ended
            (Clears self.old.file (H.told self.old.host) (H.told self.new.host))) }
        ensures over { IsSome self.old.ended → H.told self.new.host ≡ H.told self.old.host }
        ensures quiet { IfOk result (λ seen. IfNone seen (H.told self.new.host ≡ H.told self.old.host)) }
        ensures quiet_fault { OnErr result (H.told self.new.host ≡ H.told self.old.host) }
    {
        if self.ended.is_some() {
            return Ok(self.ended);
        }
        match self.process.try_wait() {
            Ok(None) => Ok(None),
            Ok(Some(status)) => {
                let exit = exit_of(status);
                self.ended = Some(exit);
                let _ = self.host.remove(self.file.as_str());
                Ok(Some(exit))
            }
            Err(_) => {
                self.faults = counted_on(self.faults);
                Err(Failed)
            }
        }
    }

    /// Sends the signal to the process itself, not to the processes that it started. It may look for
    /// the process's number for a second.
    fn signal(&mut self, kind: SignalKind) -> Result<(), Failed>
        ensures cause { OnErr result (Rose self.old.faults self.new.faults) }
        ensures counted { OnOk result (self.new.faults ≡ self.old.faults) }
        ensures never_falls { self.old.faults ≤ self.new.faults }

        // No signal is sent to another process that has got the number meanwhile.
        ensures over { IsSome self.old.ended → IsErr result }
        ensures quiet { IsSome self.old.ended → H.told self.new.host ≡ H.told self.old.host }

        // Ok exactly where this signal was sent to this process, and `sh` said so.
        ensures sent { OnOk result (Sends kind self.old.number self.old.file
            (H.told self.old.host) (H.told self.new.host)) }
        ensures withheld { IsErr result → IfNone self.old.ended (Withholds kind self.old.number self.old.file
            (H.told self.old.host) (H.told self.new.host)) }
        ensures seen { self.new ≡ record self.old {
          host = self.new.host;
          faults = if is_ok result then self.old.faults else counted_on self.old.faults;
        } }
    {
        let number = self.process.id();
        if self.ended.is_none()
            && deliver(self.alloc, &mut self.host, self.file.as_str(), number, kind)
        {
            return Ok(());
        }
        self.faults = counted_on(self.faults);
        Err(Failed)
    }
}
