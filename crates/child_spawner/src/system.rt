//! The machine that this process runs on: each method is the one call of the standard library that it names.
ghost use Rattle.std.specs.Prelude.{◌≡◌, None, IfSome, IfOk, Ok, Some};
ghost use Rattle.std.specs.Process.{child_status};

use crate::counts::counted_on;
use crate::{Host, Process};
use std::io::ErrorKind;
use std::process::{Command, ExitStatus, Stdio};
use std::time::Duration;
use std::{fs, io, process, thread};

/// The rest between two looks at a file, in milliseconds.
const REST: u64 = 1;

/// The machine that this process runs on. It tells nothing.
pub struct SystemHost {
    rt: HostRuntime,
}

// By hand, so that how its parts are let go is proved here once, and not again in each crate that lets one go.
impl Drop for SystemHost {
    fn drop(self) {
        let SystemHost { rt: _ } = self;
    }
}

impl SystemHost {
    /// The machine that this process runs on.
    pub fn new(rt: HostRuntime) -> SystemHost {
        SystemHost { rt }
    }
}

impl Host for SystemHost {
    type Process = SystemProcess;

    ghost told = { λ _. None };

    fn twin(&self) -> SystemHost {
        SystemHost { rt: self.rt }
    }

    fn remove(&mut self, file: &str) -> io::Result<()> {
        match fs::remove_file(&self.rt, file) {
            Err(e) if e.kind() != ErrorKind::NotFound => Err(e),
            _ => Ok(()),
        }
    }

    fn read(&mut self, file: &str) -> io::Result<String> {
        fs::read_to_string(&self.rt, file)
    }

    fn start(&mut self, mut command: Command) -> io::Result<SystemProcess> {
        let process = command
            .stdin(Stdio::null())
            .stdout(Stdio::null())
            .spawn(&self.rt)?;
        Ok(SystemProcess::new(process))
    }

    fn run(&mut self, mut command: Command) -> bool {
        let command = command.stdin(Stdio::null()).stdout(Stdio::null());
        matches!(command.status(&self.rt), Ok(status) if status.success())
    }

    fn rest(&mut self) {
        thread::sleep(&self.rt, Duration::from_millis(REST));
    }
}

/// A process of this machine.
pub struct SystemProcess {
    process: process::Child,
    number: u32,
    faults: u64,
}

// By hand, so that how its parts are let go is proved here once, and not again in each crate that lets one go.
impl Drop for SystemProcess {
    fn drop(self) {
        let SystemProcess {
            process: _,
            number: _,
            faults: _,
        } = self;
    }
}

impl SystemProcess {
    fn new(process: process::Child) -> SystemProcess {
        let number = process.id();
        SystemProcess {
            process,
            number,
            faults: 0,
        }
    }
}

impl Process for SystemProcess {
    ghost number = { λ p. p.number };

    ghost status = { λ p. child_status p.process };

    ghost faults = { λ p. p.faults };

    fn id(&self) -> u32 {
        self.number
    }

    fn try_wait(&mut self) -> io::Result<Option<ExitStatus>> {
        let seen = self.process.try_wait();
        if seen.is_err() {
            self.faults = counted_on(self.faults);
        }
        seen
    }
}
