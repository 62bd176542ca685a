//! What a spawner of real processes asks of the machine that it runs on.
ghost use Rattle.std.specs.Prelude.{◌≡◌, ℕ, true, false, [], ◌∷◌, List, Option, Some, None, Ok, OnOk, OnErr, IfOk, IfSome, string_bytes};
ghost use Rattle.std.specs.Process.{command_args, command_program};
ghost use Rattle.std.specs.declared.process.status.ExitStatus.{ExitStatus};
ghost use Rattle.drmaa_types.specs.Counts.{Rose};
ghost use Rattle.child_spawner.specs.Deeds.{Deed, Did};
ghost use Rattle.child_spawner.specs.Deeds.Deed.{Removes, Reads, Starts, Runs};
ghost use Rattle.child_spawner.specs.Launch.{IsPlain};

use std::io;
use std::process::{Command, ExitStatus};

/// The files and processes of a machine. It may tell what was asked of it and what it answered.
pub trait Host: Drop {
    /// A process that it started.
    type Process: Process + Drop;

    /// What was asked, in order, and each answer, where they are told.
    ghost told: { Self → Option (List Deed) };

    /// Another host on the same machine, which has been asked the same.
    fn twin(&self) -> Self
        ensures { told result ≡ told self.now };

    /// Removes the file, if it is there.
    fn remove(&mut self, file: &str) -> io::Result<()>
        ensures done { OnOk result (Did (told self.old) (Removes file.now true ∷ []) (told self.new)) }
        ensures failed { OnErr result (Did (told self.old) (Removes file.now false ∷ []) (told self.new)) };

    /// The text of the file.
    fn read(&mut self, file: &str) -> io::Result<String>
        ensures done { IfOk result
            (λ text. Did (told self.old) (Reads file.now (Some (string_bytes text)) ∷ []) (told self.new)) }
        ensures failed { OnErr result (Did (told self.old) (Reads file.now None ∷ []) (told self.new)) };

    /// Starts the command. Its input is empty, and what it writes to its output is lost.
    fn start(&mut self, command: Command) -> io::Result<Self::Process>
        requires { IsPlain command }
        ensures done { IfOk result (λ process. Did (told self.old)
            (Starts (command_program command) (command_args command) (Some (Self.Process.number process)) ∷ [])
            (told self.new)) }
        ensures failed { OnErr result (Did (told self.old)
            (Starts (command_program command) (command_args command) None ∷ [])
            (told self.new)) };

    /// Runs the command to its end, in the same way, and answers whether it was run and succeeded.
    fn run(&mut self, command: Command) -> bool
        requires { IsPlain command }
        ensures { Did (told self.old)
            (Runs (command_program command) (command_args command) result ∷ [])
            (told self.new) };

    /// Rests before another look at a file.
    fn rest(&mut self)
        ensures { told self.new ≡ told self.old };
}

/// A process that a host started.
pub trait Process {
    /// The number that the machine knows it by.
    ghost number: { Self → ℕ };

    /// How it ended, once a wait has told it.
    ghost status: { Self → Option ExitStatus };

    /// How many waits for it failed. The count stays at 2^64 - 1 once it is there.
    ghost faults: { Self → ℕ };

    /// The number that the machine knows it by.
    fn id(&self) -> u32
        ensures { result ≡ number self.now };

    /// How it ended, or None while it runs.
    fn try_wait(&mut self) -> io::Result<Option<ExitStatus>>
        ensures number { number self.new ≡ number self.old }
        ensures again { IfSome (status self.old) (λ status. result ≡ Ok (Some status)) }
        ensures kept { IfOk result (λ seen. status self.new ≡ seen) }
        ensures failed { OnErr result (Rose (faults self.old) (faults self.new)) }
        ensures counted { OnOk result (faults self.new ≡ faults self.old) };
}
