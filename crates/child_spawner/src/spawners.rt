//! What starts children.
ghost use Rattle.std.specs.Prelude.{◌≡◌, ℕ, ◌≤◌, List, length, Option, Some, OnOk, OnErr, IfOk, IfSome, is_ok};
ghost use Rattle.child_spawner.specs.declared.fates.Asked.{Asked};
ghost use Rattle.child_spawner.specs.declared.fates.Fate.{Fate};
ghost use Rattle.child_spawner.specs.Children.{started_child};
ghost use Rattle.drmaa_types.specs.Counts.{Rose};
ghost use Rattle.child_spawner.specs.Spawners.{Asks};

use crate::Child;
use drmaa_types::{Failed, JobId, TextList};

/// What starts children. It counts its faults, and may tell what was asked of it.
pub trait Spawner {
    /// A child that it starts.
    type One: Child + Send + Drop;

    /// How many starts failed.
    ghost faults: { Self → ℕ };

    /// The starts that were asked, in order, where they are told.
    ghost asked: { Self → Option (List Asked) };

    /// The fate of the child of each start, counted from 1, where the starts are told.
    ghost fate: { Self → ℕ → Fate };

    /// Starts the child of this attempt of a job. The launch words are its directory, its input, output
    /// and error paths, `join` or `apart`, the number of its environment's pairs and the pairs, its
    /// command and the command's arguments.
    fn start(&mut self, job: JobId, attempt: u32, words: &TextList) -> Result<Self::One, Failed>
        ensures cause { OnErr result (Rose (faults self.old) (faults self.new)) }
        ensures counted { OnOk result (faults self.new ≡ faults self.old) }
        ensures never_falls { faults self.old ≤ faults self.new }

        ensures asked { Asks (asked self.old)
            (record { job = job; attempt = attempt; words = words.now; began = is_ok result })
            (asked self.new) }
        ensures fates { fate self.new ≡ fate self.old }
        // Where the starts are told, so is the child: by its start's number, and with that number's fate.
        ensures child { IfOk result (λ child. IfSome (asked self.new) (λ starts. Self.One.told child
            ≡ Some (started_child (length starts) job attempt (fate self.new (length starts))))) };
}
