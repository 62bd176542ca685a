//! What a source and a sink are. Each counts its faults, and may tell contracts its bytes.
ghost use Rattle.std.specs.Prelude.{◌≡◌, ℕ, ◌<◌, ◌≤◌, List, length, take, Option, IfOk, OnOk, OnErr};
ghost use Rattle.std.specs.Io.KnownBytes.{Keeps, Appends, Consumes, IsAtEnd};
ghost use Rattle.drmaa_types.specs.Counts.{Rose};

use drmaa_types::Failed;

/// Bytes that can be read in order.
pub trait Source {
    /// How many reads have failed. The count stays at 2^64 - 1 once it is there.
    ghost faults: { Self → ℕ };

    /// The bytes left to read, where the source tells them.
    ghost left: { Self → Option (List ℕ) };

    /// Reads some bytes into the front of the buffer, and answers how many: 0 at the end of the
    /// input, or where the buffer is empty. A read that failed has taken none, and is counted.
    fn read(&mut self, into: &mut [u8]) -> Result<usize, Failed>
        ensures fits { IfOk result (λ n. n ≤ length into.new) }
        ensures taken { IfOk result (λ n. Consumes (left self.old) (left self.new) (take n into.new)) }
        ensures end { IfOk result (λ n. n ≡ 0 → 0 < length into.new → IsAtEnd (left self.new)) }
        ensures kept { OnErr result (Keeps (left self.old) (left self.new)) }
        ensures counted { faults self.old ≤ faults self.new }
        ensures fault { OnErr result (Rose (faults self.old) (faults self.new)) };
}

/// A place that takes bytes in order.
pub trait Sink {
    /// How many writes and finishes have failed. The count stays at 2^64 - 1 once it is there.
    ghost faults: { Self → ℕ };

    /// The bytes written so far, where the sink tells them.
    ghost written: { Self → Option (List ℕ) };

    /// What was written is where it belongs. A write ends this, and only a finish brings it about.
    ghost finished: { Self → Type 0 };

    /// Writes the first bytes of the piece, and answers how many: at least one, unless the piece is
    /// empty. After that the sink is not finished. A write that failed has written none, and is counted.
    fn write(&mut self, piece: &[u8]) -> Result<usize, Failed>
        ensures fits { IfOk result (λ n. n ≤ length piece.now) }
        ensures progress { IfOk result (λ n. 0 < length piece.now → 0 < n) }
        ensures added { IfOk result (λ n. Appends (written self.old) (written self.new) (take n piece.now)) }
        ensures pending { OnOk result (finished self.new → ⊥) }
        ensures kept { OnErr result (Keeps (written self.old) (written self.new)) }
        ensures counted { faults self.old ≤ faults self.new }
        ensures fault { OnErr result (Rose (faults self.old) (faults self.new)) };

    /// Brings what was written to where it belongs; it writes nothing more itself.
    fn finish(&mut self) -> Result<(), Failed>
        ensures finished { OnOk result (finished self.new) }
        ensures kept { Keeps (written self.old) (written self.new) }
        ensures counted { faults self.old ≤ faults self.new }
        ensures fault { OnErr result (Rose (faults self.old) (faults self.new)) };
}
