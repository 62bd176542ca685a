//! A source and a sink over a reader and a writer of the standard library, as standard input and output.
ghost use Rattle.std.specs.Prelude.{◌≡◌, true, false, ◌<◌, ◌≤◌, length, take, IfOk, OnOk, OnErr};
ghost use Rattle.std.specs.Io.KnownBytes.{Keeps, Appends, Consumes, IsAtEnd};
ghost use Rattle.drmaa_types.specs.Readings.{counted_on};
ghost use Rattle.drmaa_types.specs.Counts.{Rose};

use crate::{Sink, Source};
use drmaa_types::Failed;
use std::io::{Read, Write};
use std::marker::Model;

/// A reader that counts its faults, as `StdSource::new(rt.stdin())`. It tells contracts what the reader tells;
/// standard input tells nothing.
#[derive(Drop)]
pub struct StdSource<R> {
    reader: R,
    faults: u64,
}

impl<R> Model for StdSource<R> {
    ghost use Rattle.byte_streams.specs.Adapters.{Adapted};

    ghost Value = { Adapted R };

    ghost view = { λ s. record { inner = s.reader; faults = s.faults } };
}

impl<R> StdSource<R> {
    /// A source over this reader, without a fault so far.
    pub fn new(reader: R) -> StdSource<R>
        ensures { result ≡ record { inner = reader; faults = 0 } }
    {
        StdSource { reader, faults: 0 }
    }
}

impl<R: Read> Source for StdSource<R> {
    ghost faults = { λ s. s.faults };

    ghost left = { λ s. R.remaining s.inner };

    /// One read of the reader.
    fn read(&mut self, into: &mut [u8]) -> Result<usize, Failed>
        ensures fits { IfOk result (λ n. n ≤ length into.new) }
        ensures taken { IfOk result (λ n. Consumes (R.remaining self.old.inner) (R.remaining self.new.inner) (take n into.new)) }
        ensures end { IfOk result (λ n. n ≡ 0 → 0 < length into.new → IsAtEnd (R.remaining self.new.inner)) }
        ensures kept { OnErr result (Keeps (R.remaining self.old.inner) (R.remaining self.new.inner)) }
        ensures counted { self.old.faults ≤ self.new.faults }
        ensures fault { OnErr result (Rose self.old.faults self.new.faults) }
        ensures ok { OnOk result (self.new.faults ≡ self.old.faults) }
        ensures err { OnErr result (self.new.faults ≡ counted_on self.old.faults) }
    {
        match self.reader.read(into) {
            Ok(count) => Ok(count),
            Err(_) => {
                self.faults = self.faults.saturating_add(1);
                Err(Failed)
            }
        }
    }
}

/// A writer that counts its faults, as `StdSink::new(rt.stdout())`. It tells contracts what the writer tells;
/// standard output tells nothing.
#[derive(Drop)]
pub struct StdSink<W> {
    writer: W,
    faults: u64,
    finished: bool,
}

impl<W> Model for StdSink<W> {
    ghost use Rattle.byte_streams.specs.Adapters.{AdaptedSink};

    ghost Value = { AdaptedSink W };

    ghost view = { λ s. record { inner = s.writer; faults = s.faults; finished = s.finished } };
}

impl<W> StdSink<W> {
    /// A sink over this writer, without a fault so far, and not finished.
    pub fn new(writer: W) -> StdSink<W>
        ensures { result ≡ record { inner = writer; faults = 0; finished = false } }
    {
        StdSink {
            writer,
            faults: 0,
            finished: false,
        }
    }
}

impl<W: Write> Sink for StdSink<W> {
    ghost use Rattle.std.specs.Prelude.{◌≡◌, true};

    ghost faults = { λ s. s.faults };

    ghost written = { λ s. W.contents s.inner };

    ghost finished = { λ s. s.finished ≡ true };

    /// One write of the writer. One that took no byte of a piece that has some is a fault.
    fn write(&mut self, piece: &[u8]) -> Result<usize, Failed>
        ensures fits { IfOk result (λ n. n ≤ length piece.now) }
        ensures progress { IfOk result (λ n. 0 < length piece.now → 0 < n) }
        ensures added { IfOk result (λ n. Appends (W.contents self.old.inner) (W.contents self.new.inner) (take n piece.now)) }
        ensures pending { OnOk result (self.new.finished ≡ true → ⊥) }
        ensures kept { OnErr result (Keeps (W.contents self.old.inner) (W.contents self.new.inner)) }
        ensures counted { self.old.faults ≤ self.new.faults }
        ensures fault { OnErr result (Rose self.old.faults self.new.faults) }
        ensures ok { OnOk result (self.new.faults ≡ self.old.faults) }
        ensures err { OnErr result (self.new.faults ≡ counted_on self.old.faults) }
        ensures same { OnErr result (self.new.finished ≡ self.old.finished) }
    {
        match self.writer.write(piece) {
            Ok(count) if count > 0 || piece.is_empty() => {
                self.finished = false;
                Ok(count)
            }
            _ => {
                self.faults = self.faults.saturating_add(1);
                Err(Failed)
            }
        }
    }

    /// Flushes the writer.
    fn finish(&mut self) -> Result<(), Failed>
        ensures finished { OnOk result (self.new.finished ≡ true) }
        ensures kept { Keeps (W.contents self.old.inner) (W.contents self.new.inner) }
        ensures counted { self.old.faults ≤ self.new.faults }
        ensures fault { OnErr result (Rose self.old.faults self.new.faults) }
        ensures ok { OnOk result (self.new.faults ≡ self.old.faults) }
        ensures err { OnErr result (self.new.faults ≡ counted_on self.old.faults) }
        ensures same { OnErr result (self.new.finished ≡ self.old.finished) }
    {
        match self.writer.flush() {
            Ok(()) => {
                self.finished = true;
                Ok(())
            }
            Err(_) => {
                self.faults = self.faults.saturating_add(1);
                Err(Failed)
            }
        }
    }
}
