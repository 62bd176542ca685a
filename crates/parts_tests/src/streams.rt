//! Reading up to a limit or to a fault, and adapters over what fails.
use byte_streams::{
    MemorySource, ReadError, Sink, Source, StdSink, StdSource, read_all, write_all,
};
use drmaa_types::{Bytes, Failed, PlaceList};
use std::alloc::Global;
use std::io;
use std::io::{Read, Write};

/// A source with so many bytes, one read of which fails. Where memory is wanting it has fewer, and then no test passes.
fn source(alloc: Global, count: usize, failing: u64) -> MemorySource {
    let mut bytes = Vec::new(alloc);
    for _ in 0..count {
        let _ = bytes.push(7);
    }
    let mut places = Vec::new(alloc);
    let _ = places.push(failing);
    MemorySource::new(Bytes::from_vec(bytes), PlaceList::from_vec(places))
}

/// How many bytes of a source are read up to a limit, and whether that is the whole; or why it is not read.
fn read(
    alloc: Global,
    source: &mut MemorySource,
    limit: usize,
) -> Result<(usize, bool), ReadError> {
    match read_all(alloc, source, limit) {
        Ok(input) => Ok((input.bytes.len(), input.whole)),
        Err(error) => Err(error),
    }
}

/// How many bytes a source has, which read fails, the limit, how many are read, and whether that is the whole.
type Row = (usize, u64, usize, Result<(usize, bool), ReadError>);

const READS: &[Row] = &[
    (0, 0, 0, Ok((0, true))),
    (1, 0, 0, Ok((0, false))),
    (130, 0, 130, Ok((130, true))),
    (130, 0, 129, Ok((129, false))),
    (9000, 0, 8192, Ok((8192, false))),
    (9000, 0, 10000, Ok((9000, true))),
    (130, 3, 1000, Err(ReadError::Fault)),
];

fn are_read(alloc: Global, rows: &[Row]) -> bool {
    for (count, failing, limit, wanted) in rows {
        if read(alloc, &mut source(alloc, *count, *failing), *limit) != *wanted {
            return false;
        }
    }
    true
}

#[test]
fn reads_all_up_to_the_limit_or_to_a_fault(rt: HostRuntime) {
    assert!(rt; are_read(rt.alloc(), READS));
}

/// A reader that gives one byte and fails then.
#[derive(Drop)]
struct Breaks {
    is_broken: bool,
}

impl Read for Breaks {
    fn read(&mut self, buf: &mut [u8]) -> io::Result<usize> {
        if self.is_broken || buf.is_empty() {
            return Err(io::Error::from(io::ErrorKind::BrokenPipe));
        }
        buf[0] = b'x';
        self.is_broken = true;
        Ok(1)
    }
}

/// A writer that takes all, and can't be flushed.
#[derive(Drop)]
struct Stuck;

impl Write for Stuck {
    fn write(&mut self, buf: &[u8]) -> io::Result<usize> {
        Ok(buf.len())
    }

    fn flush(&mut self) -> io::Result<()> {
        Err(io::Error::from(io::ErrorKind::BrokenPipe))
    }
}

/// What three reads of a source give.
fn three_reads<S: Source>(source: &mut S) -> [Result<usize, Failed>; 3] {
    let mut into = [0; 8];
    [
        source.read(&mut into),
        source.read(&mut into),
        source.read(&mut into),
    ]
}

/// What two writes of three bytes to a sink give.
fn two_writes<S: Sink>(sink: &mut S) -> [Result<usize, Failed>; 2] {
    [sink.write(b"abc"), sink.write(b"abc")]
}

#[test]
fn a_broken_reader_is_a_fault(rt: HostRuntime) {
    let told = three_reads(&mut StdSource::new(Breaks { is_broken: false }));
    assert!(rt; told == [Ok(1), Err(Failed), Err(Failed)]);
}

#[test]
fn a_full_or_stuck_writer_is_a_fault(rt: HostRuntime) {
    let told = two_writes(&mut StdSink::new([0; 2].as_mut_slice()));
    let whole = write_all(&mut StdSink::new(Stuck), b"abc");
    assert!(rt; told == [Ok(2), Err(Failed)] && whole == Err(Failed));
}
