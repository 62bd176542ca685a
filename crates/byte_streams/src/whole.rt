//! Reading a source to its end, or to a limit, and writing all of a piece to a sink.
ghost use Rattle.std.specs.Prelude.{◌≡◌, ℕ, ◌<◌, ◌≤◌, List, vec_len, IsTrue, IfOk, OnOk, OnErr, IfSome, IsErrOf};
ghost use Rattle.std.specs.Io.KnownBytes.{Appends, IsAtEnd};
ghost use Rattle.drmaa_types.specs.Counts.{Rose};
ghost use Rattle.byte_streams.specs.Streams.{ReadsUpTo, AppendsFront};

use crate::{Sink, Source};
use drmaa_types::Failed;
use std::alloc::{AllocError, Global};

/// How many bytes one read asks for.
const PIECE: usize = 4096;

/// What was read of a source.
#[derive(Drop)]
pub struct Input {
    pub bytes: Vec<u8>,
    /// Whether these are all bytes of the source; else it had more than the limit allows.
    pub whole: bool,
}

/// Why a source was not read.
#[derive(Clone, Copy, Debug, PartialEq, Eq)]
pub enum ReadError {
    /// A read failed, and the source has counted the fault.
    Fault,
    OutOfMemory,
}

impl From<Failed> for ReadError {
    ghost use Rattle.byte_streams.specs.declared.whole.ReadError.{ReadError};
    ghost use Rattle.byte_streams.specs.declared.whole.ReadError.TheVariants.{Fault};

    ghost from_gives = { λ _ e. e ≡ Fault };

    fn from(_: Failed) -> ReadError
        ensures { result ≡ ReadError.Fault }
    {
        ReadError::Fault
    }
}

impl From<AllocError> for ReadError {
    ghost use Rattle.byte_streams.specs.declared.whole.ReadError.{ReadError};
    ghost use Rattle.byte_streams.specs.declared.whole.ReadError.TheVariants.{OutOfMemory};

    ghost from_gives = { λ _ e. e ≡ OutOfMemory };

    fn from(_: AllocError) -> ReadError
        ensures { result ≡ ReadError.OutOfMemory }
    {
        ReadError::OutOfMemory
    }
}

/// Reads all bytes of a source, at most `limit` of them: where it has more, the first `limit` bytes.
/// After an error some bytes may have been read, and they are lost.
pub fn read_all<S: Source>(alloc: Global, source: &mut S, limit: usize) -> Result<Input, ReadError>
    ensures read { IfOk result (λ input. IfSome (S.left source.old) (λ all. ReadsUpTo limit all input.bytes.items input.whole)) }
    ensures within { IfOk result (λ input. vec_len input.bytes ≤ limit) }
    ensures end { IfOk result (λ input. IsTrue input.whole → IsAtEnd (S.left source.new)) }
    ensures counted { S.faults source.old ≤ S.faults source.new }
    ensures fault { IsErrOf result ReadError.Fault → Rose (S.faults source.old) (S.faults source.new) }
{
    let mut bytes = Vec::new(alloc);
    let mut piece = [0; PIECE];
    loop {
        let count = source.read(&mut piece)?;
        if count == 0 {
            return Ok(Input { bytes, whole: true });
        }
        let room = limit - bytes.len();
        if count > room {
            bytes.extend_from_slice(&piece[..room])?;
            return Ok(Input {
                bytes,
                whole: false,
            });
        }
        bytes.extend_from_slice(&piece[..count])?;
    }
}

/// Writes all bytes to a sink, and finishes it. After an error the sink has some first part of them.
pub fn write_all<W: Sink>(sink: &mut W, bytes: &[u8]) -> Result<(), Failed>
    ensures ok { OnOk result (Appends (W.written sink.old) (W.written sink.new) bytes.now) }
    ensures finished { OnOk result (W.finished sink.new) }
    ensures err { OnErr result (AppendsFront (W.written sink.old) (W.written sink.new) bytes.now) }
    ensures counted { W.faults sink.old ≤ W.faults sink.new }
    ensures fault { OnErr result (Rose (W.faults sink.old) (W.faults sink.new)) }
{
    let mut done = 0;
    while done < bytes.len() {
        done += sink.write(&bytes[done..])?;
    }
    sink.finish()
}
