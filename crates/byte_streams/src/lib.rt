//! Streams of bytes that count their faults: sources, sinks, and reading and writing them whole.
#![tactic(auto)]

mod memory;
mod standard;
mod streams;
mod whole;

pub use memory::{MemorySink, MemorySource};
pub use standard::{StdSink, StdSource};
pub use streams::{Sink, Source};
pub use whole::{Input, ReadError, read_all, write_all};
