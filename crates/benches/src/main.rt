//! Measures what its first word names, and prints figures: `benches parts COUNT` or `benches threads COUNT`; or makes calls for a run in
//! which an allocation is refused: `benches memory journal` or `benches memory hub`. Without words it does nothing.
#![tactic(auto)]

mod command;
mod memory;
mod parts;
mod threads;
mod watch;

use command::{Ending, Subject, words_of_program};
use std::io;
use std::process::ExitCode;

fn main(rt: HostRuntime) -> io::Result<ExitCode> {
    let words = words_of_program(&rt)?;
    let [first, words @ ..] = words.as_slice() else {
        return Ok(ExitCode::SUCCESS);
    };
    let ending = match Subject::of_word(first) {
        Some(Subject::Memory) => memory::measure(rt, words),
        Some(Subject::Parts) => parts::measure(rt, words),
        Some(Subject::Threads) => threads::measure(&rt, rt, words),
        None => Ok(Ending::UnknownWords),
    };
    ending?.told(rt)
}
