//! The calls of a client beside launcher and reaper, which work in another thread.
mod client;
mod crew;

use crate::command::{Ending, only_number};
use child_spawner::LocalSpawner;
use drmaa_types::Text;
use std::io;
use std::sync::Wait;
use std::thread::Threads;
use std::time::Clock as Pause;

/// Runs as many jobs as the word COUNT says, each of which is `true`, in the current folder, and prints for each how many nanoseconds
/// the client's call took by which it was submitted, one on a line.
pub fn measure<E: Threads + Wait + Pause + Sync>(
    threads: &E,
    rt: HostRuntime,
    words: &[String],
) -> io::Result<Ending> {
    let Some(count) = only_number(words) else {
        return Ok(Ending::UnknownWords);
    };
    let folder = Text::from_string(String::from_str(rt.alloc(), ".")?);
    let spawner = LocalSpawner::new(rt, folder);
    let Some(spent) = crew::run(threads, rt.alloc(), spawner, count) else {
        return Ok(Ending::Undone);
    };
    print_all(rt, spent.as_slice())?;
    Ok(Ending::Done)
}

// Prints the numbers, one on a line.
fn print_all(rt: HostRuntime, numbers: &[u64]) -> io::Result<()> {
    for number in numbers {
        println!(rt; "{number}")?;
    }
    Ok(())
}
