//! The work of a calendar with many bookings.
mod calendar_load;
mod way;

use crate::command::{Ending, only_number};
use std::io;
use way::Way;

/// Does the work with as many bookings as the word COUNT says, in both ways, and prints how long each piece took.
pub fn measure(rt: HostRuntime, words: &[String]) -> io::Result<Ending> {
    let Some(count) = count_of_words(words) else {
        return Ok(Ending::UnknownWords);
    };
    let mut done = true;
    for way in [Way::InOrder, Way::Scattered] {
        done &= calendar_load::measure(rt, count, way)?;
    }
    Ok(Ending::of(done))
}

// How many bookings, at least one.
fn count_of_words(words: &[String]) -> Option<u32> {
    let count = u32::try_from(only_number(words)?).ok()?;
    if count == 0 { None } else { Some(count) }
}
