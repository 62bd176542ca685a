//! Calls of the libraries that no word of the program reaches, for a run in which one allocation is refused: each is made once more
//! where memory was wanting.
mod hub;
mod journal;

use crate::command::Ending;
use std::io;

/// Makes the calls that the word names, and prints what each answers.
pub fn measure(rt: HostRuntime, words: &[String]) -> io::Result<Ending> {
    let [word] = words else {
        return Ok(Ending::UnknownWords);
    };
    match word.as_str() {
        "journal" => journal::measure(rt),
        "hub" => hub::measure(rt),
        _ => Ok(Ending::UnknownWords),
    }
}
