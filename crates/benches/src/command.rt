//! What the program's words ask for, and how it tells what became of that.
use std::process::ExitCode;
use std::{env, io};

/// The exit code of words that it does not know.
const UNKNOWN_WORDS: u8 = 2;

/// The words behind the program's name.
pub fn words_of_program(rt: &HostRuntime) -> io::Result<Vec<String>> {
    let mut words = Vec::new(rt.alloc());
    for word in env::args(rt)?.skip(1) {
        words.push(word)?;
    }
    Ok(words)
}

/// The number that is the only word.
pub fn only_number(words: &[String]) -> Option<usize> {
    let [word] = words else {
        return None;
    };
    word.as_str().parse().ok()
}

/// What is measured.
#[derive(Clone, Copy)]
pub enum Subject {
    Memory,
    Parts,
    Threads,
}

impl Subject {
    /// The one that the program's first word names.
    pub fn of_word(word: &String) -> Option<Subject> {
        match word.as_str() {
            "memory" => Some(Subject::Memory),
            "parts" => Some(Subject::Parts),
            "threads" => Some(Subject::Threads),
            _ => None,
        }
    }
}

/// How a measure ended.
#[derive(Clone, Copy)]
pub enum Ending {
    /// All that was asked for was done.
    Done,
    /// Something was not.
    Undone,
    /// Nothing was begun, for the words are none that it knows.
    UnknownWords,
}

impl Ending {
    /// That of a measure which has done all, or not.
    pub fn of(done: bool) -> Ending {
        if done { Ending::Done } else { Ending::Undone }
    }

    /// The program's status. Where the words are unknown, those that it knows are printed to standard error.
    pub fn told(self, rt: HostRuntime) -> io::Result<ExitCode> {
        match self {
            Ending::Done => Ok(ExitCode::SUCCESS),
            Ending::Undone => Ok(ExitCode::FAILURE),
            Ending::UnknownWords => {
                eprintln!(rt;
                    "usage: benches parts COUNT, threads COUNT, or memory journal or hub"
                )?;
                Ok(ExitCode::from(UNKNOWN_WORDS))
            }
        }
    }
}
