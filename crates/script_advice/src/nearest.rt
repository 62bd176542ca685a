//! The nearest known word.
use crate::showing::Wrong;
use crate::words::{Among, count_of, word_at};
use std::alloc::{AllocError, Global};
use strsim::levenshtein;

/// A word that differs from a known one in more places is not near it.
const MOST_EDITS: usize = 2;

/// A word that is longer is near to none.
const LONGEST: usize = 40;

/// The first of the nearest of some known words, where one is near, and in how many places it differs; else more places than a
/// near word has.
#[derive(Clone, Copy)]
struct Near {
    known: Option<&'static str>,
    edits: usize,
}

impl Near {
    /// With one known word more, where there is one.
    fn with(
        self,
        alloc: Global,
        word: &str,
        known: Option<&'static str>,
    ) -> Result<Near, AllocError> {
        let Some(other) = known else {
            return Ok(self);
        };
        let edits = levenshtein(alloc, word, other)?;
        if edits < self.edits {
            Ok(Near { known, edits })
        } else {
            Ok(self)
        }
    }
}

/// The word that ends a block, where one is open.
fn end_of(among: Among) -> Option<&'static str> {
    match among {
        Among::Heads => None,
        Among::JobFields | Among::ReservationFields | Among::Lines => Some("end"),
    }
}

/// The first of the nearest words that may stand there, where it differs in at most two places.
fn nearest(alloc: Global, among: Among, word: &str) -> Result<Option<&'static str>, AllocError> {
    let mut near = Near {
        known: None,
        edits: MOST_EDITS + 1,
    };
    for place in 0..count_of(among) {
        near = near.with(alloc, word, word_at(among, place))?;
    }
    let near = near.with(alloc, word, end_of(among))?;
    Ok(near.known)
}

/// The nearest word to one that is not longer than words are.
fn near_to(alloc: Global, among: Among, word: &str) -> Result<Option<&'static str>, AllocError> {
    if word.len() > LONGEST {
        return Ok(None);
    }
    nearest(alloc, among, word)
}

/// What is wrong with a word that may not stand there.
pub(crate) fn unknown(alloc: Global, among: Among, word: &str) -> Wrong {
    match near_to(alloc, among, word) {
        Ok(Some(near)) => Wrong::of_written(
            alloc,
            word,
            format!(in alloc; " may not stand here; the nearest known word is `{near}`"),
        ),
        Ok(None) => Wrong::of(alloc, word, " may not stand here"),
        Err(_) => Wrong::OutOfMemory,
    }
}
