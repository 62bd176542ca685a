//! Reads a serial script of the machine and the queues of a journal.
ghost use Rattle.std.specs.Prelude.{◌≡◌};
ghost use Rattle.text_codec.specs.Formats.{Says};
ghost use Rattle.continued_text.specs.Reading as states;
ghost use Rattle.continued_text.specs.MatchingLaws.{reads_matching};

use crate::Continued;
use crate::configs::{has_all_queues, is_begun};
use drmaa_model::Config;
use journal_text::Journal;
use script_text::{Mode, Reader};
use std::alloc::Global;
use text_codec::Unread;
use text_lines::LineReader;

/// A journal, and what was read so far of a script of its machine and queues, without the lines that are skipped.
#[derive(Drop)]
pub struct MatchingReader {
    /// What the script goes on from.
    pub journal: Journal,
    /// What was read of the script.
    pub reader: Reader,
}

/// A script behind this journal of which no line was read.
pub(crate) fn start_behind(journal: Journal) -> MatchingReader
    ensures { result ≡ states.start_behind journal }
{
    MatchingReader {
        journal,
        reader: Reader::Start { mode: Mode::Serial },
    }
}

/// Whether a block may follow, or the end: no queue of the machine is missing.
fn is_full(config: &Config, reader: &Reader) -> bool
    ensures { result ≡ states.is_full config.now reader.now }
{
    match reader {
        Reader::Queueing { script, .. } => has_all_queues(&script.get().config, config),
        _ => true,
    }
}

/// Whether what was read may become a script of this machine and its queues. `full` says whether a block may stand there.
fn fits(config: &Config, full: bool, reader: &Reader) -> bool
    ensures { result ≡ states.fits config.now full reader.now }
{
    match reader {
        Reader::Queueing { script, .. } => is_begun(&script.get().config, config),
        _ => full,
    }
}

/// The journal with what was read of the script, where this fits.
fn matched(journal: Journal, full: bool, reader: Reader) -> Result<MatchingReader, Unread>
    ensures { Says (states.matched journal full reader) result }
{
    if fits(&journal.config, full, &reader) {
        Ok(MatchingReader { journal, reader })
    } else {
        drop(reader);
        drop(journal);
        Err(Unread::Unspelled)
    }
}

/// The journal with the script that was read, where the text may end.
fn ended(journal: Journal, reader: Reader) -> Option<Continued>
    ensures { result ≡ states.ended journal reader }
{
    match reader.ends() {
        Some(script) => Some(Continued { journal, script }),
        None => {
            drop(journal);
            None
        }
    }
}

impl LineReader for MatchingReader {
    type Read = Continued;

    ghost stepping = { states.matching };

    ghost reads = { reads_matching };

    fn next(self, alloc: Global, line: &[u8]) -> Result<MatchingReader, Unread> {
        let MatchingReader { journal, reader } = self;
        let full = is_full(&journal.config, &reader);
        match reader.next(alloc, line) {
            Ok(reader) => matched(journal, full, reader),
            Err(fault) => {
                drop(journal);
                Err(fault)
            }
        }
    }

    fn ends(self) -> Option<Continued> {
        let MatchingReader { journal, reader } = self;
        if is_full(&journal.config, &reader) {
            ended(journal, reader)
        } else {
            drop(reader);
            drop(journal);
            None
        }
    }
}
