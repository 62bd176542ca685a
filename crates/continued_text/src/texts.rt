//! A journal, and the script that goes on behind it.
use journal_text::Journal;
use script_text::Script;

/// The greatest number of bytes of the whole text.
pub const WHOLE_LIMIT: usize = 268_435_456;

/// The greatest number of bytes of the script, which is what stands behind the journal's last line.
pub const SCRIPT_LIMIT: usize = 16_777_216;

/// A journal, and a serial script of the same machine and queues.
#[derive(Drop)]
pub struct Continued {
    pub journal: Journal,
    pub script: Script,
}
