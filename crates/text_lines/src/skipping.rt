//! A reader of texts with lines that are skipped: empty ones, and comments.
ghost use Rattle.std.specs.Prelude.{◌≡◌, IsTrue};
ghost use Rattle.text_lines.specs.Lines as lines;
ghost use Rattle.text_lines.specs.Skipping.{skipping};
ghost use Rattle.text_lines.specs.SkippingLaws.{reads_all};
ghost use Rattle.std.specs.Str.{is_utf8};

use crate::LineReader;
use std::alloc::Global;
use text_codec::Unread;

/// A reader that skips empty lines and lines that begin with `#`, of which it asks only that they are UTF-8.
#[derive(Drop)]
pub struct Skipping<R> {
    /// The reader of the other lines.
    pub reader: R,
}

/// Whether a line is skipped.
fn is_skipped(line: &[u8]) -> bool
    ensures { result ≡ lines.is_skipped line.now }
{
    match line.split_first() {
        Some((first, _)) => *first == b'#',
        None => true,
    }
}

/// Whether a line is UTF-8.
#[tactic(auto, using(crate::specs::SkippingLaws::no_utf8, crate::specs::SkippingLaws::yes_utf8))]
fn is_readable(line: &[u8]) -> bool
    ensures { result ≡ is_utf8 line.now }
{
    match std::str::from_utf8(line) {
        Ok(_) => true,
        Err(_) => false,
    }
}

impl<R: LineReader> LineReader for Skipping<R> {
    type Read = R::Read;

    ghost stepping = { skipping R.stepping };

    ghost reads = { reads_all R.stepping R.reads };

    fn next(self, alloc: Global, line: &[u8]) -> Result<Skipping<R>, Unread> {
        if is_skipped(line) {
            return if is_readable(line) {
                Ok(self)
            } else {
                Err(Unread::Unspelled)
            };
        }
        let reader = self.reader.next(alloc, line)?;
        Ok(Skipping { reader })
    }

    fn ends(self) -> Option<R::Read> {
        self.reader.ends()
    }
}
