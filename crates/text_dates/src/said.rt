//! A moment in the spelling that a script chose.
ghost use Rattle.std.specs.Prelude.{◌≡◌, List, ℕ, Some, None};
ghost use Rattle.text_dates.specs.Said as said;
ghost use Rattle.text_dates.specs.SaidLaws as laws;

use crate::{DateTime, moment_of};
use drmaa_types::Moment;
use text_codec::{Cursor, Form, Unread};

/// A moment, and the date by which it was spelled.
#[derive(Clone, Copy, Debug, PartialEq, Eq)]
pub struct Said {
    /// The date, where it was spelled as one; else it was spelled as `@` and the number of seconds.
    pub dated: Option<DateTime>,
    /// The moment, in seconds.
    pub moment: Moment,
}

impl Form for Said {
    ghost form = { said.said };

    ghost laws = { laws.said_laws };

    #[tactic(auto, unfolding(crate::specs::Said::said, drmaa_types::specs::Moments::greatest, text_codec::specs::Formats::number, text_codec::specs::Formats::number_of))]
    fn read(cursor: &mut Cursor) -> Result<Said, Unread> {
        if cursor.skip(b"@") {
            let Some(moment) = Moment::new(cursor.u64()?) else {
                return Err(Unread::Unspelled);
            };
            return Ok(Said {
                dated: None,
                moment,
            });
        }
        let date = DateTime::read(cursor)?;
        match moment_of(&date) {
            Some(moment) => Ok(Said {
                dated: Some(date),
                moment,
            }),
            None => Err(Unread::Unspelled),
        }
    }
}
