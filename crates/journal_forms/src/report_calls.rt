//! Calls of the launcher and of the reaper.
ghost use Rattle.std.specs.Prelude.{◌≡◌};
ghost use Rattle.text_codec.specs.Formats.{Answers};
ghost use Rattle.text_forms.specs.Templates.{template, frame};
ghost use Rattle.journal_forms.specs.Calls as calls;
ghost use Rattle.journal_forms.specs.WordGroups as groups;
ghost use Rattle.text_codec.specs.declared.call_words.CallWord.TheVariants as word;

use crate::fields::{three, two};
use crate::word_groups::{LaunchedWord, SignalledWord};
use drmaa_model::Call;
use text_codec::{Cursor, Unread};

/// Reads a job and an attempt.
#[tactic(auto, unfolding(crate::specs::Calls::launched))]
pub(crate) fn launched_at(cursor: &mut Cursor, word: LaunchedWord) -> Result<Call, Unread>
    ensures { Answers (calls.call_arms template frame (groups.launched_word word)) cursor.old result cursor.new }
{
    let (job, attempt) = two(cursor)?;
    Ok(match word {
        LaunchedWord::Started => Call::Started { job, attempt },
        LaunchedWord::StartFailed => Call::StartFailed { job, attempt },
        LaunchedWord::ExitUnknown => Call::ExitUnknown { job, attempt },
    })
}

#[tactic(auto, unfolding(crate::specs::Calls::ended))]
pub(crate) fn exit_at(cursor: &mut Cursor) -> Result<Call, Unread>
    ensures { Answers (calls.call_arms template frame word.Exit) cursor.old result cursor.new }
{
    let (job, (attempt, exit)) = three(cursor)?;
    Ok(Call::Exited { job, attempt, exit })
}

/// Reads a job, an attempt and the kind of a signal.
#[tactic(auto, unfolding(crate::specs::Calls::signalled))]
pub(crate) fn signalled_at(cursor: &mut Cursor, word: SignalledWord) -> Result<Call, Unread>
    ensures { Answers (calls.call_arms template frame (groups.signalled_word word)) cursor.old result cursor.new }
{
    let (job, (attempt, kind)) = three(cursor)?;
    Ok(match word {
        SignalledWord::SignalDone => Call::SignalDone { job, attempt, kind },
        SignalledWord::SignalFailed => Call::SignalFailed { job, attempt, kind },
    })
}
