//! What entries say that is large and often the same: job templates, and the words of launches. Each is kept once for entries
//! that stand close together; contracts see values, so that an entry stays the same.
ghost use Rattle.std.specs.Prelude.{◌≡◌};

use drmaa_model::{Call, Entry, Reply};
use drmaa_types::{Same, Shared, TextList};
use job_template::JobTemplate;

/// How many entries back from an entry the last template, or the last words of a launch, are looked for. Between one job's
/// submission or launch and the next stand a few entries for each slot at most times; where there are more, as in a long wait,
/// looking further would cost more at each entry than it saves.
const LOOK_BACK: usize = 16;

/// The template of the job or the array that a call submits.
fn template_of(call: &Call) -> Option<&Shared<JobTemplate>> {
    match call {
        Call::RunJob { template, .. } | Call::RunBulk { template, .. } => Some(template),
        _ => None,
    }
}

/// The words of the launch that a reply tells of.
fn words_of(reply: &Reply) -> Option<&Shared<TextList>> {
    match reply {
        Reply::Launch(launch) => Some(&launch.words),
        _ => None,
    }
}

/// The last template that one of the last of these entries has.
fn last_template(entries: &[Entry]) -> Option<&Shared<JobTemplate>> {
    let mut back = entries.iter().rev().take(LOOK_BACK);
    back.find_map(|entry| template_of(&entry.call))
}

/// The last words of a launch that one of the last of these entries has.
fn last_words(entries: &[Entry]) -> Option<&Shared<TextList>> {
    let mut back = entries.iter().rev().take(LOOK_BACK);
    back.find_map(|entry| words_of(&entry.reply))
}

/// Keeps a value as it is kept elsewhere, where it is the same there.
fn keep<T: Same + Drop>(value: &mut Shared<T>, kept: Option<&Shared<T>>)
    ensures { value.new ≡ value.old }
{
    if let Some(kept) = kept {
        value.keep_as(kept);
    }
}

/// Keeps the template of a call as the entries before it keep the last one, where it is the same.
fn share_template(call: &mut Call, before: &[Entry])
    ensures { call.new ≡ call.old }
{
    match call {
        Call::RunJob { template, .. } => keep(template, last_template(before)),
        Call::RunBulk { template, .. } => keep(template, last_template(before)),
        _ => {}
    }
}

/// Keeps the words of a launch as the entries before it keep the last ones, where they are the same.
fn share_words(reply: &mut Reply, before: &[Entry])
    ensures { reply.new ≡ reply.old }
{
    match reply {
        Reply::Launch(launch) => keep(&mut launch.words, last_words(before)),
        _ => {}
    }
}

/// Keeps the template and the words of an entry as the entries before it keep the last ones, where they are the same.
pub(crate) fn share(entry: &mut Entry, before: &[Entry])
    ensures { entry.new ≡ entry.old }
{
    share_template(&mut entry.call, before);
    share_words(&mut entry.reply, before);
}
