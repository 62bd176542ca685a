//! How long the text of a template is, and which of its texts are in form.
ghost use Rattle.std.specs.Prelude.{◌≡◌, ◌≤◌, ◌-◌, nat_lt, sum_by, SomeIff};
ghost use Rattle.job_template.specs.Texts as form;

use crate::JobTemplate;
use drmaa_types::{LimitList, PairList, Text, TextList};

/// The most bytes of a template's text, each text counted with one byte more.
const MOST_TEXT: usize = 65_536;

/// The most bytes of a name.
const MOST_NAME: usize = 255;

/// How many bytes a job template's text has, each text counted with one byte more. None exactly where it passes the
/// limit of 65,536.
pub fn text_length(t: &JobTemplate) -> Option<u32>
    ensures { SomeIff result (form.text_length t.now ≤ form.most_text) (form.text_length t.now) }
{
    let room = without_template(MOST_TEXT, t)?;
    Some((MOST_TEXT - room) as u32)
}

/// The room that the text of a job template leaves, each text counted with one byte more. None exactly where it needs more.
pub fn without_template(room: usize, t: &JobTemplate) -> Option<usize>
    ensures { SomeIff result (form.text_length t.now ≤ room) (room - form.text_length t.now) }
{
    let room = room.checked_sub(text_size(&t.remote_command))?;
    let room = without_texts(room, &t.args)?;
    let room = without_pairs(room, &t.job_environment)?;
    let room = without_options(room, t)?;
    without_limits(room, &t.resource_limits)
}

/// The room that the arguments leave. None exactly where they need more.
fn without_texts(room: usize, texts: &TextList) -> Option<usize>
    ensures { SomeIff result (sum_by form.text_size texts.now ≤ room) (room - sum_by form.text_size texts.now) }
{
    let mut room = room;
    for text in texts.as_slice() {
        room = room.checked_sub(text_size(text))?;
    }
    Some(room)
}

/// The room that the environment leaves. None exactly where it needs more.
fn without_pairs(room: usize, pairs: &PairList) -> Option<usize>
    ensures { SomeIff result (sum_by form.pair_size pairs.now ≤ room) (room - sum_by form.pair_size pairs.now) }
{
    let mut room = room;
    for pair in pairs.as_slice() {
        let left = room.checked_sub(text_size(&pair.name))?;
        room = left.checked_sub(text_size(&pair.value))?;
    }
    Some(room)
}

/// The room that the names of the limits leave. None exactly where they need more.
fn without_limits(room: usize, limits: &LimitList) -> Option<usize>
    ensures { SomeIff result (sum_by form.limit_size limits.now ≤ room) (room - sum_by form.limit_size limits.now) }
{
    let mut room = room;
    for limit in limits.as_slice() {
        room = room.checked_sub(text_size(&limit.name))?;
    }
    Some(room)
}

/// The room that the optional texts leave. None exactly where they need more.
fn without_options(room: usize, t: &JobTemplate) -> Option<usize>
    ensures { SomeIff result (form.options_size t.now ≤ room) (room - form.options_size t.now) }
{
    let room = room.checked_sub(set_size(&t.working_directory))?;
    let room = room.checked_sub(set_size(&t.job_name))?;
    let room = room.checked_sub(set_size(&t.input_path))?;
    let room = room.checked_sub(set_size(&t.output_path))?;
    let room = room.checked_sub(set_size(&t.error_path))?;
    room.checked_sub(set_size(&t.queue_name))
}

/// How much a text counts: its bytes and one more.
fn text_size(text: &Text) -> usize
    ensures { result ≡ form.text_size text.now }
{
    text.as_str().len() + 1
}

/// How much an optional text counts: nothing where it is unset.
fn set_size(text: &Option<Text>) -> usize
    ensures { result ≡ form.set_size text.now }
{
    match text {
        Some(text) => text_size(text),
        None => 0,
    }
}

/// Whether the one text of a template passes the limit.
pub fn is_too_long(text: &Option<Text>) -> bool
    ensures { result ≡ nat_lt form.most_text (form.set_size text.now) }
{
    set_size(text) > MOST_TEXT
}

/// Whether a text has the character U+0000.
pub fn has_nul(text: &Text) -> bool
    ensures { result ≡ form.has_nul text.now }
{
    text.as_str().as_bytes().contains(&0)
}

/// Whether a command is empty, begins with `-`, or has U+0000.
pub fn is_bad_command(command: &Text) -> bool
    ensures { result ≡ form.is_bad_command command.now }
{
    match command.as_str().as_bytes().first() {
        Some(first) => *first == b'-' || has_nul(command),
        None => true,
    }
}

/// Whether a path is set, and is empty or has U+0000.
pub fn is_bad_path(path: &Option<Text>) -> bool
    ensures { result ≡ form.is_bad_path path.now }
{
    match path {
        Some(path) => path.as_str().is_empty() || has_nul(path),
        None => false,
    }
}

/// Whether a name is set, and is empty or too long.
pub fn is_bad_name(name: &Option<Text>) -> bool
    ensures { result ≡ form.is_bad_name name.now }
{
    match name {
        Some(name) => {
            let name = name.as_str();
            name.is_empty() || name.len() > MOST_NAME
        }
        None => false,
    }
}
