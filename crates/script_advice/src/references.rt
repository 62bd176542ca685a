//! Names: of what is bound, and of what is not.
use crate::items::Item;
use crate::showing::{Checked, Wrong, shown, wrong_unless};
use drmaa_types::Text;
use script_lines::Name;
use script_text::{Block, Kind, Script};
use std::alloc::{AllocError, Global};
use text_codec::{is_name, number_of};

/// What a name stands for.
#[derive(Clone, Copy, PartialEq, Eq)]
enum Meaning {
    Bound(Kind),
    Template,
    ReservationTemplate,
    Nothing,
}

impl Meaning {
    /// What it is, in a sentence.
    fn words(self) -> &'static str {
        match self {
            Meaning::Bound(Kind::Session) => "a session",
            Meaning::Bound(Kind::Job) => "a job",
            Meaning::Bound(Kind::Array { .. }) => "an array",
            Meaning::Bound(Kind::Reservation) => "a reservation",
            Meaning::Template => "the template of a job",
            Meaning::ReservationTemplate => "the template of a reservation",
            Meaning::Nothing => "nothing",
        }
    }
}

/// What a line sees: the script as it was read before its block, and the lines of its block before it.
#[derive(Clone, Copy)]
pub(crate) struct Scope<'a> {
    pub(crate) script: Option<&'a Script>,
    pub(crate) block: Option<&'a Block>,
}

/// What a name is bound to by the lines of a block.
fn bound_in(block: Option<&Block>, name: &Name) -> Option<Kind> {
    block?.bound(name).copied()
}

/// What a name is bound to by the lines of the block, or else by those of the setup block.
fn bound_to(scope: &Scope, name: &Name) -> Option<Kind> {
    match bound_in(scope.block, name) {
        Some(kind) => Some(kind),
        None => bound_in(scope.script?.setup.as_ref(), name),
    }
}

/// What a name stands for as a template.
fn template_of(scope: &Scope, name: &Name) -> Meaning {
    match scope.script {
        Some(script) if script.jobs.find(name).is_some() => Meaning::Template,
        Some(script) if script.reservations.find(name).is_some() => Meaning::ReservationTemplate,
        _ => Meaning::Nothing,
    }
}

/// What a name stands for to a line, where lines bind it and as a template.
#[derive(Clone, Copy)]
struct Standing {
    bound: Option<Kind>,
    template: Meaning,
}

impl Standing {
    /// What it stands for, above all where lines bind it.
    fn as_bound(self) -> Meaning {
        match self.bound {
            Some(kind) => Meaning::Bound(kind),
            None => self.template,
        }
    }

    /// What it stands for, above all as a template.
    fn as_template(self) -> Meaning {
        match self.template {
            Meaning::Nothing => self.as_bound(),
            template => template,
        }
    }
}

/// What this text stands for, which is a name.
fn standing_of(alloc: Global, scope: &Scope, word: &str) -> Result<Standing, AllocError> {
    let name = Name::new(Text::of(alloc, word)?);
    Ok(Standing {
        bound: bound_to(scope, &name),
        template: template_of(scope, &name),
    })
}

/// What is wrong with a word that is no name.
fn no_name(alloc: Global, word: &str) -> Wrong {
    Wrong::of(
        alloc,
        word,
        " is no name: a small letter, and at most 31 small letters, digits or _ behind it",
    )
}

/// What is wrong with a name that means what it may not, where something is wanted.
fn other_meaning(alloc: Global, word: &str, meaning: Meaning, wanted: &str) -> Wrong {
    match meaning {
        Meaning::Nothing => Wrong::of_written(
            alloc,
            word,
            format!(in alloc;
                " is not bound by an earlier line that this one sees, and {wanted} is wanted"
            ),
        ),
        other => {
            let words = other.words();
            Wrong::of_written(
                alloc,
                word,
                format!(in alloc; " is {words}, and {wanted} is wanted"),
            )
        }
    }
}

/// What is said of a name that is taken.
fn taken_text(alloc: Global, word: &str, meaning: Meaning) -> Result<String, AllocError> {
    let written = shown(alloc, word)?;
    let words = meaning.words();
    format!(in alloc; "the name {written} is bound already: it is {words}")
}

/// What is wrong with a name that is taken.
fn taken(alloc: Global, word: &str, meaning: Meaning) -> Wrong {
    Wrong::written(taken_text(alloc, word, meaning))
}

/// Checks a name that a line binds.
fn check_new(alloc: Global, word: &str, standing: Standing) -> Checked {
    match standing.bound {
        Some(kind) => Err(taken(alloc, word, Meaning::Bound(kind))),
        None => Ok(()),
    }
}

/// Checks the name of a new template.
fn check_new_template(alloc: Global, word: &str, standing: Standing) -> Checked {
    match standing.template {
        Meaning::Nothing => Ok(()),
        other => Err(taken(alloc, word, other)),
    }
}

/// Checks the name of a template.
fn check_template(alloc: Global, word: &str, standing: Standing, meant: Meaning) -> Checked {
    if standing.template == meant {
        return Ok(());
    }
    Err(other_meaning(alloc, word, standing.as_template(), meant.words()))
}

/// What an item has to be.
fn wanted(item: Item) -> &'static str {
    match item {
        Item::Session => "a session",
        Item::Array => "an array",
        Item::Reservation => "a reservation",
        _ => "a job",
    }
}

/// Whether what a name is bound to is what an item has to be.
fn fits(item: Item, kind: Kind) -> bool {
    match kind {
        Kind::Session => matches!(item, Item::Session),
        Kind::Job => matches!(item, Item::Job),
        Kind::Array { .. } => matches!(item, Item::Array),
        Kind::Reservation => matches!(item, Item::Reservation),
    }
}

/// Checks the name of something that lines bind.
fn check_bound(alloc: Global, word: &str, standing: Standing, item: Item) -> Checked {
    match standing.bound {
        Some(kind) if fits(item, kind) => Ok(()),
        _ => Err(other_meaning(alloc, word, standing.as_bound(), wanted(item))),
    }
}

/// Checks a name, where it stands for this.
fn check_standing(alloc: Global, word: &str, standing: Standing, item: Item) -> Checked {
    match item {
        Item::Name => check_new(alloc, word, standing),
        Item::TemplateName => check_new_template(alloc, word, standing),
        Item::Template => check_template(alloc, word, standing, Meaning::Template),
        Item::ReservationTemplate => {
            check_template(alloc, word, standing, Meaning::ReservationTemplate)
        }
        _ => check_bound(alloc, word, standing, item),
    }
}

/// Checks a word that has to be a name.
fn check_word(alloc: Global, scope: &Scope, item: Item, word: &str) -> Checked {
    if !is_name(word.as_bytes()) {
        return Err(no_name(alloc, word));
    }
    match standing_of(alloc, scope, word) {
        Ok(standing) => check_standing(alloc, word, standing, item),
        Err(_) => Err(Wrong::OutOfMemory),
    }
}

/// Whether this is one of the indices.
fn is_index(begin: u32, end: u32, step: u32, index: u64) -> bool {
    let begin = u64::from(begin);
    if index < begin || index > u64::from(end) {
        return false;
    }
    match u64::from(step) {
        0 => index == begin,
        step => (index - begin) % step == 0,
    }
}

/// What is said of a word that is no index of an array.
fn indices_text(
    alloc: Global,
    array: &str,
    begin: u32,
    end: u32,
    step: u32,
) -> Result<String, AllocError> {
    let written = shown(alloc, array)?;
    format!(in alloc;
        " is no index of the array {written}, which has those from {begin} to {end} by {step}"
    )
}

/// Checks a reference to the job of an array, where the array's name stands for this.
fn check_index(alloc: Global, array: &str, standing: Standing, digits: &str) -> Checked {
    match standing.bound {
        Some(Kind::Array { begin, end, step }) => match number_of(digits.as_bytes()) {
            Some(index) if is_index(begin, end, step, index) => Ok(()),
            _ => Err(Wrong::of_written(
                alloc,
                digits,
                indices_text(alloc, array, begin, end, step),
            )),
        },
        _ => Err(other_meaning(alloc, array, standing.as_bound(), "an array")),
    }
}

/// Checks a reference to the job of an array.
fn check_member(alloc: Global, scope: &Scope, array: &str, digits: &str) -> Checked {
    if !is_name(array.as_bytes()) {
        return Err(no_name(alloc, array));
    }
    match standing_of(alloc, scope, array) {
        Ok(standing) => check_index(alloc, array, standing, digits),
        Err(_) => Err(Wrong::OutOfMemory),
    }
}

/// Checks a reference to a session, a job, an array or a reservation.
fn check_reference(alloc: Global, scope: &Scope, item: Item, word: &str) -> Checked {
    if let Some(digits) = word.strip_prefix('#') {
        let is_number = number_of(digits.as_bytes()).is_some();
        return wrong_unless(alloc, word, is_number, " is no number behind #");
    }
    match word.split_once('.') {
        Some((array, digits)) if matches!(item, Item::Job) => {
            check_member(alloc, scope, array, digits)
        }
        _ => check_word(alloc, scope, item, word),
    }
}

/// Checks an item that names something.
pub(crate) fn check_name(alloc: Global, scope: &Scope, item: Item, word: &str) -> Checked {
    match item {
        Item::Name | Item::TemplateName | Item::Template | Item::ReservationTemplate => {
            check_word(alloc, scope, item, word)
        }
        Item::Session | Item::Job | Item::Array | Item::Reservation => {
            check_reference(alloc, scope, item, word)
        }
        _ => Ok(()),
    }
}
