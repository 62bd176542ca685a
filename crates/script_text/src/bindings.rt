//! What names are bound to, and what references stand for, by the lines behind those of the setup block.
ghost use Rattle.std.specs.Prelude.{◌≡◌, ◌++◌, is_some};
ghost use Rattle.std.specs.List.{list_all};
ghost use Rattle.script_text.specs.Names as names;
ghost use Rattle.script_text.specs.Follows as follows;

use crate::{Block, Keyed, Kind, Script};
use script_lines::{Apart, Name, Ref};

/// What a name is bound to by these lines, behind those of the setup block.
#[tactic(auto, using(crate::specs::NameLaws::bound_append))]
fn bound(setup: &Option<Block>, block: &Block, name: &Name) -> Option<Kind>
    ensures { result ≡ names.bound name.now (follows.lines_of setup.now ++ block.now) }
{
    match bound_in(setup, name) {
        Some(kind) => Some(kind),
        None => block.bound(name).copied(),
    }
}

/// What a name is bound to by the lines of the setup block.
fn bound_in(setup: &Option<Block>, name: &Name) -> Option<Kind>
    ensures { result ≡ names.bound name.now (follows.lines_of setup.now) }
{
    match setup {
        Some(block) => block.bound(name).copied(),
        None => None,
    }
}

/// Whether the lines of the setup block bind a name.
fn is_bound_in(setup: &Option<Block>, name: &Name) -> bool
    ensures { result ≡ is_some (names.bound name.now (follows.lines_of setup.now)) }
{
    match setup {
        Some(block) => block.bound(name).is_some(),
        None => false,
    }
}

/// Whether these lines bind a name, or those of the setup block.
#[tactic(auto, using(crate::specs::NameLaws::bound_append))]
pub(crate) fn is_bound(setup: &Option<Block>, block: &Block, name: &Name) -> bool
    ensures { result ≡ is_some (names.bound name.now (follows.lines_of setup.now ++ block.now)) }
{
    is_bound_in(setup, name) || block.bound(name).is_some()
}

/// Whether this is one of the indices.
fn is_index(begin: u32, end: u32, step: u32, index: u32) -> bool
    ensures { result ≡ names.is_index begin end step index }
{
    begin <= index
        && index <= end
        && if step == 0 {
            index == begin
        } else {
            (index - begin) % step == 0
        }
}

fn to_session(kind: Option<Kind>) -> bool
    ensures { result ≡ names.to_session kind }
{
    matches!(kind, Some(Kind::Session))
}

fn to_job(kind: Option<Kind>) -> bool
    ensures { result ≡ names.to_job kind }
{
    matches!(kind, Some(Kind::Job))
}

fn to_array(kind: Option<Kind>) -> bool
    ensures { result ≡ names.to_array kind }
{
    matches!(kind, Some(Kind::Array { .. }))
}

fn to_reservation(kind: Option<Kind>) -> bool
    ensures { result ≡ names.to_reservation kind }
{
    matches!(kind, Some(Kind::Reservation))
}

fn to_member(index: u32, kind: Option<Kind>) -> bool
    ensures { result ≡ names.to_member index kind }
{
    match kind {
        Some(Kind::Array { begin, end, step }) => is_index(begin, end, step, index),
        _ => false,
    }
}

/// Whether a reference is to a session.
pub(crate) fn is_session(script: &Script, block: &Block, reference: &Ref) -> bool
    ensures { result ≡ names.is_session (follows.lines_of script.now.setup ++ block.now) reference.now }
{
    match reference {
        Ref::Bound(name) => to_session(bound(&script.setup, block, name)),
        Ref::Member { .. } => false,
        Ref::Number(_) => true,
    }
}

/// Whether a reference is to an array.
pub(crate) fn is_array(script: &Script, block: &Block, reference: &Ref) -> bool
    ensures { result ≡ names.is_array (follows.lines_of script.now.setup ++ block.now) reference.now }
{
    match reference {
        Ref::Bound(name) => to_array(bound(&script.setup, block, name)),
        Ref::Member { .. } => false,
        Ref::Number(_) => true,
    }
}

/// Whether a reference is to a reservation.
pub(crate) fn is_reservation(script: &Script, block: &Block, reference: &Ref) -> bool
    ensures { result ≡ names.is_reservation (follows.lines_of script.now.setup ++ block.now) reference.now }
{
    match reference {
        Ref::Bound(name) => to_reservation(bound(&script.setup, block, name)),
        Ref::Member { .. } => false,
        Ref::Number(_) => true,
    }
}

/// Whether a reference is to a job.
pub(crate) fn is_job(script: &Script, block: &Block, reference: &Ref) -> bool
    ensures { result ≡ names.is_job (follows.lines_of script.now.setup ++ block.now) reference.now }
{
    match reference {
        Ref::Bound(name) => to_job(bound(&script.setup, block, name)),
        Ref::Member { array, index } => to_member(*index, bound(&script.setup, block, array)),
        Ref::Number(_) => true,
    }
}

/// Whether these references are to jobs.
pub(crate) fn are_jobs(script: &Script, block: &Block, references: &[Ref]) -> bool
    ensures { result ≡ list_all (names.is_job (follows.lines_of script.now.setup ++ block.now)) references.now }
{
    references
        .iter()
        .all(|reference| is_job(script, block, reference))
}

/// Whether there is no reference, or one to a job.
pub(crate) fn if_job(script: &Script, block: &Block, reference: &Option<Ref>) -> bool
    ensures { result ≡ names.if_some (names.is_job (follows.lines_of script.now.setup ++ block.now)) reference.now }
{
    match reference {
        Some(reference) => is_job(script, block, reference),
        None => true,
    }
}

/// Whether there is no reference, or one to a reservation.
pub(crate) fn if_reservation(script: &Script, block: &Block, reference: &Option<Ref>) -> bool
    ensures { result ≡ names.if_some (names.is_reservation (follows.lines_of script.now.setup ++ block.now)) reference.now }
{
    match reference {
        Some(reference) => is_reservation(script, block, reference),
        None => true,
    }
}

/// Whether there is no reference, or one to a reservation.
pub(crate) fn is_reserved(script: &Script, block: &Block, reference: &Option<Apart<Ref>>) -> bool
    ensures { result ≡ names.if_some (names.is_reservation (follows.lines_of script.now.setup ++ block.now)) reference.now }
{
    match reference {
        Some(reference) => is_reservation(script, block, reference.get()),
        None => true,
    }
}

/// Whether one of the templates has this name.
pub(crate) fn is_there<T: Drop>(templates: &Keyed<T>, name: &Name) -> bool
    ensures { result ≡ names.is_there templates.now name.now }
{
    templates.find(name).is_some()
}
