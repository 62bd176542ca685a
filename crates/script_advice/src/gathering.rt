//! Names that are gathered from the lines of a script.
ghost use Rattle.std.specs.Prelude.{◌≡◌, ◌+◌, ◌<◌, ◌∷◌, ◌++◌, [], length, drop, OnOk, IfOk};
ghost use Rattle.std.specs.List.{flat_map};
ghost use Rattle.std.specs.Map.{lookup};
ghost use Rattle.std.specs.Str.{bytes_eq};
ghost use Rattle.script_lines.specs.declared.lines.Line.{Line};
ghost use Rattle.script_text.specs.Names.{is_there};
ghost use Rattle.script_text.specs.Follows.{lines_of};
ghost use Rattle.script_advice.specs.NameSets.{Extends};
ghost use Rattle.script_advice.specs.Roles as roles;
ghost use Rattle.script_advice.specs.Warnings as amiss;

use script_lines::{Line, Name, Ref};
use script_text::{Block, Keyed, Script};
use std::alloc::{AllocError, Global};

/// Names, each once.
pub(crate) type NameSet = Keyed<()>;

/// For what lines name jobs.
#[derive(Clone, Copy)]
pub enum Sort {
    /// They are waited for, or reaped.
    Awaited,
    /// They are released or terminated.
    LetGo,
    /// They are started as held.
    Held,
}

/// Whether a name is in the set.
pub(crate) fn is_in(names: &NameSet, name: &Name) -> bool
    ensures { result ≡ is_there names.now name.now }
{
    names.find(name).is_some()
}

/// Puts a name into the set.
#[tactic(auto, using(crate::specs::NameSetLaws::extends_again, crate::specs::NameSetLaws::extends_new, script_text::specs::NameLaws::not_there))]
fn insert(names: &mut NameSet, name: &Name) -> Result<(), AllocError>
    ensures { OnOk result (Extends names.old names.new (name.now ∷ [])) }
{
    if is_in(&*names, name) {
        return Ok(());
    }
    let name = name.clone()?;
    names.add(name, ())
}

/// Puts the name of a reference into the set.
#[tactic(auto, using(crate::specs::NameSetLaws::extends_none))]
fn insert_named(names: &mut NameSet, reference: &Ref) -> Result<(), AllocError>
    ensures { OnOk result (Extends names.old names.new (roles.named reference.now)) }
{
    match reference {
        Ref::Bound(name) => insert(names, name),
        Ref::Member { array, .. } => insert(names, array),
        Ref::Number(_) => Ok(()),
    }
}

/// Puts the names of references into the set.
fn insert_all(names: &mut NameSet, references: &[Ref]) -> Result<(), AllocError>
    ensures { OnOk result (Extends names.old names.new (flat_map roles.named references.now)) }
{
    for reference in references {
        insert_named(names, reference)?;
    }
    Ok(())
}

/// Puts the names of jobs into the set that a line waits for or reaps.
#[tactic(auto, using(crate::specs::NameSetLaws::extends_none))]
fn insert_awaited(names: &mut NameSet, line: &Line) -> Result<(), AllocError>
    ensures { OnOk result (Extends names.old names.new (roles.awaited (roles.role line.now))) }
{
    match line {
        Line::WaitStarted { jobs, .. } | Line::WaitTerminated { jobs, .. } => {
            insert_all(names, jobs.as_slice())
        }
        Line::Reap { job, .. } => insert_named(names, job),
        Line::ReapArray { array, .. } => insert_named(names, array),
        _ => Ok(()),
    }
}

/// Puts the names of jobs into the set that a line lets go.
#[tactic(auto, using(crate::specs::NameSetLaws::extends_none))]
fn insert_let_go(names: &mut NameSet, line: &Line) -> Result<(), AllocError>
    ensures { OnOk result (Extends names.old names.new (roles.let_go (roles.role line.now))) }
{
    match line {
        Line::Release { job, .. } | Line::Terminate { job, .. } => insert_named(names, job),
        Line::ReleaseArray { array, .. } | Line::TerminateArray { array, .. } => {
            insert_named(names, array)
        }
        _ => Ok(()),
    }
}

/// Whether jobs of the template with this name are submitted as held, and no deadline ends them.
fn is_held(script: &Script, template: &Name) -> bool
    ensures { result ≡ amiss.holds (lookup (bytes_eq template.now) script.now.jobs) }
{
    match script.jobs.find(template) {
        Some(template) => {
            let template = template.get();
            template.submit_as_hold && template.deadline_time.is_none()
        }
        None => false,
    }
}

/// Puts the name into the set, where jobs of this template are submitted as held.
#[tactic(auto, using(crate::specs::NameSetLaws::extends_none))]
fn insert_if_held(
    script: &Script,
    names: &mut NameSet,
    name: &Name,
    template: &Name,
) -> Result<(), AllocError>
    ensures { OnOk result (Extends names.old names.new (amiss.held script.now (roles.Starts name.now template.now))) }
{
    if is_held(script, template) {
        insert(names, name)
    } else {
        Ok(())
    }
}

/// Puts the names of jobs into the set that a line starts as held.
#[tactic(auto, using(crate::specs::NameSetLaws::extends_none))]
fn insert_held(script: &Script, names: &mut NameSet, line: &Line) -> Result<(), AllocError>
    ensures { OnOk result (Extends names.old names.new (amiss.held script.now (roles.role line.now))) }
{
    match line {
        Line::Run { name, template, .. } | Line::Bulk { name, template, .. } => {
            insert_if_held(script, names, name, template)
        }
        _ => Ok(()),
    }
}

/// Puts the names into the set that a line has of a sort.
pub(crate) fn insert_at(
    sort: Sort,
    script: &Script,
    names: &mut NameSet,
    line: &Line,
) -> Result<(), AllocError>
    ensures { OnOk result (Extends names.old names.new (amiss.names_at sort script.now line.now)) }
{
    match sort {
        Sort::Awaited => insert_awaited(names, line),
        Sort::LetGo => insert_let_go(names, line),
        Sort::Held => insert_held(script, names, line),
    }
}

/// Puts the names into the set that the line at a place has of a sort.
fn insert_of(
    sort: Sort,
    script: &Script,
    names: &mut NameSet,
    block: &Block,
    place: usize,
) -> Result<(), AllocError>
    requires { place < length block.now }
    ensures { OnOk result ((line : Line) × (drop place block.now ≡ line ∷ drop (place + 1) block.now) × Extends names.old names.new (amiss.names_at sort script.now line)) }
{
    let line = block.line(place)?;
    let put = insert_at(sort, script, names, &line);
    drop(line);
    put
}

/// Puts the names into the set that lines have of a sort.
fn insert_in(
    sort: Sort,
    script: &Script,
    names: &mut NameSet,
    block: &Block,
) -> Result<(), AllocError>
    ensures { OnOk result (Extends names.old names.new (amiss.names_in sort script.now block.now)) }
{
    for i in 0..block.len() {
        insert_of(sort, script, names, block, i)?;
    }
    Ok(())
}

/// Puts the names into the set that the lines of blocks have of a sort.
fn insert_of_all(
    sort: Sort,
    script: &Script,
    names: &mut NameSet,
    blocks: &[Block],
) -> Result<(), AllocError>
    ensures { OnOk result (Extends names.old names.new (amiss.names_of_all sort script.now blocks.now)) }
{
    for block in blocks {
        insert_in(sort, script, names, block)?;
    }
    Ok(())
}

/// The names that lines have of a sort.
pub(crate) fn names_in(
    alloc: Global,
    sort: Sort,
    script: &Script,
    block: &Block,
) -> Result<NameSet, AllocError>
    ensures { IfOk result (λ names. Extends [] names (amiss.names_in sort script.now block.now)) }
{
    let mut names = Keyed::new(alloc);
    insert_in(sort, script, &mut names, block)?;
    Ok(names)
}

/// The names that the lines of the setup block have of a sort.
#[tactic(auto, using(crate::specs::NameSetLaws::extends_none))]
pub(crate) fn names_in_setup(
    alloc: Global,
    sort: Sort,
    script: &Script,
) -> Result<NameSet, AllocError>
    ensures { IfOk result (λ names. Extends [] names (amiss.names_in sort script.now (lines_of script.now.setup))) }
{
    match &script.setup {
        Some(block) => names_in(alloc, sort, script, block),
        None => Ok(Keyed::new(alloc)),
    }
}

/// The names that all lines of a script have of a sort.
#[tactic(auto, using(crate::specs::NameSetLaws::extends_twice))]
pub(crate) fn names_anywhere(
    alloc: Global,
    sort: Sort,
    script: &Script,
) -> Result<NameSet, AllocError>
    ensures { IfOk result (λ names. Extends [] names (amiss.names_anywhere sort script.now)) }
{
    let mut names = names_in_setup(alloc, sort, script)?;
    insert_of_all(sort, script, &mut names, script.clients.as_slice())?;
    Ok(names)
}
