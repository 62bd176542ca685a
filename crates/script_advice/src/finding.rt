//! Finds what may be amiss with a script, by single passes over its lines.
ghost use Rattle.std.specs.Prelude.{◌≡◌, ◌+◌, ◌<◌, ◌∷◌, ◌++◌, [], length, drop, IfOk, OnOk, if◌then◌else◌};
ghost use Rattle.std.specs.List.{list_all};
ghost use Rattle.script_lines.specs.declared.lines.Line.{Line};
ghost use Rattle.script_text.specs.Names.{is_there};
ghost use Rattle.script_text.specs.Follows.{lines_of};
ghost use Rattle.script_advice.specs.Holds.{stays_in, remains_in, AreHolds, AreSetupHolds, Passes};
ghost use Rattle.script_advice.specs.Roles.{role};
ghost use Rattle.script_advice.specs.Warnings as amiss;

use crate::gathering::{NameSet, Sort, insert_at, is_in, names_anywhere, names_in, names_in_setup};
use crate::warning_kinds::{Place, Warning, WarningList};
use drmaa_types::{ListOf, Timeout};
use script_lines::{Line, Name, Ref};
use script_text::{Block, Keyed, Script};
use std::alloc::{AllocError, Global};

/// Names of jobs that were started as held, and of those that were let go.
#[derive(Drop)]
pub struct Holds {
    pub held: NameSet,
    pub let_go: NameSet,
}

/// Adds a warning, unless the name of a job is in the set.
fn warn_unless(
    place: Place,
    awaited: &NameSet,
    name: &Name,
    found: &mut Vec<Warning>,
) -> Result<(), AllocError>
    ensures { OnOk result (found.new.items ≡ found.old.items ++ (if is_there awaited.now name.now then [] else Warning.Unwaited place name.now ∷ [])) }
{
    if is_in(awaited, name) {
        return Ok(());
    }
    let name = name.clone()?;
    found.push(Warning::Unwaited { place, name })?;
    Ok(())
}

/// Adds a warning where a line starts a job whose name is not in the set.
fn warn_unwaited_at(
    place: Place,
    awaited: &NameSet,
    line: &Line,
    found: &mut Vec<Warning>,
) -> Result<(), AllocError>
    ensures { OnOk result (found.new.items ≡ found.old.items ++ amiss.unwaited_at place (is_there awaited.now) (role line.now)) }
{
    match line {
        Line::Run { name, .. } | Line::Bulk { name, .. } => {
            warn_unless(place, awaited, name, found)
        }
        _ => Ok(()),
    }
}

/// Adds a warning where the line at a place starts a job whose name is not in the set.
fn warn_unwaited_in(
    at: Place,
    awaited: &NameSet,
    block: &Block,
    place: usize,
    found: &mut Vec<Warning>,
) -> Result<(), AllocError>
    requires { place < length block.now }
    ensures { OnOk result (found.new.items ++ amiss.unwaited at (is_there awaited.now) (drop (place + 1) block.now) ≡ found.old.items ++ amiss.unwaited at (is_there awaited.now) (drop place block.now)) }
{
    let line = block.line(place)?;
    let warned = warn_unwaited_at(at, awaited, &line, found);
    drop(line);
    warned
}

/// Adds a warning for each job that lines start, and whose name is not in the set.
fn warn_unwaited(
    place: Place,
    awaited: &NameSet,
    block: &Block,
    found: &mut Vec<Warning>,
) -> Result<(), AllocError>
    ensures { OnOk result (found.new.items ≡ found.old.items ++ amiss.unwaited place (is_there awaited.now) block.now) }
{
    for i in 0..block.len() {
        warn_unwaited_in(place, awaited, block, i, found)?;
    }
    Ok(())
}

/// Adds a warning for each job that lines of the setup block start, and whose name is not in the set.
fn warn_setup(
    script: &Script,
    awaited: &NameSet,
    found: &mut Vec<Warning>,
) -> Result<(), AllocError>
    ensures { OnOk result (found.new.items ≡ found.old.items ++ amiss.unwaited Place.Setup (is_there awaited.now) (lines_of script.now.setup)) }
{
    match &script.setup {
        Some(block) => warn_unwaited(Place::Setup, awaited, block, found),
        None => Ok(()),
    }
}

/// Whether a job was started as held, and was not let go.
fn remains(holds: &Holds, name: &Name) -> bool
    ensures { result ≡ remains_in holds.now name.now }
{
    is_in(&holds.held, name) && !is_in(&holds.let_go, name)
}

/// Whether a job stays held, by earlier lines or by the setup block.
fn stays(earlier: &Holds, of_setup: &Holds, name: &Name) -> bool
    ensures { result ≡ stays_in earlier.now of_setup.now name.now }
{
    remains(earlier, name) || remains(of_setup, name)
}

/// Whether a job that a reference names stays held.
fn is_stuck(earlier: &Holds, of_setup: &Holds, reference: &Ref) -> bool
    ensures { result ≡ amiss.passes (stays_in earlier.now of_setup.now) reference.now }
{
    match reference {
        Ref::Bound(name) => stays(earlier, of_setup, name),
        Ref::Member { array, .. } => stays(earlier, of_setup, array),
        Ref::Number(_) => false,
    }
}

/// Whether all jobs stay held.
fn are_stuck(earlier: &Holds, of_setup: &Holds, jobs: &[Ref]) -> bool
    ensures { result ≡ list_all (amiss.passes (stays_in earlier.now of_setup.now)) jobs.now }
{
    jobs.iter().all(|job| is_stuck(earlier, of_setup, job))
}

/// Adds the warning that names this job.
fn warn_of(place: Place, job: &Ref, found: &mut Vec<Warning>) -> Result<(), AllocError>
    ensures { OnOk result (found.new.items ≡ found.old.items ++ amiss.endless_with place job.now) }
{
    let name = match job {
        Ref::Bound(name) => name.clone()?,
        Ref::Member { array, .. } => array.clone()?,
        Ref::Number(_) => return Ok(()),
    };
    found.push(Warning::Endless { place, name })?;
    Ok(())
}

/// Adds a warning where a wait without end is for jobs that all stay held.
fn warn_stuck(
    place: Place,
    earlier: &Holds,
    of_setup: &Holds,
    jobs: &[Ref],
    found: &mut Vec<Warning>,
) -> Result<(), AllocError>
    ensures { OnOk result (found.new.items ≡ found.old.items ++ amiss.endless_of place (stays_in earlier.now of_setup.now) Timeout.Infinite jobs.now) }
{
    match jobs {
        [first, ..] if are_stuck(earlier, of_setup, jobs) => warn_of(place, first, found),
        _ => Ok(()),
    }
}

/// Adds a warning where a wait is without end, and for jobs that all stay held.
fn warn_wait(
    place: Place,
    earlier: &Holds,
    of_setup: &Holds,
    timeout: Timeout,
    jobs: &[Ref],
    found: &mut Vec<Warning>,
) -> Result<(), AllocError>
    ensures { OnOk result (found.new.items ≡ found.old.items ++ amiss.endless_of place (stays_in earlier.now of_setup.now) timeout jobs.now) }
{
    match timeout {
        Timeout::Infinite => warn_stuck(place, earlier, of_setup, jobs, found),
        Timeout::Seconds(_) => Ok(()),
    }
}

/// Adds a warning where a line waits without end for jobs that all stay held.
fn warn_endless_at(
    place: Place,
    earlier: &Holds,
    of_setup: &Holds,
    line: &Line,
    found: &mut Vec<Warning>,
) -> Result<(), AllocError>
    ensures { OnOk result (found.new.items ≡ found.old.items ++ amiss.endless_at place (stays_in earlier.now of_setup.now) (role line.now)) }
{
    match line {
        Line::WaitStarted { timeout, jobs, .. } | Line::WaitTerminated { timeout, jobs, .. } => {
            warn_wait(place, earlier, of_setup, *timeout, jobs.as_slice(), found)
        }
        _ => Ok(()),
    }
}

/// No names; it takes no memory.
fn no_holds(alloc: Global, script: &Script) -> Holds
    ensures { AreHolds script.now [] result }
{
    Holds {
        held: Keyed::new(alloc),
        let_go: Keyed::new(alloc),
    }
}

/// Adds a warning where a line waits without end for jobs that all stay held, and then what the line itself holds and lets go.
fn warn_then_hold(
    place: Place,
    script: &Script,
    earlier: &mut Holds,
    of_setup: &Holds,
    line: &Line,
    found: &mut Vec<Warning>,
) -> Result<(), AllocError>
    ensures { OnOk result (Passes place script.now of_setup.now line.now earlier.old earlier.new found.old.items found.new.items) }
{
    warn_endless_at(place, &*earlier, of_setup, line, found)?;
    insert_at(Sort::Held, script, &mut earlier.held, line)?;
    insert_at(Sort::LetGo, script, &mut earlier.let_go, line)
}

/// The same for the line at a place.
fn warn_then_hold_in(
    at: Place,
    script: &Script,
    earlier: &mut Holds,
    of_setup: &Holds,
    block: &Block,
    place: usize,
    found: &mut Vec<Warning>,
) -> Result<(), AllocError>
    requires { place < length block.now }
    ensures { OnOk result ((line : Line) × (drop place block.now ≡ line ∷ drop (place + 1) block.now)
        × Passes at script.now of_setup.now line earlier.old earlier.new found.old.items found.new.items) }
{
    let line = block.line(place)?;
    let passed = warn_then_hold(at, script, earlier, of_setup, &line, found);
    drop(line);
    passed
}

/// Adds a warning for each wait without end of a client whose jobs all stay held.
fn warn_endless(
    alloc: Global,
    place: Place,
    script: &Script,
    of_setup: &Holds,
    block: &Block,
    found: &mut Vec<Warning>,
) -> Result<(), AllocError>
    requires { AreSetupHolds script.now of_setup.now }
    ensures { OnOk result (found.new.items ≡ found.old.items ++ amiss.endless place script.now [] block.now) }
{
    let mut earlier = no_holds(alloc, script);
    for i in 0..block.len() {
        warn_then_hold_in(place, script, &mut earlier, of_setup, block, i, found)?;
    }
    Ok(())
}

/// Adds the warnings of a client.
fn warn_client(
    alloc: Global,
    number: u64,
    script: &Script,
    of_setup: &Holds,
    block: &Block,
    found: &mut Vec<Warning>,
) -> Result<(), AllocError>
    requires { AreSetupHolds script.now of_setup.now }
    ensures { OnOk result (found.new.items ≡ found.old.items ++ amiss.of_client script.now number block.now) }
{
    let place = Place::Client(number);
    let awaited = names_in(alloc, Sort::Awaited, script, block)?;
    warn_unwaited(place, &awaited, block, found)?;
    warn_endless(alloc, place, script, of_setup, block, found)
}

/// Adds the warnings of all clients.
fn warn_clients(
    alloc: Global,
    script: &Script,
    of_setup: &Holds,
    found: &mut Vec<Warning>,
) -> Result<(), AllocError>
    requires { AreSetupHolds script.now of_setup.now }
    ensures { OnOk result (found.new.items ≡ found.old.items ++ amiss.of_clients script.now 1 script.now.clients) }
{
    for (i, block) in script.clients.as_slice().iter().enumerate() {
        warn_client(alloc, i as u64 + 1, script, of_setup, block, found)?;
    }
    Ok(())
}

/// The names that the setup block starts as held, and those that any line lets go.
fn setup_holds(alloc: Global, script: &Script) -> Result<Holds, AllocError>
    ensures { IfOk result (AreSetupHolds script.now) }
{
    let held = names_in_setup(alloc, Sort::Held, script)?;
    let let_go = names_anywhere(alloc, Sort::LetGo, script)?;
    Ok(Holds { held, let_go })
}

/// The warnings of a script: for each job and each array that is started, and that no line that may name it waits for or reaps; and
/// for each wait without end of a client whose jobs all stay held.
///
/// # Errors
/// `AllocError` where memory is wanted.
pub fn warnings(alloc: Global, script: &Script) -> Result<WarningList, AllocError>
    ensures { IfOk result (λ found. found ≡ amiss.warnings script.now) }
{
    let of_setup = setup_holds(alloc, script)?;
    let awaited = names_anywhere(alloc, Sort::Awaited, script)?;
    let mut found = Vec::new(alloc);
    warn_setup(script, &awaited, &mut found)?;
    warn_clients(alloc, script, &of_setup, &mut found)?;
    Ok(ListOf::from_vec(found))
}
