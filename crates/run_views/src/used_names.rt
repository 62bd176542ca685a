//! The names of job sessions that are in use, and the one that a session gets.
ghost use Rattle.std.specs.Prelude.{◌≡◌, IfOk, OnOk, filter, not};
ghost use Rattle.std.specs.Str.{bytes_eq};
ghost use Rattle.session_table.specs.Sessions.{session_name};
ghost use Rattle.run_views.specs.Submitted as submitted;

use drmaa_model::{Call, Reply};
use drmaa_types::{SessionId, Text};
use std::alloc::{AllocError, Global};

/// The text `session-N`.
fn session_name(alloc: Global, number: u64) -> Result<Text, AllocError>
    ensures { IfOk result (λ name. name ≡ session_name number) }
{
    Ok(Text::from_string(format!(in alloc; "session-{number}")?))
}

/// Whether a name is in use.
fn is_used(used: &[Text], name: &Text) -> bool
    ensures { result ≡ submitted.is_used used.now name.now }
{
    for other in used {
        if *name == *other {
            return true;
        }
    }
    false
}

/// `session-N` with the least N from 1 that is not in use.
fn unused_name(alloc: Global, used: &[Text]) -> Result<Text, AllocError>
    ensures { IfOk result (λ name. name ≡ submitted.unused_name used.now) }
{
    let count = used.len() as u64;
    for number in 1..count + 1 {
        let name = session_name(alloc, number)?;
        if !is_used(used, &name) {
            return Ok(name);
        }
    }
    session_name(alloc, count + 1)
}

/// The name that a session gets which is made under this one, or under none.
fn chosen_name(alloc: Global, used: &[Text], name: &Option<Text>) -> Result<Text, AllocError>
    ensures { IfOk result (λ chosen. chosen ≡ submitted.chosen_name used.now name.now) }
{
    match name {
        Some(name) => name.clone(),
        None => unused_name(alloc, used),
    }
}

/// The name under which a call makes or opens a job session.
pub(crate) fn name_in(alloc: Global, used: &[Text], call: &Call) -> Result<Option<Text>, AllocError>
    ensures { IfOk result (λ name. name ≡ submitted.name_in used.now call.now) }
{
    match call {
        Call::CreateJobSession { name } => Ok(Some(chosen_name(alloc, used, name)?)),
        Call::OpenJobSession { name } => Ok(Some(name.clone()?)),
        _ => Ok(None),
    }
}

/// The session number that a reply hands out.
pub(crate) fn session_in(reply: &Reply) -> Option<SessionId>
    ensures { result ≡ submitted.session_in reply.now }
{
    match reply {
        Reply::Session(session) => Some(*session),
        _ => None,
    }
}

/// Whether a call was served that has nothing to tell.
fn is_unit(reply: &Reply) -> bool
    ensures { result ≡ submitted.is_unit reply.now }
{
    matches!(reply, Reply::Unit)
}

/// Takes a name out.
fn remove(used: &mut Vec<Text>, name: &Text)
    ensures { used.new.items ≡ filter (λ other. not (bytes_eq name.now other)) used.old.items }
{
    used.retain(|other| *name != *other);
}

/// Adds the name of a session that a call has made, and takes out that of one that it has destroyed.
pub(crate) fn note_use(
    used: &mut Vec<Text>,
    alloc: Global,
    call: &Call,
    reply: &Reply,
) -> Result<(), AllocError>
    ensures { OnOk result (used.new.items ≡ submitted.used_after used.old.items call.now reply.now) }
{
    match call {
        Call::CreateJobSession { name } => {
            if session_in(reply).is_some() {
                let name = chosen_name(alloc, used.as_slice(), name)?;
                used.push(name)?;
            }
            Ok(())
        }
        Call::DestroyJobSession { name } => {
            if is_unit(reply) {
                remove(used, name);
            }
            Ok(())
        }
        _ => Ok(()),
    }
}
