//! What names were given.
ghost use Rattle.std.specs.Prelude.{◌≡◌, IfOk};
ghost use Rattle.script_asks.specs.Replies as replies;

use drmaa_model::Reply;
use script_lines::{Line, Name};
use script_text::{Keyed, Kind, binding};
use std::alloc::AllocError;

/// What a reply gave to a name.
#[derive(Clone, Copy, Debug, PartialEq, Eq)]
pub enum Given {
    /// The number of a session, a job or a reservation.
    One(u64),
    /// The number of an array and of its first member; the members' indices are `begin`, `begin` plus `step` and so on.
    Many {
        array: u64,
        first: u64,
        begin: u32,
        step: u32,
    },
}

fn session_in(reply: &Reply) -> Option<Given>
    ensures { result ≡ replies.session_in reply.now }
{
    match reply {
        Reply::Session(session) => Some(Given::One(session.0)),
        _ => None,
    }
}

fn job_in(reply: &Reply) -> Option<Given>
    ensures { result ≡ replies.job_in reply.now }
{
    match reply {
        Reply::Job(job) => Some(Given::One(job.0)),
        _ => None,
    }
}

fn array_in(begin: u32, step: u32, reply: &Reply) -> Option<Given>
    ensures { result ≡ replies.array_in begin step reply.now }
{
    match reply {
        Reply::Array { array, first, .. } => Some(Given::Many {
            array: array.0,
            first: first.0,
            begin,
            step,
        }),
        _ => None,
    }
}

fn reserved_in(reply: &Reply) -> Option<Given>
    ensures { result ≡ replies.reserved_in reply.now }
{
    match reply {
        Reply::Reserved(reserved) => Some(Given::One(reserved.reservation.0)),
        _ => None,
    }
}

/// What a reply gives to a name of this kind.
fn given_in(kind: Kind, reply: &Reply) -> Option<Given>
    ensures { result ≡ replies.given_in kind reply.now }
{
    match kind {
        Kind::Session => session_in(reply),
        Kind::Job => job_in(reply),
        Kind::Array { begin, step, .. } => array_in(begin, step, reply),
        Kind::Reservation => reserved_in(reply),
    }
}

/// Gives a name what it was given, where it has nothing yet. After an `Err` memory ran out.
#[tactic(auto, using(script_text::specs::NameLaws::not_there))]
fn give(names: &mut Keyed<Given>, name: Name, given: Option<Given>) -> Result<(), AllocError>
    ensures { IfOk result (λ _. names.new ≡ replies.bind_to name given names.old) }
{
    match given {
        Some(given) => {
            if names.find(&name).is_none() {
                names.add(name, given)?;
            }
            Ok(())
        }
        None => Ok(()),
    }
}

/// The names become those after the reply to a line. After an `Err` memory ran out, and the names may be anything.
pub fn learn_reply(names: &mut Keyed<Given>, line: &Line, reply: &Reply) -> Result<(), AllocError>
    ensures { IfOk result (λ _. names.new ≡ replies.names_after line.now reply.now names.old) }
{
    match binding(line)? {
        Some((name, kind)) => give(names, name, given_in(kind, reply)),
        None => Ok(()),
    }
}
