//! The reservations of a history, from their start to their end.
ghost use Rattle.std.specs.Prelude.{◌≡◌, ◌++◌, [], ℕ, map, nat_eq, IfOk, OnOk, Some, if◌then◌else◌, option_to_list};
ghost use Rattle.run_chart.specs.Blocks as meant;

use crate::moments::{earlier, later, opening_moment};
use drmaa_model::{Call, Entry, Reply};
use drmaa_types::{ListOf, Moment, Reserved};
use indexmap::IndexMap;
use std::alloc::{AllocError, Global};
use std::marker::Model;

/// Reservations, in the order in which they were accepted: each until its end, or until it was ended before that.
pub type BlockList = ListOf<Reserved>;

/// When reservations were ended, by their numbers. Contracts see it as a list of pairs.
#[derive(Drop)]
struct Ends {
    ends: IndexMap<u64, Moment>,
}

impl Model for Ends {
    ghost use Rattle.std.specs.Prelude.{List, ℕ};

    ghost Value = { List (ℕ × ℕ) };

    ghost view = { λ e. e.ends.entries };
}

impl Ends {
    /// No end; it takes no memory.
    fn new(alloc: Global) -> Ends
        ensures { result ≡ [] }
    {
        Ends {
            ends: IndexMap::new(alloc),
        }
    }

    /// The ends with that of a reservation.
    fn with(self, reservation: u64, at: Moment) -> Result<Ends, AllocError>
        ensures { IfOk result (λ more. (n : ℕ) → meant.end_in more n ≡ (if nat_eq reservation n then Some at else meant.end_in self n)) }
    {
        let mut ends = self.ends;
        match ends.insert(reservation, at) {
            Ok(_) => Ok(Ends { ends }),
            Err(failed) => Err(failed.into()),
        }
    }

    /// When a reservation was ended.
    fn find(&self, reservation: u64) -> Option<Moment>
        ensures { result ≡ meant.end_in self.now reservation }
    {
        self.ends.get(&reservation).copied()
    }
}

/// The reservation that an accepted call ends.
fn ended_by(call: &Call) -> Option<u64>
    ensures { result ≡ meant.ended_by call.now }
{
    match call {
        Call::EndReservation { reservation, .. } => Some(reservation.0),
        _ => None,
    }
}

/// The reservation that an entry ends.
fn ended_in(call: &Call, reply: &Reply) -> Option<u64>
    ensures { result ≡ meant.ended_in call.now reply.now }
{
    match reply {
        Reply::Unit => ended_by(call),
        _ => None,
    }
}

/// The ends with the one of an entry, where there is one.
fn noted(ends: Ends, at: Moment, ended: Option<u64>) -> Result<Ends, AllocError>
    ensures { IfOk result (λ more. (n : ℕ) → meant.end_in more n ≡ meant.ended_at n at ended (meant.end_in ends n)) }
{
    match ended {
        Some(reservation) => ends.with(reservation, at),
        None => Ok(ends),
    }
}

/// When the reservations of a history were ended.
fn ends_of(alloc: Global, entries: &[Entry]) -> Result<Ends, AllocError>
    ensures { IfOk result (λ ends. meant.Shows ends entries.now) }
{
    let mut ends = Ends::new(alloc);
    let mut now = opening_moment();
    for entry in entries {
        now = later(now, entry.at);
        ends = noted(ends, now, ended_in(&entry.call, &entry.reply))?;
    }
    Ok(ends)
}

/// The reservation that a reply tells was accepted.
fn accepted_in(reply: &Reply) -> Option<Reserved>
    ensures { result ≡ meant.accepted_in reply.now }
{
    match reply {
        Reply::Reserved(reserved) => Some(*reserved),
        _ => None,
    }
}

/// A reservation, up to where it was ended.
fn cut(reserved: Reserved, ended: Option<Moment>) -> Reserved
    ensures { result ≡ meant.cut reserved ended }
{
    match ended {
        Some(at) => Reserved {
            reservation: reserved.reservation,
            slots: reserved.slots,
            from: reserved.from,
            until: later(reserved.from, earlier(reserved.until, at)),
        },
        None => reserved,
    }
}

/// Adds a reservation, where there is one.
fn push_accepted(accepted: &mut Vec<Reserved>, reserved: Option<Reserved>) -> Result<(), AllocError>
    ensures { OnOk result (accepted.new.items ≡ accepted.old.items ++ option_to_list reserved) }
{
    match reserved {
        Some(reserved) => {
            accepted.push(reserved)?;
            Ok(())
        }
        None => Ok(()),
    }
}

/// The reservations that were accepted, as they were then.
fn accepted_of(alloc: Global, entries: &[Entry]) -> Result<Vec<Reserved>, AllocError>
    ensures { IfOk result (λ accepted. accepted.items ≡ meant.accepted_of entries.now) }
{
    let mut accepted = Vec::new(alloc);
    for entry in entries {
        push_accepted(&mut accepted, accepted_in(&entry.reply))?;
    }
    Ok(accepted)
}

/// These reservations, up to where they were ended.
fn cut_all(alloc: Global, accepted: &[Reserved], ends: &Ends) -> Result<Vec<Reserved>, AllocError>
    ensures { IfOk result (λ blocks. blocks.items ≡ map (meant.cut_in ends.now) accepted.now) }
{
    let mut blocks = Vec::with_capacity(alloc, accepted.len())?;
    for reserved in accepted {
        let ended = ends.find(reserved.reservation.0);
        blocks.push(cut(*reserved, ended))?;
    }
    Ok(blocks)
}

/// The reservations of a history.
#[tactic(auto, using(crate::specs::BlockLaws::cut_by_table))]
pub(crate) fn blocks_of(alloc: Global, entries: &[Entry]) -> Result<BlockList, AllocError>
    ensures { IfOk result (λ found. found ≡ meant.blocks_of entries.now) }
{
    let accepted = accepted_of(alloc, entries)?;
    let ends = ends_of(alloc, entries)?;
    let blocks = cut_all(alloc, accepted.as_slice(), &ends)?;
    Ok(BlockList::from_vec(blocks))
}
