//! The command that goes on with a journal by reservations that recur.
ghost use Rattle.std.specs.Prelude.{◌≡◌, ◌≢◌, IfOk, IfSome, MatchBool, Some, false};
ghost use Rattle.drmaa_types.specs.declared.identifiers.SessionId.{SessionId};
ghost use Rattle.drmaa_model.specs.History.{IsLegal};
ghost use Rattle.journal_commands.specs.Recurring as recurring;
ghost use Rattle.journal_commands.specs.Recurring.{GoesOn, HasOccurrences, WritesOn};
ghost use Rattle.journal_commands.specs.Replays.{AreRecorded};
ghost use Rattle.journal_text.specs.Journals.{journal_text};

use crate::legal::LegalCommand;
use crate::running::Output;
use command_words::{RecurWords, Unit};
use drmaa_machine::Machine;
use drmaa_model::{Call, NoEntry, Reply};
use drmaa_types::{AttributeList, CallerId, IdList, Limit, Refusal, SessionId, Start, Text};
use job_template::ReservationTemplate;
use journal_text::journal_bytes;
use recurring_reservations::{Every, RecurFault, Recurring, occurrences, request_all};
use std::alloc::{AllocError, Global};

/// `recur`: opens a reservation session of a legal journal, and requests reservations that recur there.
#[derive(Drop)]
pub struct Recur {
    pub words: RecurWords,
}

/// The step from one occurrence to the next.
fn every_of(unit: Unit, number: u32) -> Every
    ensures { result ≡ recurring.every_of unit number }
{
    match unit {
        Unit::Days => Every::Days(number),
        Unit::Weeks => Every::Weeks(number),
        Unit::Months => Every::Months(number),
    }
}

/// The reservation that is to recur.
fn recurring_of(alloc: Global, words: &RecurWords) -> Recurring
    ensures { result ≡ recurring.recurring_of words.now }
{
    Recurring {
        template: ReservationTemplate {
            reservation_name: None,
            start_time: Some(Start::At(words.start)),
            end_time: None,
            duration: Some(words.duration),
            min_slots: Some(words.slots),
            max_slots: None,
            others: AttributeList::new(alloc),
        },
        every: every_of(words.unit, words.number),
        count: words.count,
    }
}

/// There are none to request, unless that could not be found out.
fn unless_short(refusal: Refusal) -> Result<bool, AllocError>
    ensures { IfOk result (λ can. (can ≡ false) × (refusal ≢ Refusal.OutOfMemory)) }
{
    match refusal {
        Refusal::OutOfMemory => Err(AllocError),
        _ => Ok(false),
    }
}

/// Whether there are reservations to request: none where one of them would end after the greatest moment, or where they have no
/// duration.
pub fn has_occurrences(alloc: Global, words: &RecurWords) -> Result<bool, AllocError>
    ensures { IfOk result (λ can. MatchBool can (HasOccurrences words.now) (HasOccurrences words.now → ⊥)) }
{
    let recurring = recurring_of(alloc, words);
    match occurrences(alloc, &recurring) {
        Ok(_) => Ok(true),
        Err(refusal) => unless_short(refusal),
    }
}

/// The size of the journal for which a request made no entry, if that is why.
///
/// # Errors
/// Want of memory, where that is why.
fn size_of(refusal: Refusal) -> Result<Option<u64>, AllocError>
    ensures { IfOk result (λ full. (refusal ≢ Refusal.OutOfMemory) × (full ≡ recurring.size_of refusal)) }
{
    match refusal {
        Refusal::OutOfMemory => Err(AllocError),
        Refusal::OutOfResource(limit) => Ok(size_in(limit)),
        _ => Ok(None),
    }
}

fn size_in(limit: Limit) -> Option<u64>
    ensures { result ≡ recurring.size_in limit }
{
    match limit {
        Limit::Journal { size } => Some(size),
        _ => None,
    }
}

/// The same of all requests, which may have stopped.
fn full_after(answer: Result<IdList, RecurFault>) -> Result<Option<u64>, AllocError>
    ensures { IfOk result (recurring.StopsAs answer) }
{
    match answer {
        Ok(_) => Ok(None),
        Err(fault) => size_of(fault.refusal),
    }
}

/// The session that a reply tells of.
fn session_in(reply: Reply) -> Option<SessionId>
    ensures told { (session : SessionId) → reply ≡ Reply.Session session → result ≡ Some session }
    ensures found { IfSome result (λ session. reply ≡ Reply.Session session) }
{
    match reply {
        Reply::Session(session) => Some(session),
        other => {
            drop(other);
            None
        }
    }
}

/// Opens the session, and requests all reservations there. The size of the journal for which that stopped, if it did.
///
/// # Errors
/// Want of memory.
fn go_on(alloc: Global, machine: &mut Machine, words: RecurWords) -> Result<Option<u64>, AllocError>
    ensures goes { IfOk result (λ full. GoesOn words machine.old.ledger full machine.new.ledger) }
    ensures legal { IsLegal machine.new.ledger.config machine.new.ledger.history }
{
    let recurring = recurring_of(alloc, &words);
    let at = machine.moment();
    let call = Call::OpenReservationSession {
        name: words.session,
    };
    match machine.apply(CallerId(0), at, call) {
        Ok(reply) => match session_in(reply) {
            Some(session) => full_after(request_all(
                alloc,
                machine,
                CallerId(0),
                at,
                session,
                recurring,
            )),
            None => Ok(None),
        },
        Err(NoEntry::Journal { size }) => Ok(Some(size)),
        Err(_) => Err(AllocError),
    }
}

/// The journal of what a machine has served.
fn journal_of(alloc: Global, machine: &Machine) -> Result<Text, AllocError>
    requires { AreRecorded machine.now.ledger.history }
    ensures { IfOk result (λ text. text ≡ journal_text machine.now.ledger.config machine.now.ledger.history) }
{
    let bytes = journal_bytes(alloc, machine.config(), machine.entries())?;
    let Ok(text) = String::from_utf8(bytes.into_vec()) else {
        unreachable!();
    };
    Ok(Text::from_string(text))
}

impl LegalCommand for Recur {
    ghost Makes = { λ c ledger text full. WritesOn c.words ledger text full };

    fn make(self, alloc: Global, mut machine: Machine) -> Result<Output, AllocError> {
        let Recur { words } = self;
        let full = go_on(alloc, &mut machine, words)?;
        let text = journal_of(alloc, &machine)?;
        Ok(Output { text, full })
    }
}
