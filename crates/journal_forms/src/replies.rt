//! Replies: read.
ghost use Rattle.std.specs.Prelude.{◌≡◌};
ghost use Rattle.text_codec.specs.Formats.{Answers};
ghost use Rattle.journal_forms.specs.Replies as replies;
ghost use Rattle.journal_forms.specs.declared.reply_words.ReplyWord.TheVariants as told;

use crate::fields::{boxed, listed, one, shared, three};
use crate::{ReplyWord, reply_word_of};
use drmaa_model::{Launch, Reply, Signal};
use drmaa_types::{MachineInfo, Reserved};
use text_codec::{Cursor, Unread, read_list};
use text_forms::read_refusal;

#[tactic(auto, unfolding(crate::specs::Replies::members))]
fn array_at(cursor: &mut Cursor) -> Result<Reply, Unread>
    ensures { Answers (replies.reply_arms told.Array) cursor.old result cursor.new }
{
    let (array, (first, count)) = three(cursor)?;
    Ok(Reply::Array {
        array,
        first,
        count,
    })
}

#[tactic(auto, unfolding(crate::specs::Replies::reserved, text_codec::specs::Formats::mapped, text_codec::specs::Formats::pair))]
fn reserved_at(cursor: &mut Cursor) -> Result<Reply, Unread>
    ensures { Answers (replies.reply_arms told.Reserved) cursor.old result cursor.new }
{
    let (reservation, (slots, from)) = three(cursor)?;
    cursor.expect(b" ")?;
    let until = cursor.moment()?;
    Ok(Reply::Reserved(Reserved {
        reservation,
        slots,
        from,
        until,
    }))
}

#[tactic(auto, unfolding(crate::specs::Replies::machine, text_codec::specs::Formats::mapped))]
fn machine_at(cursor: &mut Cursor) -> Result<Reply, Unread>
    ensures { Answers (replies.reply_arms told.Machine) cursor.old result cursor.new }
{
    let (name, (slots, used)) = three(cursor)?;
    Ok(Reply::Machine(MachineInfo { name, slots, used }))
}

#[tactic(auto, unfolding(crate::specs::Replies::launch, text_codec::specs::Formats::mapped, text_codec::specs::Formats::pair, crate::specs::Replies::texts))]
fn launch_at(cursor: &mut Cursor) -> Result<Reply, Unread>
    ensures { Answers (replies.reply_arms told.Launch) cursor.old result cursor.new }
{
    let (job, (attempt, slots)) = three(cursor)?;
    cursor.expect(b" ")?;
    let words = read_list(cursor)?;
    let words = shared(cursor, words)?;
    Ok(Reply::Launch(Launch {
        job,
        attempt,
        slots,
        words,
    }))
}

#[tactic(auto, unfolding(crate::specs::Replies::signal, text_codec::specs::Formats::mapped))]
fn signal_at(cursor: &mut Cursor) -> Result<Reply, Unread>
    ensures { Answers (replies.reply_arms told.Signal) cursor.old result cursor.new }
{
    let (job, (attempt, kind)) = three(cursor)?;
    Ok(Reply::Signal(Signal { job, attempt, kind }))
}

fn refused_at(cursor: &mut Cursor) -> Result<Reply, Unread>
    ensures { Answers (replies.reply_arms told.Refused) cursor.old result cursor.new }
{
    cursor.expect(b" ")?;
    Ok(Reply::Refused(read_refusal(cursor)?))
}

/// What stands behind the word of a reply.
#[tactic(auto, unfolding(crate::specs::Replies::texts, crate::specs::Replies::ids, crate::specs::Replies::infos, crate::specs::Replies::reservation_infos))]
fn told_at(word: ReplyWord, cursor: &mut Cursor) -> Result<Reply, Unread>
    ensures { Answers (replies.reply_arms word) cursor.old result cursor.new }
{
    match word {
        ReplyWord::Ok => Ok(Reply::Unit),
        ReplyWord::Session => Ok(Reply::Session(one(cursor)?)),
        ReplyWord::Names => Ok(Reply::Names(listed(cursor)?)),
        ReplyWord::Job => Ok(Reply::Job(one(cursor)?)),
        ReplyWord::Array => array_at(cursor),
        ReplyWord::Jobs => Ok(Reply::Jobs(listed(cursor)?)),
        ReplyWord::State => Ok(Reply::State(one(cursor)?)),
        ReplyWord::Info => Ok(Reply::Info(boxed(cursor)?)),
        ReplyWord::Reached => Ok(Reply::Reached(one(cursor)?)),
        ReplyWord::Reserved => reserved_at(cursor),
        ReplyWord::Reservation => Ok(Reply::Reservation(boxed(cursor)?)),
        ReplyWord::Reservations => Ok(Reply::Reservations(listed(cursor)?)),
        ReplyWord::Infos => Ok(Reply::Infos(listed(cursor)?)),
        ReplyWord::ReservationInfos => Ok(Reply::ReservationInfos(listed(cursor)?)),
        ReplyWord::Machine => machine_at(cursor),
        ReplyWord::Callback => Ok(Reply::Callback(one(cursor)?)),
        ReplyWord::Launch => launch_at(cursor),
        ReplyWord::Signal => signal_at(cursor),
        ReplyWord::Refused => refused_at(cursor),
    }
}

/// Reads a reply.
#[tactic(auto, unfolding(crate::specs::Replies::replies, crate::specs::Replies::reply_sum, text_codec::specs::Sums::sum_of))]
pub fn read_reply(cursor: &mut Cursor) -> Result<Reply, Unread>
    ensures { Answers replies.replies.read cursor.old result cursor.new }
{
    match reply_word_of(cursor.word()) {
        Some(word) => told_at(word, cursor),
        None => Err(Unread::Unspelled),
    }
}
