//! Refusals: read and printed.
ghost use Rattle.std.specs.Prelude.{◌≡◌, ◌++◌, Some, true, IfErr, OnOk};
ghost use Rattle.text_codec.specs.declared.unread.Unread.{Unread};
ghost use Rattle.text_forms.specs.declared.refusals.RefusalWord.{RefusalWord};
ghost use Rattle.text_codec.specs.Formats.{Answers, first_spelled};
ghost use Rattle.text_codec.specs.ValueWords.{limit_form, is_told};
ghost use Rattle.text_forms.specs.Refusals as refusals;
ghost use Rattle.text_forms.specs.declared.refusals.RefusalWord.TheVariants as why;

use drmaa_types::{Attribute, JobState, Limit, Moment, Refusal, Which};
use std::alloc::AllocError;
use text_codec::{Cursor, Form, Print, Unread, spell_limit};

/// The refusals that stand in journals.
#[derive(Clone, Copy, Debug, PartialEq, Eq)]
pub enum RefusalWord {
    Denied,
    Timeout,
    Argument,
    Session,
    State,
    Resource,
    Attribute,
    Operation,
}

/// All of them.
pub const REFUSAL_WORDS: [RefusalWord; 8] = [
    RefusalWord::Denied,
    RefusalWord::Timeout,
    RefusalWord::Argument,
    RefusalWord::Session,
    RefusalWord::State,
    RefusalWord::Resource,
    RefusalWord::Attribute,
    RefusalWord::Operation,
];

/// The number of a refusal, as it is spelled.
pub fn spell_refusal_word(word: RefusalWord) -> &'static str
    ensures { result.now ≡ refusals.refusal_word word }
{
    match word {
        RefusalWord::Denied => "1",
        RefusalWord::Timeout => "3",
        RefusalWord::Argument => "4",
        RefusalWord::Session => "5",
        RefusalWord::State => "6",
        RefusalWord::Resource => "7",
        RefusalWord::Attribute => "9",
        RefusalWord::Operation => "10",
    }
}

/// The first refusal of the table that is spelled so.
fn first_refusal_word(word: &[u8]) -> Option<RefusalWord>
    ensures { result ≡ first_spelled refusals.refusal_word REFUSAL_WORDS word.now }
{
    REFUSAL_WORDS
        .iter()
        .copied()
        .find(|kind| spell_refusal_word(*kind).as_bytes() == word)
}

/// The refusal whose number is spelled so. Each has a number, and no two share one.
pub fn refusal_word_of(word: &[u8]) -> Option<RefusalWord>
    ensures first { result ≡ first_spelled refusals.refusal_word REFUSAL_WORDS word.now }
    ensures only { (kind : RefusalWord) → word.now ≡ refusals.refusal_word kind → result ≡ Some kind }
{
    first_refusal_word(word)
}

/// What stands behind the first number.
#[tactic(auto, unfolding(crate::specs::Refusals::overfull, text_codec::specs::Formats::or_else))]
fn denied_at(cursor: &mut Cursor) -> Result<Refusal, Unread>
    ensures reads { Answers (refusals.refusal_arms why.Denied) cursor.old result cursor.new }
    ensures memory { IfErr result (λ e. e ≡ Unread.Unspelled) }
{
    cursor.expect(b" ")?;
    if cursor.skip(b"-") {
        return Ok(Refusal::DeniedByDrms(None));
    }
    Ok(Refusal::DeniedByDrms(Some(Moment::read(cursor)?)))
}

fn argument_at(cursor: &mut Cursor) -> Result<Refusal, Unread>
    ensures reads { Answers (refusals.refusal_arms why.Argument) cursor.old result cursor.new }
    ensures memory { IfErr result (λ e. e ≡ Unread.Unspelled) }
{
    cursor.expect(b" ")?;
    Ok(Refusal::InvalidArgument(Which::read(cursor)?))
}

fn state_at(cursor: &mut Cursor) -> Result<Refusal, Unread>
    ensures reads { Answers (refusals.refusal_arms why.State) cursor.old result cursor.new }
    ensures memory { IfErr result (λ e. e ≡ Unread.Unspelled) }
{
    cursor.expect(b" ")?;
    Ok(Refusal::InvalidState(JobState::read(cursor)?))
}

fn resource_at(cursor: &mut Cursor) -> Result<Refusal, Unread>
    ensures reads { Answers (refusals.refusal_arms why.Resource) cursor.old result cursor.new }
    ensures memory { IfErr result (λ e. e ≡ Unread.Unspelled) }
{
    cursor.expect(b" ")?;
    Ok(Refusal::OutOfResource(Limit::read(cursor)?))
}

fn attribute_at(cursor: &mut Cursor) -> Result<Refusal, Unread>
    ensures reads { Answers (refusals.refusal_arms why.Attribute) cursor.old result cursor.new }
    ensures memory { IfErr result (λ e. e ≡ Unread.Unspelled) }
{
    cursor.expect(b" ")?;
    Ok(Refusal::UnsupportedAttribute(Attribute::read(cursor)?))
}

/// What stands behind the number of a refusal.
fn carried_at(word: RefusalWord, cursor: &mut Cursor) -> Result<Refusal, Unread>
    ensures reads { Answers (refusals.refusal_arms word) cursor.old result cursor.new }
    ensures memory { IfErr result (λ e. e ≡ Unread.Unspelled) }
{
    match word {
        RefusalWord::Denied => denied_at(cursor),
        RefusalWord::Timeout => Ok(Refusal::Timeout),
        RefusalWord::Argument => argument_at(cursor),
        RefusalWord::Session => Ok(Refusal::InvalidSession),
        RefusalWord::State => state_at(cursor),
        RefusalWord::Resource => resource_at(cursor),
        RefusalWord::Attribute => attribute_at(cursor),
        RefusalWord::Operation => Ok(Refusal::UnsupportedOperation),
    }
}

/// Reads a refusal by its number, and what it carries.
#[tactic(auto, unfolding(crate::specs::Refusals::refusals, crate::specs::Refusals::refusal_sum, text_codec::specs::Sums::sum_of))]
pub fn read_refusal(cursor: &mut Cursor) -> Result<Refusal, Unread>
    ensures reads { Answers refusals.refusals.read cursor.old result cursor.new }
    ensures memory { IfErr result (λ e. e ≡ Unread.Unspelled) }
{
    match refusal_word_of(cursor.word()) {
        Some(word) => carried_at(word, cursor),
        None => Err(Unread::Unspelled),
    }
}

/// Prints the moment that is overfull, or `-` where there is none.
#[tactic(auto, unfolding(crate::specs::Refusals::overfull, text_codec::specs::Formats::or_else))]
fn push_overfull(out: &mut Vec<u8>, at: Option<Moment>) -> Result<(), AllocError>
    ensures text { OnOk result (out.new.items ≡ out.old.items ++ refusals.overfull.spell at) }
    ensures valid { OnOk result (refusals.overfull.valid at) }
{
    match at {
        Some(at) => at.push(out),
        None => out.extend_from_slice(b"-"),
    }
}

/// Prints the name of a limit.
#[tactic(auto, unfolding(text_codec::specs::ValueWords::limit_form), using(text_codec::specs::ValueWordLaws::limit_stands))]
fn push_limit(out: &mut Vec<u8>, limit: Limit) -> Result<(), AllocError>
    ensures text { OnOk result (out.new.items ≡ out.old.items ++ limit_form.spell limit) }
    ensures valid { is_told limit ≡ true → OnOk result (limit_form.valid limit) }
{
    out.extend_from_slice(spell_limit(limit).as_bytes())
}

/// Prints a refusal. One that no journal has is printed as its number alone, `2` or `8`, or as the journal's own limit, `7 journal`:
/// it has no spelling that is read.
pub fn push_refusal(out: &mut Vec<u8>, refusal: Refusal) -> Result<(), AllocError>
    ensures text { OnOk result (out.new.items ≡ out.old.items ++ (refusals.refusal_form refusal).text) }
    ensures valid { refusals.may_stand refusal ≡ true → OnOk result ((refusals.refusal_form refusal).valid) }
{
    match refusal {
        Refusal::DeniedByDrms(at) => {
            out.extend_from_slice(b"1 ")?;
            push_overfull(out, at)
        }
        Refusal::TryLater { .. } => out.extend_from_slice(b"2"),
        Refusal::Timeout => out.extend_from_slice(b"3"),
        Refusal::InvalidArgument(which) => {
            out.extend_from_slice(b"4 ")?;
            which.push(out)
        }
        Refusal::InvalidSession => out.extend_from_slice(b"5"),
        Refusal::InvalidState(state) => {
            out.extend_from_slice(b"6 ")?;
            state.push(out)
        }
        Refusal::OutOfResource(limit) => {
            out.extend_from_slice(b"7 ")?;
            push_limit(out, limit)
        }
        Refusal::OutOfMemory => out.extend_from_slice(b"8"),
        Refusal::UnsupportedAttribute(attribute) => {
            out.extend_from_slice(b"9 ")?;
            attribute.push(out)
        }
        Refusal::UnsupportedOperation => out.extend_from_slice(b"10"),
    }
}
