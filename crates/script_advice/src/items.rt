//! What may stand behind the word of a line.
use std::alloc::{AllocError, Global};

/// One item behind the word of a line. Those from `MaybeText` on are last items, which may be left out.
#[derive(Clone, Copy)]
pub(crate) enum Item {
    /// A name that the line binds.
    Name,
    /// The name of a template, which its block gives it.
    TemplateName,
    Session,
    Job,
    Array,
    Reservation,
    /// The name of a job's template.
    Template,
    /// The name of a reservation's template.
    ReservationTemplate,
    Text,
    /// The name of a machine or a queue: 1 to 255 bytes.
    ShortText,
    /// From 1 to 65,535.
    Slots,
    /// A number below 2^8.
    Byte,
    /// A number below 2^32.
    Number,
    /// A number below 2^64.
    LongNumber,
    /// A number of 32 bits with a sign.
    Integer,
    Moment,
    /// A moment, or `now`.
    Beginning,
    Timeout,
    /// A number, or `-`.
    Bound,
    Kind,
    /// A word of capitals.
    Limit,
    Attribute,
    /// `suspend` or `nosuspend`.
    Suspend,
    MaybeText,
    /// `reserved` and a reservation.
    Reserved,
    Jobs,
    Filters,
}

impl Item {
    /// How it stands in the form of a line.
    pub(crate) fn word(self) -> &'static str {
        match self {
            Item::Name | Item::TemplateName => "NAME",
            Item::Session => "SESSION",
            Item::Job => "JOB",
            Item::Array => "ARRAY",
            Item::Reservation => "RESERVATION",
            Item::Template => "TEMPLATE",
            Item::ReservationTemplate => "RTEMPLATE",
            Item::Text | Item::ShortText => "TEXT",
            Item::Slots => "SLOTS",
            Item::Byte | Item::Number | Item::LongNumber => "NUMBER",
            Item::Integer => "INTEGER",
            Item::Moment => "MOMENT",
            Item::Beginning => "MOMENT|now",
            Item::Timeout => "TIMEOUT",
            Item::Bound => "BOUND",
            Item::Kind => "KIND",
            Item::Limit => "WORD",
            Item::Attribute => "ATTRIBUTE",
            Item::Suspend => "suspend|nosuspend",
            Item::MaybeText => "[TEXT]",
            Item::Reserved => "[reserved RESERVATION]",
            Item::Jobs => "JOB..",
            Item::Filters => "FILTER..",
        }
    }

    /// Whether it is a last item, which may be left out.
    pub(crate) fn is_last(self) -> bool {
        matches!(
            self,
            Item::MaybeText | Item::Reserved | Item::Jobs | Item::Filters
        )
    }
}

/// Writes what may stand behind a word.
fn push_items(out: &mut String, items: &[Item]) -> Result<(), AllocError> {
    for item in items {
        out.push_str(" ")?;
        out.push_str(item.word())?;
    }
    Ok(())
}

/// The form of a line, its word and what may stand behind it, with what stands before that.
pub(crate) fn usage(
    alloc: Global,
    before: &str,
    word: &str,
    items: &[Item],
) -> Result<String, AllocError> {
    let mut out = String::from_str(alloc, before)?;
    out.push_str("`")?;
    out.push_str(word)?;
    push_items(&mut out, items)?;
    out.push_str("`")?;
    Ok(out)
}
