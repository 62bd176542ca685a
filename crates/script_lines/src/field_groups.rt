//! The words of the lines of a job's template in groups, by what stands behind them.
ghost use Rattle.std.specs.Prelude.{◌≡◌};
ghost use Rattle.script_lines.specs.FieldGroups as groups;

use crate::JobFieldWord;

/// The words behind which a text stands.
#[derive(Clone, Copy)]
pub(crate) enum TextFieldWord {
    Command,
    Arg,
    Directory,
    Name,
    Input,
    Output,
    Error,
    Queue,
}

/// The words behind which a number of slots stands.
#[derive(Clone, Copy)]
pub(crate) enum CountFieldWord {
    MinSlots,
    MaxSlots,
}

/// The words behind which a moment stands.
#[derive(Clone, Copy)]
pub(crate) enum MomentFieldWord {
    Start,
    Deadline,
}

/// A word in its group, or by itself.
pub(crate) enum GroupedField {
    Text(TextFieldWord),
    Hold,
    Rerunnable,
    Env,
    Join,
    Count(CountFieldWord),
    Priority,
    Moment(MomentFieldWord),
    Limit,
    Other,
}

/// The word in its group.
pub(crate) fn field_group_of(word: JobFieldWord) -> GroupedField
    ensures { groups.field_word_of result ≡ word }
{
    match word {
        JobFieldWord::Command => GroupedField::Text(TextFieldWord::Command),
        JobFieldWord::Arg => GroupedField::Text(TextFieldWord::Arg),
        JobFieldWord::Hold => GroupedField::Hold,
        JobFieldWord::Rerunnable => GroupedField::Rerunnable,
        JobFieldWord::Env => GroupedField::Env,
        JobFieldWord::Directory => GroupedField::Text(TextFieldWord::Directory),
        JobFieldWord::Name => GroupedField::Text(TextFieldWord::Name),
        JobFieldWord::Input => GroupedField::Text(TextFieldWord::Input),
        JobFieldWord::Output => GroupedField::Text(TextFieldWord::Output),
        JobFieldWord::Error => GroupedField::Text(TextFieldWord::Error),
        JobFieldWord::Join => GroupedField::Join,
        JobFieldWord::Queue => GroupedField::Text(TextFieldWord::Queue),
        JobFieldWord::MinSlots => GroupedField::Count(CountFieldWord::MinSlots),
        JobFieldWord::MaxSlots => GroupedField::Count(CountFieldWord::MaxSlots),
        JobFieldWord::Priority => GroupedField::Priority,
        JobFieldWord::Start => GroupedField::Moment(MomentFieldWord::Start),
        JobFieldWord::Deadline => GroupedField::Moment(MomentFieldWord::Deadline),
        JobFieldWord::Limit => GroupedField::Limit,
        JobFieldWord::Other => GroupedField::Other,
    }
}
