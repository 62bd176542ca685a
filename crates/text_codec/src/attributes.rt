//! The words of the attributes that this profile does not support.
ghost use Rattle.std.specs.Prelude.{◌≡◌, ◌++◌, Some, IfErr, OnOk};
ghost use Rattle.drmaa_types.specs.declared.refusals.Attribute.{Attribute};
ghost use Rattle.text_codec.specs.declared.unread.Unread.{Unread};
ghost use Rattle.text_codec.specs.Formats.{Answers, first_spelled};
ghost use Rattle.drmaa_types.specs.Said.{attribute_name};
ghost use Rattle.text_codec.specs.ValueWords as words;
ghost use Rattle.text_codec.specs.ValueWordLaws as laws;

use crate::{Cursor, Form, Print, Unread};
use drmaa_types::Attribute;
use std::alloc::AllocError;

/// The attributes of the standard that this profile reads and does not support.
pub const ATTRIBUTES: [Attribute; 20] = [
    Attribute::QueueName,
    Attribute::JobCategory,
    Attribute::Email,
    Attribute::EmailOnStarted,
    Attribute::EmailOnTerminated,
    Attribute::CandidateMachines,
    Attribute::MinPhysMemory,
    Attribute::MachineOs,
    Attribute::MachineArch,
    Attribute::StageInFiles,
    Attribute::StageOutFiles,
    Attribute::AccountingId,
    Attribute::UsersAcl,
    Attribute::CoreFileSize,
    Attribute::CpuTime,
    Attribute::DataSize,
    Attribute::FileSize,
    Attribute::OpenFiles,
    Attribute::StackSize,
    Attribute::VirtualMemory,
];

/// The first attribute of the table that is spelled so.
fn first_attribute(word: &[u8]) -> Option<Attribute>
    ensures { result ≡ first_spelled attribute_name ATTRIBUTES word.now }
{
    ATTRIBUTES
        .iter()
        .copied()
        .find(|attribute| attribute.name().as_bytes() == word)
}

/// The attribute that is spelled so. Each attribute has a word, and no two share one.
pub fn attribute_of(word: &[u8]) -> Option<Attribute>
    ensures first { result ≡ first_spelled attribute_name ATTRIBUTES word.now }
    ensures only { (attribute : Attribute) → word.now ≡ attribute_name attribute → result ≡ Some attribute }
{
    first_attribute(word)
}

impl Form for Attribute {
    ghost form = { words.attribute_form };

    ghost laws = { laws.attribute_laws };

    #[tactic(auto, unfolding(crate::specs::ValueWords::attribute_form))]
    fn read(cursor: &mut Cursor) -> Result<Attribute, Unread>
        ensures reads { Answers words.attribute_form.read cursor.old result cursor.new }
        ensures memory { IfErr result (λ e. e ≡ Unread.Unspelled) }
    {
        match attribute_of(cursor.word()) {
            Some(attribute) => Ok(attribute),
            None => Err(Unread::Unspelled),
        }
    }
}

impl Print for Attribute {
    ghost form = { words.attribute_form };

    #[tactic(auto, unfolding(crate::specs::ValueWords::attribute_form), using(crate::specs::ValueWordLaws::attribute_stands))]
    fn push(&self, out: &mut Vec<u8>) -> Result<(), AllocError> {
        out.extend_from_slice(self.name().as_bytes())
    }
}
