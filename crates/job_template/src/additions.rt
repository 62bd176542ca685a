//! What the steps that make a template add to it, with memory from where it has its own.
ghost use Rattle.std.specs.Prelude.{◌≡◌, ◌++◌, ◌∷◌, [], map, Some, Ok, IfOk, OnOk};

use drmaa_types::{Pair, PairList, Text, TextList};
use std::alloc::{AllocError, Global};

/// The text of these characters.
pub(crate) fn text_of(alloc: Global, characters: &str) -> Result<Text, AllocError>
    ensures { IfOk result (λ text. text ≡ characters.now) }
{
    Ok(Text::from_string(String::from_str(alloc, characters)?))
}

/// Puts the text of these characters behind the others.
pub(crate) fn push_text(texts: &mut TextList, characters: &str) -> Result<(), AllocError>
    ensures { OnOk result (texts.new ≡ texts.old ++ characters.now ∷ []) }
{
    let text = text_of(texts.allocator(), characters)?;
    texts.push(text)
}

/// Puts these texts behind the others, in order.
pub(crate) fn push_texts(texts: &mut TextList, words: &[&str]) -> Result<(), AllocError>
    ensures { OnOk result (texts.new ≡ texts.old ++ map (λ word. word.now) words.now) }
{
    for word in words {
        push_text(texts, word)?;
    }
    Ok(())
}

/// Puts the variable of this name and value behind the others.
pub(crate) fn push_pair(pairs: &mut PairList, name: &str, value: &str) -> Result<(), AllocError>
    ensures { OnOk result (pairs.new ≡ pairs.old ++ (record { name = name.now; value = value.now }) ∷ []) }
{
    let alloc = pairs.allocator();
    let name = text_of(alloc, name)?;
    let value = text_of(alloc, value)?;
    pairs.push(Pair { name, value })
}

/// Puts the text of these characters in place of what stands there.
pub(crate) fn set_text(
    place: &mut Option<Text>,
    alloc: Global,
    characters: &str,
) -> Result<(), AllocError>
    ensures { OnOk result (place.new ≡ Some characters.now) }
{
    *place = Some(text_of(alloc, characters)?);
    Ok(())
}

/// What was added to, where that was done. Else it is let go; that it stays whole until then makes the steps cheap to prove.
pub(crate) fn when_done<T: Drop>(done: Result<(), AllocError>, added: T) -> Result<T, AllocError>
    ensures { IfOk result (λ whole. (whole ≡ added) × (done ≡ Ok tt)) }
{
    match done {
        Ok(()) => Ok(added),
        Err(error) => Err(error),
    }
}
