//! What a member of an array is run with: its index stands for the placeholder.
ghost use Rattle.std.specs.Prelude.{◌≡◌, map, IfOk, IfErr};
ghost use Rattle.std.specs.Option.{option_map};
ghost use Rattle.job_template.specs.Expand.{expanded, replaced, with_texts, with_value};
ghost use Rattle.job_template.specs.Parts.{paths_with};

use crate::JobTemplate;
use crate::copies::{Paths, assembled, copied_common};
use drmaa_types::{Pair, PairList, Refusal, Text, TextList};
use std::alloc::{AllocError, Global};

/// What stands for the index of a member in the texts of an array's template.
const PLACEHOLDER: &str = "$DRMAA2_INDEX$";

/// The template of the member of an array with this index: in the arguments, the environment's values, the working
/// directory and the paths of input, output and error the index in decimal stands in place of each placeholder,
/// from left to right, and the digits are not looked at again.
///
/// # Errors
/// Want of memory alone.
pub fn expand(alloc: Global, t: &JobTemplate, index: u32) -> Result<JobTemplate, Refusal>
    ensures expanded { IfOk result (λ member. member ≡ expanded index t.now) }
    ensures err { IfErr result (λ why. why ≡ Refusal.OutOfMemory) }
{
    member(alloc, t, index).map_err(|_| Refusal::OutOfMemory)
}

fn member(alloc: Global, t: &JobTemplate, index: u32) -> Result<JobTemplate, AllocError>
    ensures { IfOk result (λ member. member ≡ expanded index t.now) }
{
    let digits = format!(in alloc; "{index}")?;
    with_digits(alloc, t, digits.as_str())
}

fn with_digits(alloc: Global, t: &JobTemplate, digits: &str) -> Result<JobTemplate, AllocError>
    ensures { IfOk result (λ member. member ≡ with_texts (replaced digits.now 0) t.now) }
{
    let args = expanded_texts(alloc, &t.args, digits)?;
    let environment = expanded_pairs(alloc, &t.job_environment, digits)?;
    let paths = expanded_paths(alloc, t, digits)?;
    let common = copied_common(t)?;
    Ok(assembled(t, common, paths, args, environment))
}

fn expanded_paths(alloc: Global, t: &JobTemplate, digits: &str) -> Result<Paths, AllocError>
    ensures { IfOk result (λ paths. paths ≡ paths_with (replaced digits.now 0) t.now) }
{
    Ok(Paths {
        working_directory: expanded_option(alloc, &t.working_directory, digits)?,
        input_path: expanded_option(alloc, &t.input_path, digits)?,
        output_path: expanded_option(alloc, &t.output_path, digits)?,
        error_path: expanded_option(alloc, &t.error_path, digits)?,
    })
}

fn expanded_texts(alloc: Global, texts: &TextList, digits: &str) -> Result<TextList, AllocError>
    ensures { IfOk result (λ copy. copy ≡ map (replaced digits.now 0) texts.now) }
{
    let mut copy = Vec::new(alloc);
    for text in texts.as_slice() {
        copy.push(expanded_text(alloc, text, digits)?)?;
    }
    Ok(TextList::from_vec(copy))
}

/// The names of the variables stay as they are.
fn expanded_pairs(alloc: Global, pairs: &PairList, digits: &str) -> Result<PairList, AllocError>
    ensures { IfOk result (λ copy. copy ≡ map (with_value (replaced digits.now 0)) pairs.now) }
{
    let mut copy = Vec::new(alloc);
    for pair in pairs.as_slice() {
        copy.push(Pair {
            name: pair.name.clone()?,
            value: expanded_text(alloc, &pair.value, digits)?,
        })?;
    }
    Ok(PairList::from_vec(copy))
}

fn expanded_option(
    alloc: Global,
    text: &Option<Text>,
    digits: &str,
) -> Result<Option<Text>, AllocError>
    ensures { IfOk result (λ copy. copy ≡ option_map (replaced digits.now 0) text.now) }
{
    match text {
        Some(text) => Ok(Some(expanded_text(alloc, text, digits)?)),
        None => Ok(None),
    }
}

/// The text with the digits in place of each placeholder.
fn expanded_text(alloc: Global, text: &Text, digits: &str) -> Result<Text, AllocError>
    ensures { IfOk result (λ copy. copy ≡ replaced digits.now 0 text.now) }
{
    let copy = text.as_str().replace(alloc, PLACEHOLDER, digits)?;
    Ok(Text::from_string(copy))
}
