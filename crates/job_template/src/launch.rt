//! The words that a launch hands to a spawner.
ghost use Rattle.std.specs.Prelude.{◌≡◌, [], ◌∷◌, ◌++◌, decimal, IfOk, IfErr, OnOk};
ghost use Rattle.job_template.specs.Launch.{command_words, environment_words, join_word, launch_words, pair_word, path_word, path_words};

use crate::JobTemplate;
use drmaa_types::{Pair, Refusal, Text, TextList};
use std::alloc::{AllocError, Global};

/// The words of a launch, in order: the working directory and the paths of input, output and error, each the
/// empty text where it is unset; `join` or `apart`; the number of environment pairs in decimal; each pair as
/// `NAME=VALUE`; the command; its arguments.
///
/// # Errors
/// Want of memory alone.
pub fn launch_words(alloc: Global, t: &JobTemplate) -> Result<TextList, Refusal>
    ensures words { IfOk result (λ words. words ≡ launch_words t.now) }
    ensures err { IfErr result (λ why. why ≡ Refusal.OutOfMemory) }
{
    collected_words(alloc, t).map_err(|_| Refusal::OutOfMemory)
}

fn collected_words(alloc: Global, t: &JobTemplate) -> Result<TextList, AllocError>
    ensures { IfOk result (λ words. words ≡ launch_words t.now) }
{
    let mut words = Vec::new(alloc);
    push_paths(alloc, &mut words, t)?;
    let join = if t.join_files { "join" } else { "apart" };
    words.push(word(alloc, join)?)?;
    push_environment(alloc, &mut words, t)?;
    push_command(&mut words, t)?;
    Ok(TextList::from_vec(words))
}

/// Adds the working directory and the paths.
fn push_paths(alloc: Global, words: &mut Vec<Text>, t: &JobTemplate) -> Result<(), AllocError>
    ensures { OnOk result (words.new.items ≡ words.old.items ++ path_words t.now) }
{
    words.push(path_word(alloc, &t.working_directory)?)?;
    words.push(path_word(alloc, &t.input_path)?)?;
    words.push(path_word(alloc, &t.output_path)?)?;
    words.push(path_word(alloc, &t.error_path)?)?;
    Ok(())
}

/// Adds the number of environment pairs, and the pairs.
fn push_environment(alloc: Global, words: &mut Vec<Text>, t: &JobTemplate) -> Result<(), AllocError>
    ensures { OnOk result (words.new.items ≡ words.old.items ++ environment_words t.now) }
{
    let pairs = t.job_environment.as_slice();
    words.push(number_word(alloc, pairs.len())?)?;
    for pair in pairs {
        words.push(pair_word(alloc, pair)?)?;
    }
    Ok(())
}

/// Adds the command and its arguments.
fn push_command(words: &mut Vec<Text>, t: &JobTemplate) -> Result<(), AllocError>
    ensures { OnOk result (words.new.items ≡ words.old.items ++ command_words t.now) }
{
    words.push(t.remote_command.clone()?)?;
    for arg in t.args.as_slice() {
        words.push(arg.clone()?)?;
    }
    Ok(())
}

/// A path, and the empty text where it is unset.
fn path_word(alloc: Global, path: &Option<Text>) -> Result<Text, AllocError>
    ensures { IfOk result (λ text. text ≡ path_word path.now) }
{
    match path {
        Some(path) => path.clone(),
        None => word(alloc, ""),
    }
}

/// `NAME=VALUE`.
fn pair_word(alloc: Global, pair: &Pair) -> Result<Text, AllocError>
    ensures { IfOk result (λ text. text ≡ pair_word pair.now) }
{
    let name = pair.name.as_str();
    let value = pair.value.as_str();
    Ok(Text::from_string(format!(in alloc; "{name}={value}")?))
}

/// A number in decimal.
fn number_word(alloc: Global, number: usize) -> Result<Text, AllocError>
    ensures { IfOk result (λ text. text ≡ decimal number) }
{
    Ok(Text::from_string(format!(in alloc; "{number}")?))
}

/// A word of ours.
fn word(alloc: Global, bytes: &str) -> Result<Text, AllocError>
    ensures { IfOk result (λ text. text ≡ bytes.now) }
{
    Ok(Text::from_string(String::from_str(alloc, bytes)?))
}
