//! Which environments are in form.
ghost use Rattle.std.specs.Prelude.{◌≡◌};
ghost use Rattle.std.specs.List.{list_all, list_any};
ghost use Rattle.std.specs.Str.{bytes_eq};
ghost use Rattle.job_template.specs.Texts as form;
ghost use Rattle.job_template.specs.Texts.{names_of};

use crate::texts::has_nul;
use drmaa_types::{Pair, PairList, Text};

/// Whether a name is not one of a variable, a name stands twice, or a value has U+0000.
pub fn is_bad_environment(pairs: &PairList) -> bool
    ensures { result ≡ form.is_bad_environment pairs.now }
{
    let pairs = pairs.as_slice();
    !have_good_names(pairs) || has_repeat(pairs) || have_nul(pairs)
}

/// Whether each name is one of a variable.
fn have_good_names(pairs: &[Pair]) -> bool
    ensures { result ≡ list_all form.has_good_name pairs.now }
{
    for pair in pairs {
        if !is_variable(&pair.name) {
            return false;
        }
    }
    true
}

/// Whether some value has U+0000.
fn have_nul(pairs: &[Pair]) -> bool
    ensures { result ≡ list_any form.has_nul_value pairs.now }
{
    for pair in pairs {
        if has_nul(&pair.value) {
            return true;
        }
    }
    false
}

/// Whether a name stands twice.
fn has_repeat(pairs: &[Pair]) -> bool
    ensures { result ≡ form.has_repeat (names_of pairs.now) }
{
    let mut rest = pairs;
    while let Some((first, others)) = rest.split_first() {
        if is_named(&first.name, others) {
            return true;
        }
        rest = others;
    }
    false
}

/// Whether some variable has this name.
fn is_named(name: &Text, pairs: &[Pair]) -> bool
    ensures { result ≡ list_any (bytes_eq name.now) (names_of pairs.now) }
{
    for pair in pairs {
        if *name == pair.name {
            return true;
        }
    }
    false
}

/// Whether a name is one of a variable: a letter or `_`, followed by letters, digits and `_`, all ASCII.
fn is_variable(name: &Text) -> bool
    ensures { result ≡ form.is_variable name.now }
{
    match name.as_str().as_bytes().split_first() {
        Some((first, rest)) => begins_name(*first) && continue_name(rest),
        None => false,
    }
}

fn continue_name(bytes: &[u8]) -> bool
    ensures { result ≡ list_all form.continues_name bytes.now }
{
    for byte in bytes {
        if !continues_name(*byte) {
            return false;
        }
    }
    true
}

fn begins_name(byte: u8) -> bool
    ensures { result ≡ form.begins_name byte }
{
    byte.is_ascii_alphabetic() || byte == b'_'
}

fn continues_name(byte: u8) -> bool
    ensures { result ≡ form.continues_name byte }
{
    begins_name(byte) || byte.is_ascii_digit()
}
