//! A text in its quotes: read and printed.
ghost use Rattle.std.specs.Prelude.{◌≡◌, ℕ, List, ◌∷◌, ◌++◌, ◌<◌, IfOk, IfSome, IsSome, IsSomeAnd, IsUtf8, OnOk, string_bytes};
ghost use Rattle.std.specs.List.{flat_map};
ghost use Rattle.text_codec.specs.Lexical.{escaped, quoted, hex_digit};

use crate::escapes::{after, is_control_byte, unit_at};
use drmaa_types::Text;
use std::alloc::{AllocError, Global};

/// Room for a text of usual length in its quotes, in bytes.
const ROOM: usize = 32;

/// The bytes that are spelled up to the closing quote, and what follows it.
fn units(alloc: Global, bytes: &[u8]) -> Result<Option<(Vec<u8>, &[u8])>, AllocError>
    ensures found { IfOk result (λ r. IfSome r (λ q. bytes.now ≡ flat_map escaped q.0.items ++ 34 ∷ q.1.now)) }
    ensures only { (text rest : List ℕ) → bytes.now ≡ flat_map escaped text ++ 34 ∷ rest
        → IfOk result (λ r. IsSomeAnd r (λ q. (q.0.items ≡ text) × (q.1.now ≡ rest))) }
{
    let mut text = Vec::new(alloc);
    let mut rest = bytes;
    while let Some((byte, after)) = unit_at(rest) {
        text.push(byte)?;
        rest = after;
    }
    match after(b'"', rest) {
        Some(after) => Ok(Some((text, after))),
        None => Ok(None),
    }
}

/// The text that is spelled in quotes at the front of these bytes, and what follows it. None exactly where there is none.
pub(crate) fn text_at(alloc: Global, bytes: &[u8]) -> Result<Option<(Text, &[u8])>, AllocError>
    ensures found { IfOk result (λ r. IfSome r (λ q. IsUtf8 q.0 × (bytes.now ≡ quoted q.0 ++ q.1.now))) }
    ensures only { (text rest : List ℕ) → IsUtf8 text → bytes.now ≡ quoted text ++ rest
        → IfOk result (λ r. IsSomeAnd r (λ q. (q.0 ≡ text) × (q.1.now ≡ rest))) }
{
    let Some(inside) = after(b'"', bytes) else {
        return Ok(None);
    };
    let Some((text, rest)) = units(alloc, inside)? else {
        return Ok(None);
    };
    Ok(text_of(text).map(|text| (text, rest)))
}

/// The text of these bytes. None exactly where they are not UTF-8.
fn text_of(bytes: Vec<u8>) -> Option<Text>
    ensures found { IfSome result (λ text. IsUtf8 text × (text ≡ bytes.items)) }
    ensures only { IsUtf8 bytes.items → IsSome result }
{
    let Ok(text) = String::from_utf8(bytes) else {
        return None;
    };
    let text = Text::from_string(text);
    // What is lent as a `&str` is UTF-8, which the contract says.
    let _utf8 = text.as_str();
    Some(text)
}

/// The lower-case hexadecimal digit of a value below 16.
fn hex_of(value: u8) -> u8
    requires { value < 16 }
    ensures { result ≡ hex_digit value }
{
    if value < 10 {
        b'0' + value
    } else {
        b'a' + (value - 10)
    }
}

/// Prints a byte of a text as it is spelled between the quotes.
#[tactic(auto, unfolding(crate::specs::Lexical::escaped))]
fn push_escaped(out: &mut Vec<u8>, byte: u8) -> Result<(), AllocError>
    ensures { OnOk result (out.new.items ≡ out.old.items ++ escaped byte) }
{
    if byte == b'"' {
        out.extend_from_slice(b"\\\"")
    } else if byte == b'\\' {
        out.extend_from_slice(b"\\\\")
    } else if is_control_byte(byte) {
        out.extend_from_slice(&[b'\\', b'x', hex_of(byte / 16), hex_of(byte % 16)])
    } else {
        out.extend_from_slice(&[byte])
    }
}

/// Prints the bytes of a text as they are spelled between the quotes.
fn push_units(out: &mut Vec<u8>, bytes: &[u8]) -> Result<(), AllocError>
    ensures { OnOk result (out.new.items ≡ out.old.items ++ flat_map escaped bytes.now) }
{
    for byte in bytes {
        push_escaped(out, *byte)?;
    }
    Ok(())
}

/// Prints a text in its quotes. After an `Err`, which says that memory ran out, a part of it may have been printed.
pub(crate) fn push_quoted(out: &mut Vec<u8>, text: &Text) -> Result<(), AllocError>
    ensures text { OnOk result (out.new.items ≡ out.old.items ++ quoted text.now) }
    ensures utf8 { IsUtf8 text.now }
{
    let bytes = text.as_str().as_bytes();
    out.extend_from_slice(b"\"")?;
    push_units(out, bytes)?;
    out.extend_from_slice(b"\"")
}

/// A text in its quotes.
///
/// # Errors
///
/// Want of memory.
pub fn quoted(alloc: Global, text: &Text) -> Result<String, AllocError>
    ensures { IfOk result (λ word. string_bytes word ≡ quoted text.now) }
{
    let mut out = Vec::with_capacity(alloc, ROOM)?;
    push_quoted(&mut out, text)?;
    let Ok(word) = String::from_utf8(out) else {
        unreachable!();
    };
    Ok(word)
}
