//! The bytes of a text as they are spelled between its quotes.
ghost use Rattle.std.specs.Prelude.{◌≡◌, ℕ, List, ◌++◌, option_map, IfSome, IsSomeAnd};
ghost use Rattle.text_codec.specs.Lexical.{is_control, escaped};
ghost use Rattle.text_codec.specs.Units as reading;

/// The value of a lower-case hexadecimal digit.
fn hex_value(digit: u8) -> Option<u8>
    ensures { result ≡ reading.hex_value digit }
{
    match digit {
        b'0'..=b'9' => Some(digit - b'0'),
        b'a'..=b'f' => Some(digit - b'a' + 10),
        _ => None,
    }
}

/// Whether a byte is a control character.
pub(crate) fn is_control_byte(byte: u8) -> bool
    ensures { result ≡ is_control byte }
{
    byte < 32 || byte == 127
}

/// The first byte, and those after it.
pub(crate) fn uncons(bytes: &[u8]) -> Option<(u8, &[u8])>
    ensures { option_map (λ p. (p.0, p.1.now)) result ≡ reading.uncons bytes.now }
{
    let (first, rest) = bytes.split_first()?;
    Some((*first, rest))
}

/// What follows this byte, where it stands at the front.
pub(crate) fn after(byte: u8, bytes: &[u8]) -> Option<&[u8]>
    ensures { option_map (λ rest. rest.now) result ≡ reading.after byte bytes.now }
{
    let (first, rest) = uncons(bytes)?;
    if first == byte { Some(rest) } else { None }
}

/// The control character that two hexadecimal digits spell.
fn control(high: u8, low: u8) -> Option<u8>
    ensures { result ≡ reading.control high low }
{
    let high = hex_value(high)?;
    let low = hex_value(low)?;
    let byte = high * 16 + low;
    if is_control_byte(byte) {
        Some(byte)
    } else {
        None
    }
}

/// What stands behind `\x`, and what follows.
fn control_at(bytes: &[u8]) -> Option<(u8, &[u8])>
    ensures { option_map (λ p. (p.0, p.1.now)) result ≡ reading.control_at bytes.now }
{
    let (high, rest) = uncons(bytes)?;
    let (low, rest) = uncons(rest)?;
    let byte = control(high, low)?;
    Some((byte, rest))
}

/// What stands behind a backslash, and what follows.
fn escape_at(bytes: &[u8]) -> Option<(u8, &[u8])>
    ensures { option_map (λ p. (p.0, p.1.now)) result ≡ reading.escape_at bytes.now }
{
    let (kind, rest) = uncons(bytes)?;
    if kind == b'"' || kind == b'\\' {
        Some((kind, rest))
    } else if kind == b'x' {
        control_at(rest)
    } else {
        None
    }
}

/// The byte that the front spells, and what follows.
fn unit_by_cases(bytes: &[u8]) -> Option<(u8, &[u8])>
    ensures { option_map (λ p. (p.0, p.1.now)) result ≡ reading.unit_at bytes.now }
{
    let (first, rest) = uncons(bytes)?;
    if first == b'\\' {
        escape_at(rest)
    } else if first == b'"' || is_control_byte(first) {
        None
    } else {
        Some((first, rest))
    }
}

/// The byte of a text that the front of these bytes spells, and what follows. None exactly where there is none.
pub(crate) fn unit_at(bytes: &[u8]) -> Option<(u8, &[u8])>
    ensures found { IfSome result (λ unit. bytes.now ≡ escaped unit.0 ++ unit.1.now) }
    ensures only { (byte : ℕ) (rest : List ℕ) → bytes.now ≡ escaped byte ++ rest
        → IsSomeAnd result (λ unit. (unit.0 ≡ byte) × (unit.1.now ≡ rest)) }
{
    unit_by_cases(bytes)
}
