//! Values that are printed in one form.
ghost use Rattle.std.specs.Prelude.{◌≡◌, ◌∷◌, [], ◌++◌, ◌^◌, ◌<◌, List, ℕ, OnOk, decimal, length, slice_set};
ghost use Rattle.std.specs.List.{AllByRecursion};
ghost use Rattle.text_codec.specs.Formats.{Format};
ghost use Rattle.text_codec.specs.Formats as form;
ghost use Rattle.text_codec.specs.Fields as fields;
ghost use Rattle.text_codec.specs.Braces.{braced};

use itoa::Buffer;
use std::alloc::AllocError;

/// A value that is printed in one form, whatever it is.
pub trait Print {
    /// The form.
    ghost form: { Format Self };

    /// Prints the value.
    fn push(&self, out: &mut Vec<u8>) -> Result<(), AllocError>
        ensures text { OnOk result (out.new.items ≡ out.old.items ++ form.spell self.now) }
        ensures valid { OnOk result (form.valid self.now) };
}

/// Prints values, each behind a key.
pub fn push_each<T: Print>(out: &mut Vec<u8>, key: &[u8], values: &[T]) -> Result<(), AllocError>
    ensures text { OnOk result (out.new.items ≡ out.old.items ++ form.spell_each key.now T.form.spell values.now) }
    ensures valid { OnOk result (AllByRecursion T.form.valid values.now) }
{
    for value in values {
        out.extend_from_slice(key)?;
        value.push(out)?;
    }
    Ok(())
}

/// Prints a value behind a key.
pub fn push_behind<T: Print>(out: &mut Vec<u8>, key: &[u8], value: &T) -> Result<(), AllocError>
    ensures text { OnOk result (out.new.items ≡ out.old.items ++ (key.now ++ T.form.spell value.now)) }
    ensures valid { OnOk result (T.form.valid value.now) }
{
    out.extend_from_slice(key)?;
    value.push(out)
}

/// Prints a value behind a key, where there is one.
pub fn push_set<T: Print>(
    out: &mut Vec<u8>,
    key: &[u8],
    value: &Option<T>,
) -> Result<(), AllocError>
    ensures text { OnOk result (out.new.items ≡ out.old.items ++ fields.spell_set key.now T.form.spell value.now) }
    ensures valid { OnOk result (form.valid_or T.form.valid value.now) }
{
    match value {
        Some(value) => {
            out.extend_from_slice(key)?;
            value.push(out)
        }
        None => Ok(()),
    }
}

/// Prints a list in brackets.
#[tactic(auto, unfolding(crate::specs::Formats::list_of))]
pub fn push_list<T: Print>(out: &mut Vec<u8>, values: &[T]) -> Result<(), AllocError>
    ensures text { OnOk result (out.new.items ≡ out.old.items ++ (form.list_of T.form).spell values.now) }
    ensures valid { OnOk result ((form.list_of T.form).valid values.now) }
{
    let Some((first, others)) = values.split_first() else {
        return out.extend_from_slice(b"[]");
    };
    out.extend_from_slice(b"[")?;
    first.push(out)?;
    push_each(out, b" ", others)?;
    out.extend_from_slice(b"]")
}

/// Writes a byte in place of another.
fn put_over(out: &mut Vec<u8>, at: usize, byte: u8)
    requires { at < length out.old.items }
    ensures { out.new.items ≡ slice_set out.old.items at byte }
{
    out[at] = byte;
}

/// Prints braces round the fields that were printed from `start` on: the opening one in place of the space before the
/// first. Both stand behind what was printed before where there is no field.
pub fn push_braces(out: &mut Vec<u8>, start: usize) -> Result<(), AllocError>
    ensures { (front spelled : List ℕ) → out.old.items ≡ front ++ spelled → start ≡ length front
        → OnOk result (out.new.items ≡ front ++ braced spelled) }
{
    if start >= out.len() {
        return out.extend_from_slice(b"{}");
    }
    put_over(out, start, b'{');
    out.extend_from_slice(b"}")
}

/// Prints a key that stands where it is set.
pub fn push_mark(out: &mut Vec<u8>, key: &[u8], is_set: bool) -> Result<(), AllocError>
    ensures { OnOk result (out.new.items ≡ out.old.items ++ fields.spell_flag key.now is_set) }
{
    if is_set {
        out.extend_from_slice(key)
    } else {
        Ok(())
    }
}

/// Prints a number in decimal digits. `Err` says that memory ran out.
pub fn push_number(out: &mut Vec<u8>, number: u64) -> Result<(), AllocError>
    ensures text { OnOk result (out.new.items ≡ out.old.items ++ decimal number) }
    ensures small { number < 2 ^ 64 }
{
    let mut buffer = Buffer::new();
    out.extend_from_slice(buffer.format(number).as_bytes())
}
