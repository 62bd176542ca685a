//! The pieces of SVG: attributes, boxes, and text that is not taken for markup.
ghost use Rattle.std.specs.Prelude.{◌≡◌, ◌++◌, OnOk, string_bytes};
ghost use Rattle.run_chart.specs.Shapes as shapes;

use itoa::Buffer;
use std::alloc::AllocError;

/// A box, in hundredths of a pixel.
#[derive(Clone, Copy)]
pub struct Area {
    pub x: u64,
    pub y: u128,
    pub width: u64,
    pub height: u128,
}

/// Writes a number.
#[tactic(auto, unfolding(crate::specs::Shapes::number))]
pub(crate) fn push_number(out: &mut String, number: u128) -> Result<(), AllocError>
    ensures { OnOk result (string_bytes out.new ≡ string_bytes out.old ++ shapes.number number) }
{
    let mut digits = Buffer::new();
    out.push_str(digits.format(number))
}

/// Writes an attribute that is a number.
#[tactic(auto, unfolding(crate::specs::Shapes::attribute))]
pub(crate) fn push_attribute(out: &mut String, name: &str, number: u128) -> Result<(), AllocError>
    ensures { OnOk result (string_bytes out.new ≡ string_bytes out.old ++ shapes.attribute name.now number) }
{
    out.push_str(" ")?;
    out.push_str(name)?;
    out.push_str("=\"")?;
    push_number(out, number)?;
    out.push_str("\"")
}

/// Writes a box.
#[tactic(auto, unfolding(crate::specs::Shapes::box_text))]
pub(crate) fn push_box(out: &mut String, area: Area) -> Result<(), AllocError>
    ensures { OnOk result (string_bytes out.new ≡ string_bytes out.old ++ shapes.box_text area) }
{
    out.push_str("<rect")?;
    push_attribute(out, "x", u128::from(area.x))?;
    push_attribute(out, "y", area.y)?;
    push_attribute(out, "width", u128::from(area.width))?;
    push_attribute(out, "height", area.height)?;
    out.push_str("/>")
}

/// Writes a character of a text.
fn push_char(out: &mut String, c: char) -> Result<(), AllocError>
    ensures { OnOk result (string_bytes out.new ≡ string_bytes out.old ++ shapes.escaped_char c) }
{
    match c {
        '&' => out.push_str("&amp;"),
        '<' => out.push_str("&lt;"),
        '>' => out.push_str("&gt;"),
        '"' => out.push_str("&quot;"),
        _ if is_written(c) => out.push(c),
        _ => Ok(()),
    }
}

/// Whether a character is written at all: no control character is, and none that XML has not.
fn is_written(c: char) -> bool
    ensures { result ≡ shapes.is_written c }
{
    let code = u32::from(c);
    32 <= code && !(127 <= code && code <= 159) && code != 65_534 && code != 65_535
}

/// Writes a text so that it is not taken for markup.
pub(crate) fn push_escaped(out: &mut String, text: &str) -> Result<(), AllocError>
    ensures { OnOk result (string_bytes out.new ≡ string_bytes out.old ++ shapes.escaped text.now) }
{
    for c in text.chars() {
        push_char(out, c)?;
    }
    Ok(())
}
