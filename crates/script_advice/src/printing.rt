//! What is written of warnings.
ghost use Rattle.std.specs.Prelude.{◌≡◌, ◌++◌, IfOk, OnOk, string_bytes};
ghost use Rattle.std.specs.List.{flat_map};
ghost use Rattle.script_advice.specs.WarningTexts as texts;

use crate::finding::warnings;
use crate::warning_kinds::{Place, Warning};
use drmaa_types::Text;
use itoa::Buffer;
use script_lines::Name;
use script_text::Script;
use std::alloc::{AllocError, Global};

/// Writes where a line stands.
fn push_place(out: &mut String, place: Place) -> Result<(), AllocError>
    ensures { OnOk result (string_bytes out.new ≡ string_bytes out.old ++ texts.place_text place) }
{
    let mut digits = Buffer::new();
    match place {
        Place::Setup => out.push_str("setup"),
        Place::Client(number) => {
            out.push_str("client ")?;
            out.push_str(digits.format(number))
        }
    }
}

/// Writes a line of a place and a name.
fn push_line(
    out: &mut String,
    place: Place,
    before: &str,
    name: &Name,
    behind: &str,
) -> Result<(), AllocError>
    ensures { OnOk result (string_bytes out.new ≡ string_bytes out.old ++ (texts.place_text place ++ (before.now ++ (name.now ++ behind.now)))) }
{
    push_place(out, place)?;
    out.push_str(before)?;
    out.push_str(name.text().as_str())?;
    out.push_str(behind)
}

/// Writes the line of a warning.
fn push_warning(out: &mut String, warning: &Warning) -> Result<(), AllocError>
    ensures { OnOk result (string_bytes out.new ≡ string_bytes out.old ++ texts.warning_line warning.now) }
{
    match warning {
        Warning::Unwaited { place, name } => push_line(
            out,
            *place,
            ": nobody waits for ",
            name,
            ", or reaps it\n",
        ),
        Warning::Endless { place, name } => push_line(
            out,
            *place,
            ": waits without end for ",
            name,
            ", which stays held\n",
        ),
    }
}

/// Writes the lines of warnings.
fn push_warnings(out: &mut String, found: &[Warning]) -> Result<(), AllocError>
    ensures { OnOk result (string_bytes out.new ≡ string_bytes out.old ++ flat_map texts.warning_line found.now) }
{
    for warning in found {
        push_warning(out, warning)?;
    }
    Ok(())
}

/// The lines of warnings, or that there are none.
fn print_warnings(alloc: Global, found: &[Warning]) -> Result<String, AllocError>
    ensures { IfOk result (λ text. string_bytes text ≡ texts.warnings_text found.now) }
{
    let mut out = String::new(alloc);
    if found.is_empty() {
        out.push_str("no warnings\n")?;
    } else {
        push_warnings(&mut out, found)?;
    }
    Ok(out)
}

/// What is written of a script: a line for each warning, or `no warnings`.
///
/// # Errors
/// `AllocError` where memory is wanted.
pub fn lint(alloc: Global, script: &Script) -> Result<Text, AllocError>
    ensures { IfOk result (λ text. text ≡ texts.lint_text script.now) }
{
    let found = warnings(alloc, script)?;
    let text = print_warnings(alloc, found.as_slice())?;
    Ok(Text::from_string(text))
}
