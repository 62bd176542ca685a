//! Prints the script of a batch.
ghost use Rattle.std.specs.Prelude.{◌≡◌, ◌++◌, ◌∷◌, [], ◌^◌, ◌<◌, IfOk, OnOk, decimal};
ghost use Rattle.text_lines.specs.Lines.{ended};
ghost use Rattle.command_scripts.specs.Asks.{ask_line};
ghost use Rattle.command_scripts.specs.Texts as texts;

use crate::{Batch, Machine};
use drmaa_types::{Bytes, Text};
use std::alloc::{AllocError, Global};
use text_codec::{Print, push_number};

/// What the client asks of each job.
#[derive(Clone, Copy)]
pub(crate) enum Ask {
    /// That it is submitted.
    Run,
    /// That its end is waited for.
    Wait,
    /// For its info.
    Info,
}

/// Prints a number between these bytes.
fn push_between(
    out: &mut Vec<u8>,
    before: &[u8],
    number: u64,
    behind: &[u8],
) -> Result<(), AllocError>
    ensures { OnOk result (out.new.items ≡ out.old.items ++ (before.now ++ decimal number ++ behind.now)) }
{
    out.extend_from_slice(before)?;
    push_number(out, number)?;
    out.extend_from_slice(behind)
}

/// Prints the first line.
#[tactic(auto, unfolding(text_codec::specs::Quotes::text))]
fn push_machine(out: &mut Vec<u8>, machine: &Machine) -> Result<(), AllocError>
    ensures { OnOk result (out.new.items ≡ out.old.items ++ (texts.machine_line machine.now ++ 10 ∷ [])) }
{
    push_between(out, b"machine ", u64::from(machine.slots), b" ")?;
    machine.name.push(out)?;
    out.extend_from_slice(b" suspend\n")
}

/// Prints the template of a command.
#[tactic(auto, unfolding(text_codec::specs::Quotes::text))]
fn push_template(out: &mut Vec<u8>, number: u64, command: &Text) -> Result<(), AllocError>
    ensures { OnOk result (out.new.items ≡ out.old.items ++ ended (texts.template_lines number command.now)) }
{
    let start = b"\ncommand \"sh\"\narg \"-c\"\narg ";
    push_between(out, b"template t", number, start)?;
    command.push(out)?;
    push_between(out, b"\noutput \"out-", number, b".txt\"\n")?;
    push_between(out, b"error \"err-", number, b".txt\"\nend\n")
}

/// Prints the templates of all commands.
fn push_templates(out: &mut Vec<u8>, commands: &[Text]) -> Result<(), AllocError>
    ensures { OnOk result (out.new.items ≡ out.old.items ++ ended (texts.all_templates 1 commands.now)) }
{
    for (i, command) in commands.iter().enumerate() {
        push_template(out, i as u64 + 1, command)?;
    }
    Ok(())
}

/// Prints a line of the client.
fn push_ask(out: &mut Vec<u8>, ask: Ask, number: u64) -> Result<(), AllocError>
    ensures { OnOk result (out.new.items ≡ out.old.items ++ (ask_line ask number ++ 10 ∷ [])) }
{
    match ask {
        Ask::Run => {
            push_between(out, b"run j", number, b" s t")?;
            push_between(out, b"", number, b"\n")
        }
        Ask::Wait => push_between(out, b"wait-terminated s infinite j", number, b"\n"),
        Ask::Info => push_between(out, b"info s j", number, b"\n"),
    }
}

/// Prints a line of the client for each command.
fn push_asks(out: &mut Vec<u8>, ask: Ask, commands: &[Text]) -> Result<(), AllocError>
    ensures { OnOk result (out.new.items ≡ out.old.items ++ ended (texts.for_each (ask_line ask) 1 commands.now)) }
{
    for (i, _command) in commands.iter().enumerate() {
        push_ask(out, ask, i as u64 + 1)?;
    }
    Ok(())
}

/// Prints the client's block.
fn push_client(out: &mut Vec<u8>, commands: &[Text]) -> Result<(), AllocError>
    ensures { OnOk result (out.new.items ≡ out.old.items ++ ended (texts.client_lines commands.now)) }
{
    out.extend_from_slice(b"client\ncreate-jobs s \"commands\"\n")?;
    push_asks(out, Ask::Run, commands)?;
    push_asks(out, Ask::Wait, commands)?;
    push_asks(out, Ask::Info, commands)?;
    out.extend_from_slice(b"end\n")
}

/// Prints the script of a batch. `Err` says that memory ran out.
pub fn print_script(alloc: Global, batch: &Batch) -> Result<Bytes, AllocError>
    ensures { IfOk result (λ bytes. bytes ≡ texts.script_text batch.now) }
{
    let mut out = Vec::new(alloc);
    push_machine(&mut out, &batch.machine)?;
    push_templates(&mut out, batch.commands.as_slice())?;
    push_client(&mut out, batch.commands.as_slice())?;
    Ok(Bytes::from_vec(out))
}
