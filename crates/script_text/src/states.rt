//! The reader of scripts, as an automaton on the lines that are not skipped.
ghost use Rattle.std.specs.Prelude.{◌≡◌, IfOk, Some};
ghost use Rattle.std.specs.Str.{bytes_eq};
ghost use Rattle.text_codec.specs.Formats.{Says};
ghost use Rattle.script_lines.specs.Lines as lines;
ghost use Rattle.script_lines.specs.Templates.{with_field, with_reservation_field};
ghost use Rattle.script_text.specs.Automaton as automaton;
ghost use Rattle.script_text.specs.Scripts as scripts;
ghost use Rattle.script_text.specs.ScriptLaws.{reads_scripts};
ghost use Rattle.script_text.specs.declared.states.Reader.{Reader};

use crate::bindings::is_there;
use crate::follow::may_stand;
use crate::header::{config_of, read_header, read_queue};
use crate::{Block, Keyed, Mode, Script};
use drmaa_types::{Boxed, ListOf, QueueSpec, Shared, are_queues};
use job_template::{JobTemplate, ReservationTemplate};
use script_lines::{
    Draft, JobField, Line, Name, ReservationField, is_reservation_set, is_set, new_reservation,
    read_job_field, read_line, read_reservation_field, with_field, with_reservation_field,
};
use std::alloc::{AllocError, Global};
use std::marker::Model;
use text_codec::{Cursor, Unread};
use text_lines::LineReader;

/// A script, and a name that none of its templates has.
#[derive(Drop)]
pub struct Naming {
    script: Boxed<Script>,
    name: Name,
}

impl Model for Naming {
    ghost use Rattle.std.specs.Prelude.{List, ℕ, ◌≡◌, false};
    ghost use Rattle.script_text.specs.declared.scripts.Script.{Script};
    ghost use Rattle.script_text.specs.Scripts.{is_named};

    ghost Value = { Script × List ℕ };

    ghost view = { λ n. (n.script, n.name) };

    ghost invariant = { λ n. is_named n.script n.name ≡ false };
}

/// What was read so far, of a script for some command. What is large lies in memory of its own, since each line moves it.
#[derive(Drop)]
pub enum Reader {
    /// Nothing.
    Start {
        mode: Mode,
    },
    /// The machine line, and lines of queues behind it.
    Queueing {
        mode: Mode,
        script: Boxed<Script>,
    },
    /// Whole blocks, behind the machine line and those of queues.
    Top {
        mode: Mode,
        script: Boxed<Script>,
    },
    /// A job's template block without its last line, too.
    Filling {
        mode: Mode,
        naming: Naming,
        draft: Boxed<Draft>,
    },
    /// A reservation's template block without its last line, too.
    Reserving {
        mode: Mode,
        naming: Naming,
        template: Boxed<ReservationTemplate>,
    },
    /// The setup block or a client's block without its last line, too.
    Asking {
        mode: Mode,
        script: Boxed<Script>,
        block: Block,
        in_setup: bool,
    },
}

/// Whether a line is these words.
fn is_words(line: &[u8], words: &[u8]) -> bool
    ensures { result ≡ bytes_eq line.now words.now }
{
    line == words
}

#[tactic(auto, unfolding(crate::specs::Automaton::read_header))]
fn after_start(alloc: Global, mode: Mode, line: &[u8]) -> Result<Reader, Unread>
    ensures { Says (automaton.next (Reader.Start mode) line.now) result }
{
    let machine = read_header(alloc, line)?;
    let script = Script {
        config: config_of(alloc, machine),
        jobs: Keyed::new(alloc),
        reservations: Keyed::new(alloc),
        setup: None,
        clients: ListOf::new(alloc),
    };
    let script = Boxed::new(alloc, script)?;
    Ok(Reader::Queueing { mode, script })
}

/// The script with one queue more.
fn with_queue(
    alloc: Global,
    script: Boxed<Script>,
    queue: QueueSpec,
) -> Result<Boxed<Script>, Unread>
    ensures { Says (Some (scripts.with_queue script queue)) result }
{
    let mut script = script.into_inner();
    match script.config.queues.push(queue) {
        Ok(()) => Ok(Boxed::new(alloc, script)?),
        Err(fault) => {
            drop(script);
            Err(fault.into())
        }
    }
}

fn queued(
    alloc: Global,
    mode: Mode,
    script: Boxed<Script>,
    queue: QueueSpec,
) -> Result<Reader, Unread>
    ensures { Says (automaton.queued mode script queue) result }
{
    let script = with_queue(alloc, script, queue)?;
    if are_queues(script.get().config.slots, &script.get().config.queues) {
        Ok(Reader::Queueing { mode, script })
    } else {
        drop(script);
        Err(Unread::Unspelled)
    }
}

fn is_nil(blocks: &[Block]) -> bool
    ensures { result ≡ scripts.is_nil blocks.now }
{
    match blocks {
        [] => true,
        [_, ..] => false,
    }
}

/// Whether no block but templates was read.
fn is_early(script: &Script) -> bool
    ensures { result ≡ scripts.is_early script.now }
{
    script.setup.is_none() && is_nil(script.clients.as_slice())
}

/// Whether a block of lines may begin.
fn may_open(in_setup: bool, script: &Script) -> bool
    ensures { result ≡ scripts.may_open in_setup script.now }
{
    if in_setup {
        is_early(script)
    } else {
        script.clients.as_slice().len() < 32
    }
}

fn begin_block(
    alloc: Global,
    mode: Mode,
    script: Boxed<Script>,
    in_setup: bool,
) -> Result<Reader, Unread>
    ensures { Says (automaton.begin_block mode script in_setup) result }
{
    if may_open(in_setup, script.get()) {
        let block = Block::new(alloc);
        Ok(Reader::Asking {
            mode,
            script,
            block,
            in_setup,
        })
    } else {
        drop(script);
        Err(Unread::Unspelled)
    }
}

fn opened(alloc: Global, mode: Mode, script: Boxed<Script>, line: &[u8]) -> Result<Reader, Unread>
    ensures { Says (automaton.opened mode script line.now) result }
{
    if is_words(line, b"setup") {
        begin_block(alloc, mode, script, true)
    } else if is_words(line, b"client") {
        begin_block(alloc, mode, script, false)
    } else {
        drop(script);
        Err(Unread::Unspelled)
    }
}

/// Whether a template of either kind has this name.
fn is_named(script: &Script, name: &Name) -> bool
    ensures { result ≡ scripts.is_named script.now name.now }
{
    is_there(&script.jobs, name) || is_there(&script.reservations, name)
}

fn named(alloc: Global, mode: Mode, script: Boxed<Script>, name: Name) -> Result<Reader, Unread>
    ensures { Says (automaton.named mode script name) result }
{
    if is_early(script.get()) && !is_named(script.get(), &name) {
        let draft = Boxed::new(alloc, Draft::new(alloc))?;
        let naming = Naming { script, name };
        Ok(Reader::Filling {
            mode,
            naming,
            draft,
        })
    } else {
        drop(script);
        Err(Unread::Unspelled)
    }
}

fn to_reserve(
    alloc: Global,
    mode: Mode,
    script: Boxed<Script>,
    name: Name,
) -> Result<Reader, Unread>
    ensures { Says (automaton.to_reserve mode script name) result }
{
    if is_early(script.get()) && !is_named(script.get(), &name) {
        let template = Boxed::new(alloc, new_reservation(alloc))?;
        let naming = Naming { script, name };
        Ok(Reader::Reserving {
            mode,
            naming,
            template,
        })
    } else {
        drop(script);
        Err(Unread::Unspelled)
    }
}

/// The name that ends a line.
#[tactic(auto, unfolding(crate::specs::Automaton::read_name))]
fn read_name(cursor: &mut Cursor) -> Result<Name, Unread>
    ensures { Says (automaton.read_name cursor.old) result }
{
    let name = text_codec::read_name(cursor)?;
    cursor.end()?;
    Ok(Name::new(name))
}

fn after_top(
    alloc: Global,
    mode: Mode,
    script: Boxed<Script>,
    line: &[u8],
) -> Result<Reader, Unread>
    ensures { Says (automaton.after_top mode script line.now) result }
{
    let mut cursor = Cursor::new(alloc, line);
    if cursor.skip(b"template ") {
        match read_name(&mut cursor) {
            Ok(name) => named(alloc, mode, script, name),
            Err(fault) => {
                drop(script);
                Err(fault)
            }
        }
    } else if cursor.skip(b"rtemplate ") {
        match read_name(&mut cursor) {
            Ok(name) => to_reserve(alloc, mode, script, name),
            Err(fault) => {
                drop(script);
                Err(fault)
            }
        }
    } else {
        opened(alloc, mode, script, line)
    }
}

fn after_queueing(
    alloc: Global,
    mode: Mode,
    script: Boxed<Script>,
    line: &[u8],
) -> Result<Reader, Unread>
    ensures { Says (automaton.next (Reader.Queueing mode script) line.now) result }
{
    let mut cursor = Cursor::new(alloc, line);
    if cursor.skip(b"queue ") {
        match read_queue(&mut cursor) {
            Ok(queue) => queued(alloc, mode, script, queue),
            Err(fault) => {
                drop(script);
                Err(fault)
            }
        }
    } else {
        after_top(alloc, mode, script, line)
    }
}

/// The template with one field more.
fn draft_with(
    alloc: Global,
    draft: Boxed<Draft>,
    field: JobField,
) -> Result<Boxed<Draft>, AllocError>
    ensures { IfOk result (λ d. d ≡ with_field draft field) }
{
    let draft = with_field(draft.into_inner(), field)?;
    Boxed::new(alloc, draft)
}

fn filled(
    alloc: Global,
    mode: Mode,
    naming: Naming,
    draft: Boxed<Draft>,
    field: JobField,
) -> Result<Reader, Unread>
    ensures { Says (automaton.filled mode naming.0 naming.1 draft field) result }
{
    if is_set(draft.get(), &field) {
        drop(field);
        drop(draft);
        drop(naming);
        return Err(Unread::Unspelled);
    }
    match draft_with(alloc, draft, field) {
        Ok(draft) => Ok(Reader::Filling {
            mode,
            naming,
            draft,
        }),
        Err(fault) => {
            drop(naming);
            Err(fault.into())
        }
    }
}

/// What was made so far.
fn template_of(draft: Boxed<Draft>) -> JobTemplate
    ensures { result ≡ draft.template }
{
    let Draft { template, .. } = draft.into_inner();
    template
}

/// The script with one template more.
#[tactic(auto, using(crate::specs::NameLaws::not_there, crate::specs::NameLaws::neither))]
fn with_template(
    alloc: Global,
    naming: Naming,
    template: JobTemplate,
) -> Result<Boxed<Script>, Unread>
    ensures { Says (Some (scripts.with_template naming.0 naming.1 template)) result }
{
    let template = Shared::new(alloc, template)?;
    let Naming { script, name } = naming;
    let mut script = script.into_inner();
    match script.jobs.add(name, template) {
        Ok(()) => Ok(Boxed::new(alloc, script)?),
        Err(fault) => {
            drop(script);
            Err(fault.into())
        }
    }
}

fn after_filling(
    alloc: Global,
    mode: Mode,
    naming: Naming,
    draft: Boxed<Draft>,
    line: &[u8],
) -> Result<Reader, Unread>
    ensures { Says (automaton.next (Reader.Filling mode naming draft) line.now) result }
{
    if is_words(line, b"end") {
        let script = with_template(alloc, naming, template_of(draft))?;
        Ok(Reader::Top { mode, script })
    } else {
        match read_job_field(alloc, line) {
            Ok(field) => filled(alloc, mode, naming, draft, field),
            Err(fault) => {
                drop(draft);
                drop(naming);
                Err(fault)
            }
        }
    }
}

/// The reservation template with one field more.
fn reservation_with(
    alloc: Global,
    template: Boxed<ReservationTemplate>,
    field: ReservationField,
) -> Result<Boxed<ReservationTemplate>, AllocError>
    ensures { IfOk result (λ t. t ≡ with_reservation_field template field) }
{
    let template = with_reservation_field(template.into_inner(), field)?;
    Boxed::new(alloc, template)
}

fn reserved(
    alloc: Global,
    mode: Mode,
    naming: Naming,
    template: Boxed<ReservationTemplate>,
    field: ReservationField,
) -> Result<Reader, Unread>
    ensures { Says (automaton.reserved mode naming.0 naming.1 template field) result }
{
    if is_reservation_set(template.get(), &field) {
        drop(field);
        drop(template);
        drop(naming);
        return Err(Unread::Unspelled);
    }
    match reservation_with(alloc, template, field) {
        Ok(template) => Ok(Reader::Reserving {
            mode,
            naming,
            template,
        }),
        Err(fault) => {
            drop(naming);
            Err(fault.into())
        }
    }
}

/// The script with one reservation template more.
#[tactic(auto, using(crate::specs::NameLaws::not_there, crate::specs::NameLaws::neither))]
fn with_reservation(
    alloc: Global,
    naming: Naming,
    template: Boxed<ReservationTemplate>,
) -> Result<Boxed<Script>, Unread>
    ensures { Says (Some (scripts.with_reservation naming.0 naming.1 template)) result }
{
    let Naming { script, name } = naming;
    let mut script = script.into_inner();
    match script.reservations.add(name, template.into_inner()) {
        Ok(()) => Ok(Boxed::new(alloc, script)?),
        Err(fault) => {
            drop(script);
            Err(fault.into())
        }
    }
}

fn after_reserving(
    alloc: Global,
    mode: Mode,
    naming: Naming,
    template: Boxed<ReservationTemplate>,
    line: &[u8],
) -> Result<Reader, Unread>
    ensures { Says (automaton.next (Reader.Reserving mode naming template) line.now) result }
{
    if is_words(line, b"end") {
        let script = with_reservation(alloc, naming, template)?;
        Ok(Reader::Top { mode, script })
    } else {
        match read_reservation_field(alloc, line) {
            Ok(field) => reserved(alloc, mode, naming, template, field),
            Err(fault) => {
                drop(template);
                drop(naming);
                Err(fault)
            }
        }
    }
}

/// The script with one block more.
fn with_block(
    alloc: Global,
    script: Boxed<Script>,
    block: Block,
    in_setup: bool,
) -> Result<Boxed<Script>, Unread>
    ensures { Says (Some (scripts.with_block script block in_setup)) result }
{
    let mut script = script.into_inner();
    if in_setup {
        script.setup = Some(block);
        return Ok(Boxed::new(alloc, script)?);
    }
    match script.clients.push(block) {
        Ok(()) => Ok(Boxed::new(alloc, script)?),
        Err(fault) => {
            drop(script);
            Err(fault.into())
        }
    }
}

/// With the line that these bytes spell.
fn asked(
    mode: Mode,
    script: Boxed<Script>,
    block: Block,
    in_setup: bool,
    text: &[u8],
    line: &Line,
) -> Result<Reader, Unread>
    requires { lines.read_line text.now ≡ Some line.now }
    ensures { Says (automaton.asked mode script block in_setup line.now) result }
{
    if may_stand(mode, in_setup, script.get(), &block, line) {
        match block.with(text, line) {
            Ok(block) => Ok(Reader::Asking {
                mode,
                script,
                block,
                in_setup,
            }),
            Err(fault) => {
                drop(script);
                Err(fault.into())
            }
        }
    } else {
        drop(block);
        drop(script);
        Err(Unread::Unspelled)
    }
}

fn after_asking(
    alloc: Global,
    mode: Mode,
    script: Boxed<Script>,
    block: Block,
    in_setup: bool,
    line: &[u8],
) -> Result<Reader, Unread>
    ensures { Says (automaton.next (Reader.Asking mode script block in_setup) line.now) result }
{
    if is_words(line, b"end") {
        let script = with_block(alloc, script, block, in_setup)?;
        Ok(Reader::Top { mode, script })
    } else {
        match read_line(alloc, line) {
            Ok(said) => {
                let next = asked(mode, script, block, in_setup, line, &said);
                drop(said);
                next
            }
            Err(fault) => {
                drop(block);
                drop(script);
                Err(fault)
            }
        }
    }
}

impl LineReader for Reader {
    type Read = Script;

    ghost stepping = { automaton.scripts_stepping };

    ghost reads = { reads_scripts };

    fn next(self, alloc: Global, line: &[u8]) -> Result<Reader, Unread> {
        match self {
            Reader::Start { mode } => after_start(alloc, mode, line),
            Reader::Queueing { mode, script } => after_queueing(alloc, mode, script, line),
            Reader::Top { mode, script } => after_top(alloc, mode, script, line),
            Reader::Filling {
                mode,
                naming,
                draft,
            } => after_filling(alloc, mode, naming, draft, line),
            Reader::Reserving {
                mode,
                naming,
                template,
            } => after_reserving(alloc, mode, naming, template, line),
            Reader::Asking {
                mode,
                script,
                block,
                in_setup,
            } => after_asking(alloc, mode, script, block, in_setup, line),
        }
    }

    fn ends(self) -> Option<Script> {
        match self {
            Reader::Queueing { script, .. } | Reader::Top { script, .. } => Some(
                script.into_inner(),
            ),
            other => {
                drop(other);
                None
            }
        }
    }
}
