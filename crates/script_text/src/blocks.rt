//! The lines of a block, with the names that they bind.
ghost use Rattle.std.specs.Prelude.{◌≡◌, ◌+◌, ◌<◌, [], ◌∷◌, ◌++◌, length, drop, Some, is_some, IfOk, option_copied, true};
ghost use Rattle.script_lines.specs.Lines as lines;
ghost use Rattle.script_lines.specs.declared.lines.Line.{Line};
ghost use Rattle.script_text.specs.Follows.{is_register};
ghost use Rattle.script_text.specs.Names as names;

use crate::keyed::Keyed;
use crate::packed::PackedLines;
use script_lines::{Line, Name, read_line};
use std::alloc::{AllocError, Global};
use std::marker::Model;
use text_codec::Unread;

/// What a name is bound to.
#[derive(Clone, Copy, Debug, PartialEq, Eq)]
pub enum Kind {
    Session,
    Job,
    /// An array whose members have the indices `begin`, `begin` plus `step` and so on, up to `end`.
    Array { begin: u32, end: u32, step: u32 },
    Reservation,
}

/// Lines, in order. Contracts see the list of them; what is kept are the bytes that spell them, and a line is read again where
/// it is wanted. The names that they bind are looked up.
pub struct Block {
    alloc: Global,
    texts: PackedLines,
    names: Keyed<Kind>,
}

// By hand, so that how its parts are let go is proved here once, and not again in each crate that lets one go.
impl Drop for Block {
    fn drop(self) {
        let Block {
            alloc: _,
            texts: _,
            names: _,
        } = self;
    }
}

impl Model for Block {
    ghost use Rattle.std.specs.Prelude.{List, ◌≡◌};
    ghost use Rattle.script_lines.specs.declared.lines.Line.{Line};
    ghost use Rattle.script_text.specs.Names.{names_of};
    ghost use Rattle.script_text.specs.BlockTexts.{said, AreLines};

    ghost Value = { List Line };

    ghost view = { λ b. said b.texts };

    ghost invariant = { λ b. AreLines b.texts × (b.names ≡ names_of (said b.texts)) };
}

/// What a line binds its name to. None where it binds none.
pub fn binding(line: &Line) -> Result<Option<(Name, Kind)>, AllocError>
    ensures { IfOk result (λ b. b ≡ names.binds line.now) }
{
    match line {
        Line::CreateJobs { name, .. }
        | Line::CreateReservations { name, .. }
        | Line::OpenJobs { name, .. }
        | Line::OpenReservations { name, .. }
        | Line::Monitor { name } => Ok(Some((name.clone()?, Kind::Session))),
        Line::Run { name, .. } => Ok(Some((name.clone()?, Kind::Job))),
        Line::Bulk {
            name,
            begin,
            end,
            step,
            ..
        } => Ok(Some((
            name.clone()?,
            Kind::Array {
                begin: *begin,
                end: *end,
                step: *step,
            },
        ))),
        Line::Reserve { name, .. } => Ok(Some((name.clone()?, Kind::Reservation))),
        _ => Ok(None),
    }
}

/// The names with one more, which is new, where there is one.
#[tactic(auto, using(crate::specs::NameLaws::unbound_none))]
fn with_binding(
    bound: Keyed<Kind>,
    binding: Option<(Name, Kind)>,
) -> Result<Keyed<Kind>, AllocError>
    requires { names.is_new bound binding ≡ true }
    ensures { IfOk result (λ longer. longer ≡ bound ++ names.onto binding []) }
{
    let mut bound = bound;
    match binding {
        Some((name, kind)) => {
            bound.add(name, kind)?;
            Ok(bound)
        }
        None => Ok(bound),
    }
}

/// The line that these bytes spell.
fn line_of(alloc: Global, text: &[u8]) -> Result<Line, AllocError>
    requires { is_some (lines.read_line text.now) ≡ true }
    ensures { IfOk result (λ line. lines.read_line text.now ≡ Some line) }
{
    match read_line(alloc, text) {
        Ok(line) => Ok(line),
        Err(Unread::OutOfMemory) => Err(AllocError),
        Err(Unread::Unspelled) => unreachable!(),
    }
}

impl Block {
    /// No line; it takes no memory.
    pub fn new(alloc: Global) -> Block
        ensures { result ≡ [] }
    {
        Block {
            alloc,
            texts: PackedLines::new(alloc),
            names: Keyed::new(alloc),
        }
    }

    /// How many lines there are.
    pub fn len(&self) -> usize
        ensures { result ≡ length self.now }
    {
        self.texts.len()
    }

    /// The line at a place, counted from 0; it is read anew.
    ///
    /// # Errors
    /// `AllocError` where memory is wanted.
    pub fn line(&self, place: usize) -> Result<Line, AllocError>
        requires { place < length self.now }
        ensures { IfOk result (λ line. drop place self.now ≡ line ∷ drop (place + 1) self.now) }
    {
        line_of(self.alloc, self.texts.get(place))
    }

    /// Whether the line at a place, counted from 0, registers a callback; it is looked at as it is spelled.
    pub fn registers_at(&self, place: usize) -> bool
        requires { place < length self.now }
        ensures { (line : Line) × (drop place self.now ≡ line ∷ drop (place + 1) self.now) × (result ≡ is_register line) }
    {
        self.texts.get(place) == b"register".as_slice()
    }

    /// What a name is bound to by these lines.
    pub fn bound(&self, name: &Name) -> Option<&Kind>
        ensures { option_copied result ≡ names.bound name.now self.now }
    {
        self.names.find(name)
    }

    /// The lines with one line more, which these bytes spell, and which binds no name that is bound.
    ///
    /// # Errors
    /// `AllocError` where memory is wanted, or all lines would have more than 4,294,967,295 bytes.
    pub fn with(self, text: &[u8], line: &Line) -> Result<Block, AllocError>
        requires spelled { lines.read_line text.now ≡ Some line.now }
        requires free { names.is_free self line.now ≡ true }
        ensures { IfOk result (λ longer. longer ≡ self ++ line.now ∷ []) }
    {
        let binding = binding(line)?;
        let Block {
            alloc,
            texts,
            names: bound,
        } = self;
        let names = with_binding(bound, binding)?;
        let texts = texts.with(text)?;
        Ok(Block {
            alloc,
            texts,
            names,
        })
    }
}
