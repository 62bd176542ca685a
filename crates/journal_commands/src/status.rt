//! How a run ends.
ghost use Rattle.std.specs.Prelude.{◌≡◌};
ghost use Rattle.journal_commands.specs.Statuses.{status_of, ended_as};

use drmaa_model::Reply;
use std::fmt;
use text_lines::TextFault;

/// How a run ends. The statuses have the numbers 0 to 7 in this order.
#[derive(Drop)]
pub enum Status {
    /// What the command writes was written.
    Done,
    /// The text is not in its grammar: the number, from 1, of the first line after which no text goes on.
    Text {
        line: u64,
    },
    /// The words are no command, or a script has more `register` lines than there are callbacks.
    Words,
    /// A read of the source failed.
    ReadFault,
    /// A write to the sink failed.
    WriteFault,
    /// Memory ran out.
    Memory,
    /// The play stopped before a step after which the journal would have had this size, which is above the greatest. The
    /// journal of the entries made was written.
    JournalFull {
        size: u64,
    },
    /// The journal is not legal: the number, from 1, of its first entry that is no step, the reply that it has, and the
    /// machine's at its place. None where the machine makes no entry there, or its journal would be too large.
    NotLegal {
        entry: u64,
        given: Reply,
        machine: Option<Reply>,
    },
}

/// Why no text was read, as a status.
pub fn status_of(fault: TextFault) -> Status
    ensures { result ≡ status_of fault }
{
    match fault {
        TextFault::Line(line) => Status::Text { line },
        TextFault::OutOfMemory => Status::Memory,
    }
}

/// How a play or a command ends that came to its end, or was stopped by this size of the journal.
pub fn ended_as(full: Option<u64>) -> Status
    ensures { result ≡ ended_as full }
{
    match full {
        Some(size) => Status::JournalFull { size },
        None => Status::Done,
    }
}

impl Status {
    ghost use Rattle.journal_commands.specs.Statuses.{status_number};

    /// The number with which the program ends.
    pub fn number(&self) -> u8
        ensures { result ≡ status_number self.now }
    {
        match self {
            Status::Done => 0,
            Status::Text { .. } => 1,
            Status::Words => 2,
            Status::ReadFault => 3,
            Status::WriteFault => 4,
            Status::Memory => 5,
            Status::JournalFull { .. } => 6,
            Status::NotLegal { .. } => 7,
        }
    }
}

impl fmt::Display for Status {
    ghost use Rattle.std.specs.Fmt.{WritesOnOk};
    ghost use Rattle.journal_commands.specs.Statuses.{status_text};

    fn fmt<W: fmt::Write>(&self, f: &mut fmt::Formatter<W>) -> fmt::Result
        ensures { WritesOnOk W.write_str_gives f.old result (status_text self.now) f.new }
    {
        match self {
            Status::Done => write!(f, "done"),
            Status::Text { line } => write!(f, "line {line} is not in the grammar"),
            Status::Words => write!(f, "unknown words"),
            Status::ReadFault => write!(f, "reading failed"),
            Status::WriteFault => write!(f, "writing failed"),
            Status::Memory => write!(f, "out of memory"),
            Status::JournalFull { size } => write!(f, "journal full at {size}"),
            Status::NotLegal { entry, .. } => write!(f, "entry {entry} is not legal"),
        }
    }
}
