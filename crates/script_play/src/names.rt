//! The names of a block, which can be copied for the next one.
ghost use Rattle.std.specs.Prelude.{◌≡◌, [], IfOk};
ghost use Rattle.script_asks.specs.Replies.{names_after};

use drmaa_model::Reply;
use script_asks::{Given, learn_reply};
use script_lines::Line;
use script_text::Keyed;
use std::alloc::{AllocError, Global};
use std::marker::Model;

/// The names of a block and what they were given. Contracts see the list of these pairs, in order.
#[derive(Drop)]
pub struct Names {
    given: Keyed<Given>,
}

impl Model for Names {
    ghost use Rattle.std.specs.Prelude.{List, ℕ};
    ghost use Rattle.script_asks.specs.declared.given.Given.{Given};

    ghost Value = { List (List ℕ × Given) };

    ghost view = { λ n. n.given };
}

impl Names {
    /// No name; it takes no memory.
    pub fn new(alloc: Global) -> Names
        ensures { result ≡ [] }
    {
        Names {
            given: Keyed::new(alloc),
        }
    }

    /// The names, to be looked up.
    pub fn given(&self) -> &Keyed<Given>
        ensures { result.now ≡ self.now }
    {
        &self.given
    }

    /// The names after the reply to a line. After an `Err` memory ran out, and the names are lost.
    pub fn with(self, line: &Line, reply: &Reply) -> Result<Names, AllocError>
        ensures { IfOk result (λ more. more ≡ names_after line.now reply.now self) }
    {
        let mut names = self;
        names.learn(line, reply)?;
        Ok(names)
    }

    /// Becomes the names after the reply to a line. After an `Err` memory ran out, and the names may be anything.
    pub(crate) fn learn(&mut self, line: &Line, reply: &Reply) -> Result<(), AllocError>
        ensures { IfOk result (λ _. self.new ≡ names_after line.now reply.now self.old) }
    {
        learn_reply(&mut self.given, line, reply)
    }

    /// The same names once more.
    pub fn copied(&self) -> Result<Names, AllocError>
        ensures { IfOk result (λ copy. copy ≡ self.now) }
    {
        Ok(Names {
            given: self.given.clone()?,
        })
    }
}
