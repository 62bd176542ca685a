//! How a run ends.
ghost use Rattle.std.specs.Prelude.{◌≡◌};
ghost use Rattle.journal_commands.specs.Statuses.{status_number};

use drmaa_types::Text;
use journal_commands::Status;
use std::fmt;

/// How a run ends.
#[derive(Drop)]
pub struct Outcome {
    pub status: Status,
    /// What is wrong with the bad line, in one line, where the status is Text and memory sufficed to say so.
    pub advice: Option<Text>,
}

impl Outcome {
    /// The number with which the program ends: that of the status.
    pub fn number(&self) -> u8
        ensures { result ≡ status_number self.now.status }
    {
        self.status.number()
    }
}

impl fmt::Display for Outcome {
    ghost use Rattle.std.specs.Fmt.{WritesOnOk};
    ghost use Rattle.lint_command.specs.Outcomes.{outcome_text};

    fn fmt<W: fmt::Write>(&self, f: &mut fmt::Formatter<W>) -> fmt::Result
        ensures { WritesOnOk W.write_str_gives f.old result (outcome_text self.now.status self.now.advice) f.new }
    {
        match (&self.status, &self.advice) {
            (Status::Text { line }, Some(advice)) => {
                let advice = advice.as_str();
                write!(f, "line {line}: {advice}")
            }
            (status, _) => fmt::Display::fmt(status, f),
        }
    }
}
