//! How a run ends.
ghost use Rattle.std.specs.Prelude.{◌≡◌};
ghost use Rattle.view_commands.specs.Numbers as numbers;

use journal_commands::Status;
use run_views::Verdict;
use std::fmt;

/// How a run ends.
#[derive(Drop)]
pub struct Outcome {
    pub status: Status,
    /// What is said of the jobs, where the status is Done.
    pub verdict: Verdict,
}

/// The number of a verdict: 8 where a job failed, 9 where one is left.
fn verdict_number(verdict: Verdict) -> u8
    ensures { result ≡ numbers.verdict_number verdict }
{
    match verdict {
        Verdict::AllEnded => 0,
        Verdict::SomeFailed => 8,
        Verdict::SomeLeft => 9,
    }
}

/// What is said of a verdict.
fn spell_verdict(verdict: Verdict) -> &'static str
    ensures { result.now ≡ numbers.verdict_text verdict }
{
    match verdict {
        Verdict::AllEnded => "done",
        Verdict::SomeFailed => "a job failed",
        Verdict::SomeLeft => "a job is left",
    }
}

/// Whether all was written.
fn is_done(status: &Status) -> bool
    ensures { result ≡ numbers.is_done status.now }
{
    matches!(status, Status::Done)
}

impl Outcome {
    /// The number with which the program ends: that of the verdict where all was written, and else that of the status.
    pub fn number(&self) -> u8
        ensures { result ≡ numbers.outcome_number self.now.status self.now.verdict }
    {
        if is_done(&self.status) {
            verdict_number(self.verdict)
        } else {
            self.status.number()
        }
    }
}

impl fmt::Display for Outcome {
    ghost use Rattle.std.specs.Fmt.{WritesOnOk};
    ghost use Rattle.view_commands.specs.Numbers.{outcome_text};

    fn fmt<W: fmt::Write>(&self, f: &mut fmt::Formatter<W>) -> fmt::Result
        ensures { WritesOnOk W.write_str_gives f.old result (outcome_text self.now.status self.now.verdict) f.new }
    {
        if is_done(&self.status) {
            f.write_str(spell_verdict(self.verdict))
        } else {
            fmt::Display::fmt(&self.status, f)
        }
    }
}
