//! What is shown of a journal, and whether a script may be content with its jobs.
ghost use Rattle.std.specs.Prelude.{◌≡◌, ◌++◌, ◌⊎◌, IfOk};
ghost use Rattle.drmaa_model.specs.History.{Ledger};
ghost use Rattle.journal_text.specs.Journals.{IsWritable};
ghost use Rattle.journal_commands.specs.Commands.{OfLegal, RefusesFault, Judged, ledger_of};
ghost use Rattle.journal_commands.specs.Outcomes.{Makes, end_of};
ghost use Rattle.view_commands.specs.Views as views;
ghost use Rattle.view_commands.specs.Views.{Shows, IsJudged};

use crate::views::View;
use drmaa_machine::Machine;
use drmaa_types::Text;
use journal_check::Replayed;
use journal_commands::{Made, Output, replayed_journal};
use journal_text::Journal;
use run_chart::chart;
use run_views::{Verdict, print_jobs, print_log, runs_of, verdict_of};
use std::alloc::{AllocError, Global};
use wait_reasons::print_why;

/// What is shown of a legal journal.
#[derive(Drop)]
struct Seen {
    text: Text,
    verdict: Verdict,
}

/// What was made of a journal, and its verdict where a text was made.
#[derive(Drop)]
pub(crate) struct Judgement {
    pub(crate) made: Made,
    pub(crate) verdict: Verdict,
}

/// A text with another one behind it.
fn joined(first: Text, second: &Text) -> Result<Text, AllocError>
    ensures { IfOk result (λ text. text ≡ first ++ second.now) }
{
    let mut out = first.into_string();
    out.push_str(second.as_str())?;
    Ok(Text::from_string(out))
}

/// The jobs of a machine, and why those wait that do.
fn see_jobs(alloc: Global, machine: &Machine) -> Result<Seen, AllocError>
    ensures text { IfOk result (λ seen. seen.text ≡ views.view_text View.Jobs machine.now.ledger) }
    ensures verdict { IfOk result (λ seen. seen.verdict ≡ views.view_verdict View.Jobs machine.now.ledger) }
{
    let Ok(infos) = machine.infos() else {
        return Err(AllocError);
    };
    let infos = infos.as_slice();
    let changes = machine.changes();
    let entries = machine.entries();
    let jobs = print_jobs(alloc, machine.moment(), infos, changes, entries)?;
    let why = print_why(alloc, machine)?;
    Ok(Seen {
        text: joined(jobs, &why)?,
        verdict: verdict_of(infos, changes, entries),
    })
}

/// The runs of a machine.
fn see_log(alloc: Global, machine: &Machine) -> Result<Seen, AllocError>
    ensures text { IfOk result (λ seen. seen.text ≡ views.view_text View.Log machine.now.ledger) }
    ensures verdict { IfOk result (λ seen. seen.verdict ≡ views.view_verdict View.Log machine.now.ledger) }
{
    let runs = runs_of(alloc, machine.entries())?;
    Ok(Seen {
        text: print_log(alloc, &runs)?,
        verdict: Verdict::AllEnded,
    })
}

/// Why the jobs of a machine wait.
fn see_why(alloc: Global, machine: &Machine) -> Result<Seen, AllocError>
    ensures text { IfOk result (λ seen. seen.text ≡ views.view_text View.Why machine.now.ledger) }
    ensures verdict { IfOk result (λ seen. seen.verdict ≡ views.view_verdict View.Why machine.now.ledger) }
{
    Ok(Seen {
        text: print_why(alloc, machine)?,
        verdict: Verdict::AllEnded,
    })
}

/// The chart of a machine.
fn see_chart(alloc: Global, machine: &Machine) -> Result<Seen, AllocError>
    ensures text { IfOk result (λ seen. seen.text ≡ views.view_text View.Chart machine.now.ledger) }
    ensures verdict { IfOk result (λ seen. seen.verdict ≡ views.view_verdict View.Chart machine.now.ledger) }
{
    Ok(Seen {
        text: chart(
            alloc,
            machine.entries(),
            machine.config().slots,
            machine.moment(),
        )?,
        verdict: Verdict::AllEnded,
    })
}

/// A view of a machine.
fn see(alloc: Global, view: View, machine: &Machine) -> Result<Seen, AllocError>
    ensures text { IfOk result (λ seen. seen.text ≡ views.view_text view machine.now.ledger) }
    ensures verdict { IfOk result (λ seen. seen.verdict ≡ views.view_verdict view machine.now.ledger) }
{
    match view {
        View::Jobs => see_jobs(alloc, machine),
        View::Log => see_log(alloc, machine),
        View::Why => see_why(alloc, machine),
        View::Chart => see_chart(alloc, machine),
    }
}

/// Nothing was made, for want of memory.
fn short() -> Judgement
    ensures { result.made ≡ Made.OutOfMemory }
{
    Judgement {
        made: Made::OutOfMemory,
        verdict: Verdict::AllEnded,
    }
}

/// What a view makes of a journal.
pub(crate) fn judge(alloc: Global, view: View, journal: Journal) -> Judgement
    requires { IsWritable journal.config journal.entries }
    ensures makes { Makes (OfLegal (Shows view)) RefusesFault journal result.made }
    ensures decides { (result.made ≡ Made.OutOfMemory) ⊎ Judged (Shows view) journal (end_of result.made) }
    ensures verdict { IsJudged view (ledger_of journal) result.made result.verdict }
{
    match replayed_journal(alloc, journal) {
        Replayed::Legal(machine) => match see(alloc, view, &machine) {
            Ok(Seen { text, verdict }) => Judgement {
                made: Made::Written(Output { text, full: None }),
                verdict,
            },
            Err(_) => short(),
        },
        Replayed::NotLegal {
            entry,
            given,
            machine,
        } => Judgement {
            made: Made::NotLegal {
                entry,
                given,
                machine,
            },
            verdict: Verdict::AllEnded,
        },
        Replayed::OutOfMemory => short(),
    }
}
