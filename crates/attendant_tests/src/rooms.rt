//! The same calls on machines whose journals have the sizes 1 to 40, each up to the first call for which there is no room.
use crate::asking::{Ask, Said, answers, call_of};
use crate::machines::{closed, open_machine};
use crate::wording::RUN;
use call_history::{Machine, NoEntry, Reply};
use drmaa_types::{CallerId, Control, Exit, JobState, Moment};
use std::alloc::Global;

/// What is asked, what is told, and the size of the journal with that entry: how many entries and changes it has, and 1 for a job
/// that waits, 4 for one that is handed out, and 3 for one whose process is alive. Where nothing is told there is nothing to hand
/// out, and no entry.
type Row = (Ask, Option<Said>, u64);

/// Two jobs are submitted. The first one runs, and its kill is asked for twice and delivered; the other one waits.
const ROWS: &[Row] = &[
    (Ask::Create, Some(Said::Session(1)), 1),
    (RUN, Some(Said::Job(1)), 3),
    (RUN, Some(Said::Job(2)), 5),
    (Ask::TakeLaunch, Some(Said::Launch(1, 1)), 10),
    (Ask::Started(1), Some(Said::Unit), 10),
    (
        Ask::Control(1, Control::Hold),
        Some(Said::InState(JobState::Running)),
        11,
    ),
    (
        Ask::Control(2, Control::Release),
        Some(Said::InState(JobState::Queued)),
        12,
    ),
    (Ask::Control(1, Control::Terminate), Some(Said::Unit), 13),
    (Ask::Control(1, Control::Terminate), Some(Said::Unit), 14),
    (Ask::State(1), Some(Said::State(JobState::Running)), 15),
    (Ask::TakeSignal, Some(Said::Kill(1)), 16),
    (Ask::TakeSignal, None, 16),
    (Ask::KillDone(1), Some(Said::Unit), 17),
    (Ask::Exited(1, Exit::Signal(9)), Some(Said::Unit), 16),
    (Ask::State(1), Some(Said::State(JobState::Failed)), 17),
];

/// Whether this is told, or nothing.
fn is_told(told: Result<Reply, NoEntry>, wanted: Option<Said>) -> bool {
    match wanted {
        Some(said) => answers(&told, said),
        None => told.err() == Some(NoEntry::Nothing),
    }
}

/// Whether each call is answered as it is to be, up to the first for which there is no room: that one makes no entry, and is told the
/// size that the journal would have.
fn goes_until_full(alloc: Global, machine: &mut Machine, journal: u64) -> bool {
    let start = Moment::new(0).unwrap_or(Moment::greatest());
    for (ask, said, size) in ROWS {
        let told = machine.apply(CallerId(0), start, call_of(alloc, *ask));
        if *size > journal {
            return told.err() == Some(NoEntry::Journal { size: *size });
        }
        if !is_told(told, *said) {
            return false;
        }
    }
    true
}

/// From the size 17 on there is room for all. At none is there too little for the reports of the start and of the end.
#[test]
fn a_report_of_a_start_or_an_end_finds_its_room(rt: HostRuntime) {
    let alloc = rt.alloc();
    for journal in 1..=40 {
        let (shared, opener) = open_machine(&rt, alloc, journal);
        let mut machine = closed(&rt, shared, opener);
        assert!(rt; goes_until_full(alloc, &mut machine, journal), "{journal}");
    }
}
