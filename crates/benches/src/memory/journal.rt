//! Calls on a machine whose journal has the greatest size 14: there is room for one launch, and for the end that it promised.
use crate::command::Ending;
use call_history::{Call, Config, Machine, NoEntry, Reply};
use client_sessions::plain_job;
use drmaa_types::{CallerId, Exit, JobId, Moment, QueueList, SessionId, Shared, Text};
use std::alloc::Global;
use std::io;

/// What is asked.
#[derive(Clone, Copy)]
enum Ask {
    Create,
    Run,
    Launch,
    End,
}

/// The second launch finds no room.
const ASKS: [Ask; 6] = [
    Ask::Create,
    Ask::Run,
    Ask::Run,
    Ask::Launch,
    Ask::Launch,
    Ask::End,
];

/// A machine that nobody has called; None where memory is wanting.
fn machine(alloc: Global) -> Option<Machine> {
    let name = String::from_str(alloc, "node1").ok()?;
    let config = Config {
        slots: 4,
        name: Text::from_string(name),
        suspend: true,
        journal: 14,
        queues: QueueList::new(alloc),
    };
    Machine::new(alloc, config).ok()
}

/// Submits the job `true`; None where memory is wanting.
fn run(alloc: Global) -> Option<Call> {
    let command = String::from_str(alloc, "true").ok()?;
    let template = plain_job(alloc, Text::from_string(command));
    Some(Call::RunJob {
        session: SessionId(1),
        template: Shared::new(alloc, template).ok()?,
    })
}

/// The call; None where memory is wanting.
fn call_of(alloc: Global, ask: Ask) -> Option<Call> {
    match ask {
        Ask::Create => Some(Call::CreateJobSession { name: None }),
        Ask::Run => run(alloc),
        Ask::Launch => Some(Call::TakeLaunch),
        Ask::End => Some(Call::Exited {
            job: JobId(1),
            attempt: 1,
            exit: Exit::Code(0),
        }),
    }
}

/// What an answer says, and a number that it has.
fn words_of(answer: &Result<Reply, NoEntry>) -> (&'static str, u64) {
    match answer {
        Ok(Reply::Session(session)) => ("session", session.0),
        Ok(Reply::Job(job)) => ("job", job.0),
        Ok(Reply::Launch(launch)) => ("launch", launch.job.0),
        Ok(Reply::Unit) => ("ok", 0),
        Ok(_) => ("another reply", 0),
        Err(NoEntry::Journal { size }) => ("no room for", *size),
        Err(NoEntry::OutOfMemory) => ("out of memory", 0),
        Err(_) => ("nothing", 0),
    }
}

/// Asks, and prints what is answered behind the number of entries. Whether memory was wanting.
fn is_wanting(rt: HostRuntime, machine: &mut Machine, ask: Ask) -> io::Result<bool> {
    let start = Moment::new(0).unwrap_or(Moment::greatest());
    let answer = match call_of(rt.alloc(), ask) {
        Some(call) => machine.apply(CallerId(0), start, call),
        None => Err(NoEntry::OutOfMemory),
    };
    let (word, number) = words_of(&answer);
    let entries = machine.entries().len();
    println!(rt; "{entries} {word} {number}")?;
    Ok(word == "out of memory")
}

/// Asks for each, and once more where memory was wanting.
fn ask_all(rt: HostRuntime, machine: &mut Machine) -> io::Result<Ending> {
    for ask in ASKS {
        if is_wanting(rt, machine, ask)? {
            let _ = is_wanting(rt, machine, ask)?;
        }
    }
    Ok(Ending::Done)
}

/// Makes the machine, asks, and prints for each call how many entries there are and what it is answered.
pub fn measure(rt: HostRuntime) -> io::Result<Ending> {
    let alloc = rt.alloc();
    let made = match machine(alloc) {
        Some(machine) => Some(machine),
        None => machine(alloc),
    };
    match made {
        Some(mut machine) => ask_all(rt, &mut machine),
        None => Ok(Ending::Undone),
    }
}
