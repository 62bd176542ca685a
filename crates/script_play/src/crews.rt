//! Who calls, and who plays a line.
ghost use Rattle.std.specs.Prelude.{◌≡◌, ◌≤◌};
ghost use Rattle.script_asks.specs.Plays as plays;
ghost use Rattle.script_play.specs.Crews.{crew_meant, performer_meant};

use drmaa_types::{CallerId, Moment, Timeout};
use script_lines::Line;

/// The client whose block is played, and the launcher and the reaper, whose numbers are above those of all clients.
#[derive(Clone, Copy, Debug, PartialEq, Eq)]
pub struct Crew {
    pub client: CallerId,
    pub launcher: CallerId,
    pub reaper: CallerId,
}

/// Who plays a line in a play on one thread, or the moment that it sets.
#[derive(Clone, Copy, Debug, PartialEq, Eq)]
pub enum Performer {
    Sets(Moment),
    /// A client's, which looks once more after so many seconds.
    Waits(u64),
    Client,
    Launcher,
    Reaper,
}

/// Who calls in the block of the client with this number; 0 is the setup block.
pub fn crew_of(clients: u32, number: u32) -> Crew
    requires { clients ≤ 32 }
    ensures { crew_meant result ≡ plays.crew_of clients number }
{
    Crew {
        client: CallerId(number),
        launcher: CallerId(clients + 1),
        reaper: CallerId(clients + 2),
    }
}

/// How many seconds a wait lasts; one without end is as long as the greatest moment.
fn seconds_of(timeout: Timeout) -> u64
    ensures { result ≡ plays.seconds_of timeout }
{
    match timeout {
        Timeout::Seconds(seconds) => seconds,
        Timeout::Infinite => Moment::greatest().number(),
    }
}

/// Who plays a line.
pub fn performer_of(line: &Line) -> Performer
    ensures { performer_meant result ≡ plays.performer_of line.now }
{
    match line {
        Line::At { moment } => Performer::Sets(moment.moment),
        Line::WaitStarted { timeout, .. } | Line::WaitTerminated { timeout, .. } => {
            Performer::Waits(seconds_of(*timeout))
        }
        Line::Launch | Line::Started { .. } | Line::StartFailed { .. } => Performer::Launcher,
        Line::Exit { .. }
        | Line::ExitSignal { .. }
        | Line::ExitUnknown { .. }
        | Line::Signal
        | Line::SignalDone { .. }
        | Line::SignalFailed { .. } => Performer::Reaper,
        _ => Performer::Client,
    }
}
