//! How a process is sent a signal: only once its file shows its own number.
ghost use Rattle.std.specs.Prelude.{◌≡◌, ◌≢◌, ◌↔◌, ◌<◌, ℕ, [], ◌∷◌, IsTrue, IsFalse, Option, Some, None};
ghost use Rattle.child_spawner.specs.Deeds.Deed.{Reads};
ghost use Rattle.child_spawner.specs.Deeds.{Did, Finds, Misses, Sends, Withholds, looks};

use crate::Host;
use crate::shell::{kill_command, number_line};
use drmaa_types::SignalKind;
use std::alloc::Global;

/// How often the file with a process's number is looked at.
const LOOKS: u32 = 1000;

/// Sends the process of this number the signal, once the file shows that number, and answers whether
/// it was sent.
pub(crate) fn deliver<H: Host>(
    alloc: Global,
    host: &mut H,
    file: &str,
    number: u32,
    kind: SignalKind,
) -> bool
    ensures sent { IsTrue result → Sends kind number file.now (H.told host.old) (H.told host.new) }
    ensures withheld { IsFalse result → Withholds kind number file.now (H.told host.old) (H.told host.new) }
{
    let Ok(line) = number_line(alloc, number) else {
        return false;
    };
    if !finds_line(host, file, line.as_str()) {
        return false;
    }
    let Ok(command) = kill_command(alloc, kind, number) else {
        return false;
    };
    host.run(command)
}

/// Looks at the file until it is this line, at most 1,000 times with a rest after each look that did not
/// show it, and answers whether it was.
fn finds_line<H: Host>(host: &mut H, file: &str, line: &str) -> bool
    ensures found { IsTrue result → Finds file.now line.now (H.told host.old) (H.told host.new) }
    ensures missed { IsFalse result → Misses file.now line.now looks (H.told host.old) (H.told host.new) }
{
    for _ in 0..LOOKS {
        if shows_line(host, file, line) {
            return true;
        }
        host.rest();
    }
    false
}

/// One look at the file: whether it is this line.
fn shows_line<H: Host>(host: &mut H, file: &str, line: &str) -> bool
    ensures found { IsTrue result → Did (H.told host.old) (Reads file.now (Some line.now) ∷ []) (H.told host.new) }
    ensures missed { IsFalse result → Misses file.now line.now 1 (H.told host.old) (H.told host.new) }
{
    match host.read(file) {
        Ok(text) => is_line(text.as_str(), line),
        Err(_) => false,
    }
}

/// Whether the text is this line.
fn is_line(text: &str, line: &str) -> bool
    ensures { IsTrue result ↔ (text.now ≡ line.now) }
{
    text == line
}
