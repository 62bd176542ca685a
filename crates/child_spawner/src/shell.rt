//! The words that start a real process through `sh`, and that send it a signal.
ghost use Rattle.std.specs.Prelude.{◌≡◌, [], ◌∷◌, ◌++◌, codes, string_bytes, IfOk, OnOk};
ghost use Rattle.std.specs.Process.{command_args, command_program};
ghost use Rattle.child_spawner.specs.Launch.{number_file, number_line, shell, launch_args, signal_name, kill_args, IsPlain, exit_of_status};

use drmaa_types::{Exit, JobId, SignalKind, TextList};
use std::alloc::{AllocError, Global};
use std::os::unix::process::ExitStatusExt;
use std::process::{Command, ExitStatus};

const SHELL: &str = "/bin/sh";

/// What `sh` runs to start a process. Its arguments are the file for the process's number and then the
/// launch words: the directory, the input, output and error paths, `join` or `apart`, the number of
/// the environment's pairs, the pairs, the command and its arguments. An unset path is `/dev/null`.
/// The text has no variable of its own, so that no name of a job's environment can disturb it.
const LAUNCH: &str = r#"echo $$ > "$1" || exit 127
shift
if [ -n "$1" ]; then cd "$1" || exit 127; fi
exec < "${2:-/dev/null}" > "${3:-/dev/null}"
if [ "$5" = join ]; then exec 2>&1; else exec 2> "${4:-/dev/null}"; fi
shift 5
while [ "$1" -gt 0 ]; do export "$2"; eval "shift 2; set -- $(($1 - 1)) \"\$@\""; done
shift
exec "$@"
"#;

/// The path of the file into which a process writes its number.
pub(crate) fn number_file(
    alloc: Global,
    folder: &str,
    job: JobId,
    attempt: u32,
) -> Result<String, AllocError>
    ensures { IfOk result (λ path. string_bytes path ≡ number_file folder.now job.0 attempt) }
{
    let number = job.0;
    format!(in alloc; "{folder}/drmaa-pid-{number}-{attempt}")
}

/// What a process writes into that file.
pub(crate) fn number_line(alloc: Global, number: u32) -> Result<String, AllocError>
    ensures { IfOk result (λ line. string_bytes line ≡ number_line number) }
{
    format!(in alloc; "{number}\n")
}

/// The command that starts a process with these launch words.
pub(crate) fn launch_command(
    alloc: Global,
    file: &str,
    words: &TextList,
) -> Result<Command, AllocError>
    ensures program { IfOk result (λ command. command_program command ≡ shell) }
    ensures args { IfOk result (λ command. command_args command ≡ launch_args file.now words.now) }
    ensures plain { IfOk result IsPlain }
{
    let mut command = shell_command(alloc, LAUNCH)?;
    command.arg("drmaa")?.arg(file)?;
    push_words(&mut command, words)?;
    Ok(command)
}

/// The command that sends the process of this number a signal.
pub(crate) fn kill_command(
    alloc: Global,
    kind: SignalKind,
    number: u32,
) -> Result<Command, AllocError>
    ensures program { IfOk result (λ command. command_program command ≡ shell) }
    ensures args { IfOk result (λ command. command_args command ≡ kill_args kind number) }
    ensures plain { IfOk result IsPlain }
{
    let name = signal_name(kind);
    let text = format!(in alloc; "kill -{name} {number}")?;
    shell_command(alloc, text.as_str())
}

/// The command in which `sh` runs this text.
fn shell_command(alloc: Global, text: &str) -> Result<Command, AllocError>
    ensures program { IfOk result (λ command. command_program command ≡ shell) }
    ensures args { IfOk result (λ command. command_args command ≡ codes "-c" ∷ text.now ∷ []) }
    ensures plain { IfOk result IsPlain }
{
    let mut command = Command::new(alloc, SHELL)?;
    command.arg("-c")?.arg(text)?;
    Ok(command)
}

/// Adds these words to a command's arguments.
fn push_words(command: &mut Command, words: &TextList) -> Result<(), AllocError>
    ensures program { OnOk result (command_program command.new ≡ command_program command.old) }
    ensures args { OnOk result (command_args command.new ≡ command_args command.old ++ words.now) }
    ensures plain { OnOk result (IsPlain command.old → IsPlain command.new) }
{
    for word in words.as_slice() {
        command.arg(word.as_str())?;
    }
    Ok(())
}

fn signal_name(kind: SignalKind) -> &'static str
    ensures { result.now ≡ signal_name kind }
{
    match kind {
        SignalKind::Stop => "STOP",
        SignalKind::Cont => "CONT",
        SignalKind::Kill => "KILL",
    }
}

/// How a process ended.
pub(crate) fn exit_of(status: ExitStatus) -> Exit
    ensures { result ≡ exit_of_status status }
{
    match status.code() {
        Some(code) => Exit::Code(code as u8),
        None => Exit::Signal(status.signal().unwrap_or(0) as u8),
    }
}
