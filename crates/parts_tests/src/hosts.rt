//! What a host answers of commands and files.
use child_spawner::{Host, SystemHost};
use std::process::Command;
use std::test::Fail;
use std::{env, fs, io, process};

/// Whether a command of the shell succeeds.
fn succeeds(rt: HostRuntime, text: &str) -> io::Result<bool> {
    let mut command = Command::new(rt.alloc(), "/bin/sh")?;
    command.arg("-c")?.arg(text)?;
    Ok(SystemHost::new(rt).run(command))
}

/// Whether commands succeed and fail as they are listed.
fn are_run(rt: HostRuntime, commands: &[(&str, bool)]) -> io::Result<bool> {
    for (text, wanted) in commands {
        if succeeds(rt, text)? != *wanted {
            return Ok(false);
        }
    }
    Ok(true)
}

const COMMANDS: &[(&str, bool)] = &[
    ("exit 0", true),
    ("exit 1", false),
    ("kill -KILL $$", false),
    // No process has so great a number.
    ("kill -CONT 4194305", false),
];

#[test]
fn a_host_tells_which_commands_succeed(rt: HostRuntime) -> Result<(), Fail> {
    assert!(rt; are_run(rt, COMMANDS)?);
    Ok(())
}

/// Whether the host reads this text in the file.
fn reads<H: Host>(host: &mut H, file: &str, text: &str) -> bool {
    match host.read(file) {
        Ok(read) => read.as_str() == text,
        Err(_) => false,
    }
}

/// Whether the host reads this text in the file and removes it. What is not there is gone, and can't be read.
fn is_removed<H: Host>(host: &mut H, file: &str, text: &str) -> bool {
    reads(host, file, text)
        && host.remove(file).is_ok()
        && host.read(file).is_err()
        && host.remove(file).is_ok()
}

/// A new folder in the system's temporary folder.
fn new_folder(rt: HostRuntime) -> io::Result<String> {
    let temp = env::temp_dir(&rt)?;
    let temp = temp.as_path().as_str();
    let number = process::id(rt.process());
    let folder = format!(in rt.alloc(); "{temp}/parts_tests-{number}")?;
    fs::create_dir(&rt, folder.as_str())?;
    Ok(folder)
}

/// Whether the host reads and removes a file of this folder. A folder is no file.
fn is_obeyed(rt: HostRuntime, folder: &str) -> io::Result<bool> {
    let file = format!(in rt.alloc(); "{folder}/input")?;
    fs::write(&rt, file.as_str(), "given\n")?;
    let mut host = SystemHost::new(rt);
    Ok(is_removed(&mut host, file.as_str(), "given\n") && host.remove(folder).is_err())
}

#[test]
fn a_host_reads_and_removes_files(rt: HostRuntime) -> Result<(), Fail> {
    let folder = new_folder(rt)?;
    let obeyed = is_obeyed(rt, folder.as_str())?;
    fs::remove_dir(&rt, folder.as_str())?;
    assert!(rt; obeyed);
    Ok(())
}
