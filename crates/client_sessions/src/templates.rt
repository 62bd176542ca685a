//! Job templates of which the command alone is set.
ghost use Rattle.std.specs.Prelude.{◌≡◌, IfOk, IfErr};
ghost use Rattle.drmaa_types.specs.declared.refusals.Refusal.{Refusal};
ghost use Rattle.client_sessions.specs.Templates.{plain_template};

use drmaa_types::{Refusal, Text};
use job_template::JobTemplate;
use std::alloc::Global;

/// A template that runs this command, with every other attribute unset (GFD.231, JobTemplate). It takes no memory.
pub fn plain_job(alloc: Global, remote_command: Text) -> JobTemplate
    ensures { result ≡ plain_template remote_command }
{
    JobTemplate {
        remote_command,
        ..JobTemplate::blank(alloc)
    }
}

/// A template that runs the command of this name, with every other attribute unset (GFD.231, JobTemplate).
///
/// # Errors
///
/// Want of memory.
pub fn plain_command(alloc: Global, name: &str) -> Result<JobTemplate, Refusal>
    ensures ok { IfOk result (λ template. template ≡ plain_template name.now) }
    ensures err { IfErr result (λ why. why ≡ Refusal.OutOfMemory) }
{
    let command = text_of(alloc, name)?;
    Ok(plain_job(alloc, command))
}

/// The text of these characters.
pub(crate) fn text_of(alloc: Global, characters: &str) -> Result<Text, Refusal>
    ensures ok { IfOk result (λ text. text ≡ characters.now) }
    ensures err { IfErr result (λ why. why ≡ Refusal.OutOfMemory) }
{
    match String::from_str(alloc, characters) {
        Ok(whole) => Ok(Text::from_string(whole)),
        Err(_) => Err(Refusal::OutOfMemory),
    }
}
