//! The call that an entry keeps: a name of a limit that a journal can't print becomes `OTHER`.
ghost use Rattle.std.specs.Prelude.{◌≡◌, IfOk, OnOk, OnErr, true, false, map, codes};
ghost use Rattle.std.specs.List.{list_all};
ghost use Rattle.drmaa_model.specs.RecordedCalls.{is_capital, is_word, recorded, recorded_limit, recorded_template};
ghost use Rattle.drmaa_machine.specs.Applying.{is_submission};
ghost use Rattle.drmaa_machine.specs.Names.{has_words};

use drmaa_model::Call;
use drmaa_types::{LimitList, ListOf, ResourceLimit, Shared, Text};
use job_template::JobTemplate;
use std::alloc::{AllocError, Global};

/// The call as an entry keeps it: the names of limits that no journal can print become `OTHER`. Only a call that submits jobs
/// may want memory.
pub fn recorded_call(alloc: Global, call: Call) -> Result<Call, AllocError>
    ensures ok { IfOk result (λ c. c ≡ recorded call) }
    ensures err { OnErr result (is_submission call ≡ true) }
{
    match call {
        Call::RunJob { session, template } => Ok(Call::RunJob {
            session,
            template: recorded_template(alloc, template)?,
        }),
        Call::RunBulk {
            session,
            template,
            indices,
        } => Ok(Call::RunBulk {
            session,
            template: recorded_template(alloc, template)?,
            indices,
        }),
        _ => Ok(call),
    }
}

/// The template that an entry keeps. It takes memory only where a name becomes `OTHER`.
fn recorded_template(
    alloc: Global,
    template: Shared<JobTemplate>,
) -> Result<Shared<JobTemplate>, AllocError>
    ensures ok { IfOk result (λ t. t ≡ recorded_template template) }
    ensures err { OnErr result (has_words template.resource_limits ≡ false) }
{
    if has_words(template.get().resource_limits.as_slice()) {
        return Ok(template);
    }
    let template = with_recorded_limits(alloc, template.get().clone()?)?;
    Shared::new(alloc, template)
}

/// Whether a journal can print the names of these limits.
fn has_words(limits: &[ResourceLimit]) -> bool
    ensures { result ≡ has_words limits.now }
{
    limits
        .iter()
        .all(|limit| is_word(limit.name.as_str().as_bytes()))
}

fn with_recorded_limits(alloc: Global, template: JobTemplate) -> Result<JobTemplate, AllocError>
    ensures { IfOk result (λ t. t ≡ recorded_template template) }
{
    let limits = recorded_limits(alloc, template.resource_limits)?;
    Ok(JobTemplate {
        resource_limits: limits,
        ..template
    })
}

fn recorded_limits(alloc: Global, limits: LimitList) -> Result<LimitList, AllocError>
    ensures ok { IfOk result (λ ls. ls ≡ map recorded_limit limits) }
    ensures err { OnErr result (has_words limits ≡ false) }
{
    let mut items = limits.into_vec();
    record_limits(alloc, &mut items)?;
    Ok(ListOf::from_vec(items))
}

fn record_limits(alloc: Global, limits: &mut Vec<ResourceLimit>) -> Result<(), AllocError>
    ensures ok { OnOk result (limits.new.items ≡ map recorded_limit limits.old.items) }
    ensures err { OnErr result (has_words limits.old.items ≡ false) }
{
    for limit in limits.iter_mut() {
        record_limit(alloc, limit)?;
    }
    Ok(())
}

fn record_limit(alloc: Global, limit: &mut ResourceLimit) -> Result<(), AllocError>
    ensures ok { OnOk result (limit.new ≡ recorded_limit limit.old) }
    ensures err { OnErr result (is_word limit.old.name ≡ false) }
{
    if !is_word(limit.name.as_str().as_bytes()) {
        limit.name = other_name(alloc)?;
    }
    Ok(())
}

/// The name that stands for one that can't be printed.
fn other_name(alloc: Global) -> Result<Text, AllocError>
    ensures { IfOk result (λ t. t ≡ codes "OTHER") }
{
    Ok(Text::from_string(String::from_str(alloc, "OTHER")?))
}

/// Whether a journal can print this name: ASCII capitals and `_`, one at least.
fn is_word(name: &[u8]) -> bool
    ensures { result ≡ is_word name.now }
{
    !name.is_empty() && are_capitals(name)
}

/// Whether these bytes are all ASCII capitals or `_`.
fn are_capitals(bytes: &[u8]) -> bool
    ensures { result ≡ list_all is_capital bytes.now }
{
    bytes.iter().all(|b| is_capital(*b))
}

/// Whether a byte is an ASCII capital, or `_`.
fn is_capital(byte: u8) -> bool
    ensures { result ≡ is_capital byte }
{
    (b'A' <= byte && byte <= b'Z') || byte == b'_'
}
