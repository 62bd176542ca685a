//! A machine as an object.
ghost use Rattle.std.specs.Prelude.{◌≡◌, ◌++◌, IfOk, OnOk, string_bytes};
ghost use Rattle.serde_json.specs.View.{view, items_view};
ghost use Rattle.serde_json.specs.Written.{compact_text};
ghost use Rattle.journal_json.specs.Documents.{queue_data, queues_data, machine_data};

use drmaa_model::Config;
use drmaa_types::QueueSpec;
use serde_json::{Value, json};
use std::alloc::{AllocError, Global};

/// The object of a queue.
fn queue_value(alloc: Global, queue: &QueueSpec) -> Result<Value, AllocError>
    ensures { IfOk result (λ v. view v ≡ queue_data queue.now) }
{
    let name = queue.name.as_str();
    let limit = queue.limit;
    json!(in alloc; {"limit": limit, "name": name})
}

/// The objects of queues.
#[tactic(auto, using(crate::specs::DocumentLaws::joined_last, crate::specs::DocumentLaws::joined_none, crate::specs::DocumentLaws::joined_first))]
fn queue_values(alloc: Global, queues: &[QueueSpec]) -> Result<Vec<Value>, AllocError>
    ensures { IfOk result (λ vs. items_view vs.items ≡ queues_data queues.now) }
{
    let mut values = Vec::with_capacity(alloc, queues.len())?;
    for queue in queues {
        let value = queue_value(alloc, queue)?;
        serde_json::push(&mut values, value)?;
    }
    Ok(values)
}

/// The object of a machine.
fn machine_value(alloc: Global, config: &Config) -> Result<Value, AllocError>
    ensures { IfOk result (λ v. view v ≡ machine_data config.now) }
{
    let queues = queue_values(alloc, config.queues.as_slice())?;
    let name = config.name.as_str();
    let slots = config.slots;
    let suspend = config.suspend;
    json!(in alloc; {"name": name, "queues": queues, "slots": slots, "suspend": suspend})
}

/// The text of a machine.
#[tactic(auto, using(crate::specs::DocumentLaws::machine_whole))]
fn machine_text(alloc: Global, config: &Config) -> Result<String, AllocError>
    ensures { IfOk result (λ s. string_bytes s ≡ compact_text (machine_data config.now)) }
{
    let value = machine_value(alloc, config)?;
    value.to_string(alloc)
}

/// Prints a machine.
pub(crate) fn push_machine(
    out: &mut String,
    alloc: Global,
    config: &Config,
) -> Result<(), AllocError>
    ensures { OnOk result (string_bytes out.new ≡ string_bytes out.old ++ compact_text (machine_data config.now)) }
{
    let text = machine_text(alloc, config)?;
    out.push_str(text.as_str())
}
