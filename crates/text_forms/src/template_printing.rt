//! Templates printed in braces, in groups of fields, the last one first. A limit whose name no journal can have is printed
//! as `OTHER`.
ghost use Rattle.std.specs.Prelude.{◌≡◌, ◌++◌, List, ℕ, map, OnOk};
ghost use Rattle.std.specs.List.{AllByRecursion};
ghost use Rattle.drmaa_model.specs.RecordedCalls.{recorded_limit, recorded_template, is_word};
ghost use Rattle.text_codec.specs.Formats.{spell_each};
ghost use Rattle.text_codec.specs.Words.{capitals};
ghost use Rattle.text_forms.specs.Templates as templates;
ghost use Rattle.text_codec.specs.TemplateParts.{resource_limit};

use drmaa_types::{ResourceLimit, Text};
use job_template::{JobTemplate, ReservationTemplate};
use std::alloc::AllocError;
use text_codec::{
    Print, is_capitals, push_braces, push_each, push_mark, push_number, push_set, push_word,
};

/// Prints a limit's name, or `OTHER`.
#[tactic(auto, unfolding(text_codec::specs::Words::capitals))]
fn push_limit_name(out: &mut Vec<u8>, limit: &ResourceLimit) -> Result<(), AllocError>
    ensures text { OnOk result (out.new.items ≡ out.old.items ++ capitals.spell (recorded_limit limit.now).name) }
    ensures valid { OnOk result (capitals.valid (recorded_limit limit.now).name) }
{
    if is_capitals(limit.name.as_str().as_bytes()) {
        push_word(out, &limit.name)
    } else {
        out.extend_from_slice(b"OTHER")
    }
}

/// Prints a limit.
#[tactic(auto, unfolding(text_codec::specs::TemplateParts::resource_limit, text_codec::specs::Formats::mapped, text_codec::specs::Formats::pair, text_codec::specs::Formats::number))]
fn push_limit(out: &mut Vec<u8>, limit: &ResourceLimit) -> Result<(), AllocError>
    ensures text { OnOk result (out.new.items ≡ out.old.items ++ resource_limit.spell (recorded_limit limit.now)) }
    ensures valid { OnOk result (resource_limit.valid (recorded_limit limit.now)) }
{
    push_limit_name(out, limit)?;
    out.extend_from_slice(b" ")?;
    push_number(out, limit.value)
}

/// Prints limits, each behind a key.
fn push_limits(out: &mut Vec<u8>, key: &[u8], limits: &[ResourceLimit]) -> Result<(), AllocError>
    ensures text { OnOk result (out.new.items ≡ out.old.items ++ spell_each key.now resource_limit.spell (map recorded_limit limits.now)) }
    ensures valid { OnOk result (AllByRecursion resource_limit.valid (map recorded_limit limits.now)) }
{
    for limit in limits {
        out.extend_from_slice(key)?;
        push_limit(out, limit)?;
    }
    Ok(())
}

#[tactic(auto, unfolding(crate::specs::Templates::late_parts, crate::specs::Templates::late_fields, text_codec::specs::Fields::repeated, text_codec::specs::Fields::field, text_codec::specs::Fields::no_more))]
fn push_late(out: &mut Vec<u8>, template: &JobTemplate) -> Result<(), AllocError>
    ensures text { OnOk result (out.new.items ≡ out.old.items ++ templates.late_fields.body.spell (templates.late_parts (recorded_template template.now))) }
    ensures valid { OnOk result (templates.late_fields.body.valid (templates.late_parts (recorded_template template.now))) }
{
    push_set(out, b" priority ", &template.priority)?;
    push_set(out, b" start ", &template.start_time)?;
    push_set(out, b" deadline ", &template.deadline_time)?;
    push_limits(out, b" limit ", template.resource_limits.as_slice())?;
    push_each(out, b" other ", template.others.as_slice())
}

#[tactic(auto, unfolding(crate::specs::Templates::placed_parts, crate::specs::Templates::placed_fields, text_codec::specs::Fields::flag, text_codec::specs::Fields::field))]
fn push_placed(out: &mut Vec<u8>, template: &JobTemplate) -> Result<(), AllocError>
    ensures text { OnOk result (out.new.items ≡ out.old.items ++ templates.placed_fields.body.spell (templates.placed_parts (recorded_template template.now))) }
    ensures valid { OnOk result (templates.placed_fields.body.valid (templates.placed_parts (recorded_template template.now))) }
{
    push_mark(out, b" join", template.join_files)?;
    push_set(out, b" reservation ", &template.reservation_id)?;
    push_set(out, b" queue ", &template.queue_name)?;
    push_set(out, b" minslots ", &template.min_slots)?;
    push_set(out, b" maxslots ", &template.max_slots)?;
    push_late(out, template)
}

#[tactic(auto, unfolding(crate::specs::Templates::path_parts, crate::specs::Templates::path_fields, text_codec::specs::Fields::field))]
fn push_paths(out: &mut Vec<u8>, template: &JobTemplate) -> Result<(), AllocError>
    ensures text { OnOk result (out.new.items ≡ out.old.items ++ templates.path_fields.body.spell (templates.path_parts (recorded_template template.now))) }
    ensures valid { OnOk result (templates.path_fields.body.valid (templates.path_parts (recorded_template template.now))) }
{
    push_set(out, b" directory ", &template.working_directory)?;
    push_set(out, b" name ", &template.job_name)?;
    push_set(out, b" input ", &template.input_path)?;
    push_set(out, b" output ", &template.output_path)?;
    push_set(out, b" error ", &template.error_path)?;
    push_placed(out, template)
}

#[tactic(auto, unfolding(crate::specs::Templates::early_parts, crate::specs::Templates::early_fields, text_codec::specs::Fields::flag, text_codec::specs::Fields::repeated))]
fn push_early(out: &mut Vec<u8>, template: &JobTemplate) -> Result<(), AllocError>
    ensures text { OnOk result (out.new.items ≡ out.old.items ++ templates.early_fields.body.spell (templates.early_parts (recorded_template template.now))) }
    ensures valid { OnOk result (templates.early_fields.body.valid (templates.early_parts (recorded_template template.now))) }
{
    push_each(out, b" arg ", template.args.as_slice())?;
    push_mark(out, b" hold", template.submit_as_hold)?;
    push_mark(out, b" rerunnable", template.rerunnable)?;
    push_each(out, b" env ", template.job_environment.as_slice())?;
    push_paths(out, template)
}

/// Prints a job's template, with the names of limits that a journal keeps.
#[tactic(auto, unfolding(crate::specs::Templates::any_template, text_codec::specs::Formats::mapped, text_codec::specs::Fields::in_braces))]
pub fn push_template(out: &mut Vec<u8>, template: &JobTemplate) -> Result<(), AllocError>
    ensures text { OnOk result (out.new.items ≡ out.old.items ++ templates.any_template.spell (recorded_template template.now)) }
    ensures valid { OnOk result (templates.any_template.valid (recorded_template template.now)) }
{
    out.extend_from_slice(b"{command ")?;
    template.remote_command.push(out)?;
    push_early(out, template)?;
    out.extend_from_slice(b"}")
}

#[tactic(auto, unfolding(crate::specs::Templates::count_fields, text_codec::specs::Fields::repeated, text_codec::specs::Fields::field, text_codec::specs::Fields::no_more))]
fn push_counts(out: &mut Vec<u8>, template: &ReservationTemplate) -> Result<(), AllocError>
    ensures text { OnOk result (out.new.items ≡ out.old.items ++ templates.count_fields.body.spell (templates.count_parts template.now)) }
    ensures valid { OnOk result (templates.count_fields.body.valid (templates.count_parts template.now)) }
{
    push_set(out, b" minslots ", &template.min_slots)?;
    push_set(out, b" maxslots ", &template.max_slots)?;
    push_each(out, b" other ", template.others.as_slice())
}

#[tactic(auto, unfolding(crate::specs::Templates::frame_fields, text_codec::specs::Fields::field))]
fn push_frame_fields(out: &mut Vec<u8>, template: &ReservationTemplate) -> Result<(), AllocError>
    ensures text { OnOk result (out.new.items ≡ out.old.items ++ templates.frame_fields.body.spell (templates.frame_parts template.now)) }
    ensures valid { OnOk result (templates.frame_fields.body.valid (templates.frame_parts template.now)) }
{
    push_set(out, b" name ", &template.reservation_name)?;
    push_set(out, b" start ", &template.start_time)?;
    push_set(out, b" end ", &template.end_time)?;
    push_set(out, b" duration ", &template.duration)?;
    push_counts(out, template)
}

/// Prints a reservation's template.
#[tactic(auto, unfolding(crate::specs::Templates::any_frame, text_codec::specs::Formats::mapped, text_codec::specs::Braces::braces))]
pub fn push_frame(out: &mut Vec<u8>, template: &ReservationTemplate) -> Result<(), AllocError>
    ensures text { OnOk result (out.new.items ≡ out.old.items ++ templates.any_frame.spell template.now) }
    ensures valid { OnOk result (templates.any_frame.valid template.now) }
{
    let start = out.len();
    push_frame_fields(out, template)?;
    push_braces(out, start)
}
