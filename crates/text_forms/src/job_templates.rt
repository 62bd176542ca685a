//! Templates of jobs in braces: read, in groups of fields, the last one first.
ghost use Rattle.std.specs.Prelude.{◌≡◌, IfErr};
ghost use Rattle.std.specs.List.{list_all};
ghost use Rattle.text_codec.specs.Formats.{Answers};
ghost use Rattle.text_codec.specs.declared.unread.Unread.{Unread};
ghost use Rattle.text_forms.specs.Templates as templates;

use drmaa_types::{
    Attribute, AttributeList, LimitList, Moment, PairList, ReservationId, Text, TextList,
};
use job_template::JobTemplate;
use text_codec::{Cursor, Form, Unread, read_all, read_set};

/// The last fields: priority, start, deadline, limits, and attributes that are not supported.
type Late = (
    Option<i32>,
    (
        Option<Moment>,
        (Option<Moment>, (LimitList, (AttributeList, ()))),
    ),
);

/// Those before them: whether output and errors are joined, the reservation, the queue, and how many slots.
type Placed = (
    bool,
    (
        Option<ReservationId>,
        (Option<Text>, (Option<u32>, (Option<u32>, Late))),
    ),
);

/// Those before them: the directory, the name and the paths.
type Paths = (
    Option<Text>,
    (
        Option<Text>,
        (Option<Text>, (Option<Text>, (Option<Text>, Placed))),
    ),
);

/// The fields behind the command.
type Early = (TextList, (bool, (bool, (PairList, Paths))));

/// Whether a template has an attribute under `other`: all but `queueName` and the limits.
pub fn is_other(attribute: Attribute) -> bool
    ensures { result ≡ templates.is_other attribute }
{
    match attribute {
        Attribute::QueueName => false,
        Attribute::JobCategory => true,
        Attribute::Email => true,
        Attribute::EmailOnStarted => true,
        Attribute::EmailOnTerminated => true,
        Attribute::CandidateMachines => true,
        Attribute::MinPhysMemory => true,
        Attribute::MachineOs => true,
        Attribute::MachineArch => true,
        Attribute::StageInFiles => true,
        Attribute::StageOutFiles => true,
        Attribute::AccountingId => true,
        Attribute::UsersAcl => true,
        Attribute::CoreFileSize => false,
        Attribute::CpuTime => false,
        Attribute::DataSize => false,
        Attribute::FileSize => false,
        Attribute::OpenFiles => false,
        Attribute::StackSize => false,
        Attribute::VirtualMemory => false,
    }
}

/// Whether a template has all of these under `other`.
pub(crate) fn are_others(attributes: &[Attribute]) -> bool
    ensures { result ≡ list_all templates.is_other attributes.now }
{
    attributes.iter().all(|attribute| is_other(*attribute))
}

/// Reads an attribute that a template has under `other`.
#[tactic(auto, unfolding(crate::specs::Templates::other_form, text_codec::specs::Formats::checked))]
pub fn read_other(cursor: &mut Cursor) -> Result<Attribute, Unread>
    ensures reads { Answers templates.other_form.read cursor.old result cursor.new }
    ensures memory { IfErr result (λ e. e ≡ Unread.Unspelled) }
{
    let attribute = Attribute::read(cursor)?;
    if is_other(attribute) {
        Ok(attribute)
    } else {
        Err(Unread::Unspelled)
    }
}

#[tactic(auto, unfolding(crate::specs::Templates::late_fields, text_codec::specs::Fields::repeated, text_codec::specs::Fields::field, text_codec::specs::Fields::no_more))]
fn read_late(cursor: &mut Cursor) -> Result<Late, Unread>
    ensures { Answers templates.late_fields.body.read cursor.old result cursor.new }
{
    let priority = read_set(cursor, b" priority ")?;
    let start = read_set(cursor, b" start ")?;
    let deadline = read_set(cursor, b" deadline ")?;
    let limits = read_all(cursor, b" limit ")?;
    let others = read_all(cursor, b" other ")?;
    Ok((priority, (start, (deadline, (limits, (others, ()))))))
}

#[tactic(auto, unfolding(crate::specs::Templates::placed_fields, text_codec::specs::Fields::flag, text_codec::specs::Fields::field))]
fn read_placed(cursor: &mut Cursor) -> Result<Placed, Unread>
    ensures { Answers templates.placed_fields.body.read cursor.old result cursor.new }
{
    let joined = cursor.mark(b" join");
    let reservation = read_set(cursor, b" reservation ")?;
    let queue = read_set(cursor, b" queue ")?;
    let least = read_set(cursor, b" minslots ")?;
    let most = read_set(cursor, b" maxslots ")?;
    let late = read_late(cursor)?;
    Ok((joined, (reservation, (queue, (least, (most, late))))))
}

#[tactic(auto, unfolding(crate::specs::Templates::path_fields, text_codec::specs::Fields::field))]
fn read_paths(cursor: &mut Cursor) -> Result<Paths, Unread>
    ensures { Answers templates.path_fields.body.read cursor.old result cursor.new }
{
    let directory = read_set(cursor, b" directory ")?;
    let name = read_set(cursor, b" name ")?;
    let input = read_set(cursor, b" input ")?;
    let output = read_set(cursor, b" output ")?;
    let error = read_set(cursor, b" error ")?;
    let placed = read_placed(cursor)?;
    Ok((directory, (name, (input, (output, (error, placed))))))
}

#[tactic(auto, unfolding(crate::specs::Templates::early_fields, text_codec::specs::Fields::flag, text_codec::specs::Fields::repeated))]
fn read_early(cursor: &mut Cursor) -> Result<Early, Unread>
    ensures { Answers templates.early_fields.body.read cursor.old result cursor.new }
{
    let args = read_all(cursor, b" arg ")?;
    let hold = cursor.mark(b" hold");
    let rerunnable = cursor.mark(b" rerunnable");
    let environment = read_all(cursor, b" env ")?;
    let paths = read_paths(cursor)?;
    Ok((args, (hold, (rerunnable, (environment, paths)))))
}

/// The template with these fields.
fn made(command: Text, early: Early) -> JobTemplate
    ensures { result ≡ templates.make_template (command, early) }
{
    let (args, (submit_as_hold, (rerunnable, (job_environment, paths)))) = early;
    let (working_directory, (job_name, (input_path, (output_path, (error_path, placed))))) = paths;
    let (join_files, (reservation_id, (queue_name, (min_slots, (max_slots, late))))) = placed;
    let (priority, (start_time, (deadline_time, (resource_limits, (others, ()))))) = late;
    JobTemplate {
        remote_command: command,
        args,
        submit_as_hold,
        rerunnable,
        job_environment,
        working_directory,
        job_name,
        input_path,
        output_path,
        error_path,
        join_files,
        reservation_id,
        queue_name,
        min_slots,
        max_slots,
        priority,
        start_time,
        deadline_time,
        resource_limits,
        others,
    }
}

/// Reads a template with any attributes under `other`.
#[tactic(auto, unfolding(crate::specs::Templates::any_template, text_codec::specs::Formats::mapped, text_codec::specs::Fields::in_braces))]
fn read_any(cursor: &mut Cursor) -> Result<JobTemplate, Unread>
    ensures { Answers templates.any_template.read cursor.old result cursor.new }
{
    cursor.expect(b"{command ")?;
    let command = cursor.text()?;
    let early = read_early(cursor)?;
    cursor.expect(b"}")?;
    Ok(made(command, early))
}

/// Reads a job's template in braces, with no attribute under `other` that scripts and journals don't have there.
#[tactic(auto, unfolding(crate::specs::Templates::template, text_codec::specs::Formats::checked))]
pub fn read_template(cursor: &mut Cursor) -> Result<JobTemplate, Unread>
    ensures { Answers templates.template.read cursor.old result cursor.new }
{
    let template = read_any(cursor)?;
    if are_others(template.others.as_slice()) {
        Ok(template)
    } else {
        Err(Unread::Unspelled)
    }
}
