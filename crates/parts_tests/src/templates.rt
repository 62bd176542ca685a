//! What no script can say of a template: a limit whose name is not in capitals, and a machine without slots.
use drmaa_types::{
    AttributeList, LimitList, Moment, PairList, QueueList, Refusal, ResourceLimit, Text, TextList,
    Which,
};
use job_template::{JobTemplate, text_length, validate_job};
use std::alloc::Global;

/// A text. Where memory is wanting it is empty, and then no test passes.
fn text(alloc: Global, characters: &str) -> Text {
    match String::from_str(alloc, characters) {
        Ok(whole) => Text::from_string(whole),
        Err(_) => Text::from_string(String::new(alloc)),
    }
}

/// A limit of this name. Where memory is wanting there is none, and then no test passes.
fn limit(alloc: Global, name: &str) -> LimitList {
    let mut limits = Vec::new(alloc);
    let _ = limits.push(ResourceLimit {
        name: text(alloc, name),
        value: 5,
    });
    LimitList::from_vec(limits)
}

/// A template of the command `true` with these limits.
fn job(alloc: Global, resource_limits: LimitList) -> JobTemplate {
    JobTemplate {
        remote_command: text(alloc, "true"),
        args: TextList::new(alloc),
        submit_as_hold: false,
        rerunnable: false,
        job_environment: PairList::new(alloc),
        working_directory: None,
        job_name: None,
        input_path: None,
        output_path: None,
        error_path: None,
        join_files: false,
        reservation_id: None,
        queue_name: None,
        min_slots: None,
        max_slots: None,
        priority: None,
        start_time: None,
        deadline_time: None,
        resource_limits,
        others: AttributeList::new(alloc),
    }
}

/// What is refused of a template on so many slots, without queues.
fn refused(alloc: Global, template: &JobTemplate, slots: u32) -> Option<Refusal> {
    validate_job(template, slots, &QueueList::new(alloc), Moment::greatest()).err()
}

/// The name of a limit, the slots of a machine, and which argument is refused.
type Row = (&'static str, u32, Option<Which>);

const ROWS: &[Row] = &[
    ("WALLCLOCK_TIME", 4, None),
    ("wallclock_time", 4, Some(Which::ResourceLimits)),
    ("WALLCLOCK_TIME", 0, Some(Which::MinSlots)),
];

/// Whether the template of a row has 20 bytes of text, each text with one more, and this is refused of it.
fn is_met(alloc: Global, row: &Row) -> bool {
    let (name, slots, wanted) = row;
    let template = job(alloc, limit(alloc, name));
    text_length(&template) == Some(20)
        && refused(alloc, &template, *slots) == wanted.map(Refusal::InvalidArgument)
}

fn are_met(alloc: Global, rows: &[Row]) -> bool {
    for row in rows {
        if !is_met(alloc, row) {
            return false;
        }
    }
    true
}

#[test]
fn a_limit_has_its_name_in_capitals_and_a_machine_slots(rt: HostRuntime) {
    assert!(rt; are_met(rt.alloc(), ROWS));
}
