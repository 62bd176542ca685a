//! Infos printed in braces, in groups of fields, the last one first.
ghost use Rattle.std.specs.Prelude.{◌≡◌, ◌++◌, OnOk};
ghost use Rattle.text_codec.specs.Infos as infos;
ghost use Rattle.text_codec.specs.Numbers.{reservation_id};

use crate::states::push_note;
use crate::{Print, push_behind, push_set};
use drmaa_types::{JobInfo, ReservationInfo};
use std::alloc::AllocError;

#[tactic(auto, unfolding(crate::specs::Infos::end_parts, crate::specs::Infos::end_fields, crate::specs::Fields::field, crate::specs::Fields::no_more))]
fn push_ends(out: &mut Vec<u8>, info: &JobInfo) -> Result<(), AllocError>
    ensures text { OnOk result (out.new.items ≡ out.old.items ++ infos.end_fields.body.spell (infos.end_parts info.now)) }
    ensures valid { OnOk result (infos.end_fields.body.valid (infos.end_parts info.now)) }
{
    push_set(out, b" dispatched ", &info.dispatched)?;
    push_set(out, b" finished ", &info.finished)?;
    push_set(out, b" exit ", &info.exit)?;
    push_note(out, b" note ", info.note)
}

#[tactic(auto, unfolding(crate::specs::Infos::time_parts, crate::specs::Infos::time_fields, crate::specs::Fields::field, crate::specs::Fields::always))]
fn push_times(out: &mut Vec<u8>, info: &JobInfo) -> Result<(), AllocError>
    ensures text { OnOk result (out.new.items ≡ out.old.items ++ infos.time_fields.body.spell (infos.time_parts info.now)) }
    ensures valid { OnOk result (infos.time_fields.body.valid (infos.time_parts info.now)) }
{
    push_set(out, b" wallclock ", &info.wallclock)?;
    push_behind(out, b" submitted ", &info.submitted)?;
    push_ends(out, info)
}

#[tactic(auto, unfolding(crate::specs::Infos::stand_parts, crate::specs::Infos::stand_fields, crate::specs::Fields::field, crate::specs::Fields::always))]
fn push_stands(out: &mut Vec<u8>, info: &JobInfo) -> Result<(), AllocError>
    ensures text { OnOk result (out.new.items ≡ out.old.items ++ infos.stand_fields.body.spell (infos.stand_parts info.now)) }
    ensures valid { OnOk result (infos.stand_fields.body.valid (infos.stand_parts info.now)) }
{
    push_behind(out, b" state ", &info.state)?;
    push_set(out, b" slots ", &info.slots)?;
    push_behind(out, b" queue ", &info.queue)?;
    push_times(out, info)
}

#[tactic(auto, unfolding(crate::specs::Infos::name_parts, crate::specs::Infos::name_fields, crate::specs::Fields::field))]
fn push_names(out: &mut Vec<u8>, info: &JobInfo) -> Result<(), AllocError>
    ensures text { OnOk result (out.new.items ≡ out.old.items ++ infos.name_fields.body.spell (infos.name_parts info.now)) }
    ensures valid { OnOk result (infos.name_fields.body.valid (infos.name_parts info.now)) }
{
    push_set(out, b" session ", &info.session)?;
    push_set(out, b" name ", &info.name)?;
    push_set(out, b" array ", &info.array)?;
    push_set(out, b" index ", &info.index)?;
    push_stands(out, info)
}

impl Print for JobInfo {
    ghost form = { infos.job_info };

    #[tactic(auto, unfolding(crate::specs::Infos::job_info, crate::specs::Formats::mapped, crate::specs::Fields::in_braces))]
    fn push(&self, out: &mut Vec<u8>) -> Result<(), AllocError> {
        out.extend_from_slice(b"{job ")?;
        self.job.push(out)?;
        push_names(out, self)?;
        out.extend_from_slice(b"}")
    }
}

#[tactic(auto, unfolding(crate::specs::Infos::booked_part, crate::specs::Infos::booked_fields, crate::specs::Fields::field, crate::specs::Fields::always, crate::specs::Fields::no_more))]
fn push_booked(out: &mut Vec<u8>, info: &ReservationInfo) -> Result<(), AllocError>
    ensures text { OnOk result (out.new.items ≡ out.old.items ++ infos.booked_fields.body.spell (infos.booked_part info.now)) }
    ensures valid { OnOk result (infos.booked_fields.body.valid (infos.booked_part info.now)) }
{
    push_set(out, b" session ", &info.session)?;
    push_set(out, b" name ", &info.name)?;
    push_behind(out, b" slots ", &info.slots)?;
    push_behind(out, b" from ", &info.from)?;
    push_behind(out, b" until ", &info.until)
}

/// Prints the fields of a reservation's info in braces, the first one behind a key.
fn push_braced(out: &mut Vec<u8>, key: &[u8], info: &ReservationInfo) -> Result<(), AllocError>
    ensures text { OnOk result (out.new.items ≡ out.old.items ++ infos.braced_booked key.now info.now) }
    ensures valid { OnOk result (reservation_id.valid info.now.reservation × infos.booked_fields.body.valid (infos.booked_part info.now)) }
{
    out.extend_from_slice(b"{")?;
    push_behind(out, key, &info.reservation)?;
    push_booked(out, info)?;
    out.extend_from_slice(b"}")
}

impl Print for ReservationInfo {
    ghost form = { infos.reservation_info };

    #[tactic(auto, unfolding(crate::specs::Infos::reservation_info, crate::specs::Formats::mapped, crate::specs::Fields::in_braces))]
    fn push(&self, out: &mut Vec<u8>) -> Result<(), AllocError> {
        push_braced(out, b"reservation ", self)
    }
}
