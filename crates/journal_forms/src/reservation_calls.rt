//! Calls of reservations.
ghost use Rattle.std.specs.Prelude.{◌≡◌, ◌++◌, OnOk};
ghost use Rattle.drmaa_model.specs.declared.calls.Call.TheVariants as call;
ghost use Rattle.text_codec.specs.Formats.{Answers};
ghost use Rattle.text_forms.specs.Templates.{any_template, template, any_frame, frame};
ghost use Rattle.journal_forms.specs.Calls as calls;
ghost use Rattle.journal_forms.specs.WordGroups as groups;
ghost use Rattle.journal_forms.specs.Calls.{call_form};
ghost use Rattle.text_codec.specs.declared.call_words.CallWord.TheVariants as word;

use crate::fields::{one, own, push_one, two};
use crate::word_groups::ReservationWord;
use drmaa_model::Call;
use drmaa_types::SessionId;
use job_template::ReservationTemplate;
use std::alloc::AllocError;
use text_codec::{Cursor, Unread};
use text_forms::{push_frame, read_frame};

#[tactic(auto, unfolding(crate::specs::Calls::requested, text_codec::specs::Formats::pair))]
pub(crate) fn reserve_at(cursor: &mut Cursor) -> Result<Call, Unread>
    ensures { Answers (calls.call_arms template frame word.Reserve) cursor.old result cursor.new }
{
    let session = one(cursor)?;
    cursor.expect(b" ")?;
    let template = read_frame(cursor)?;
    let template = own(cursor, template)?;
    Ok(Call::RequestReservation { session, template })
}

/// Reads a session and a reservation.
#[tactic(auto, unfolding(crate::specs::Calls::of_reservation))]
pub(crate) fn reservation_at(cursor: &mut Cursor, word: ReservationWord) -> Result<Call, Unread>
    ensures { Answers (calls.call_arms template frame (groups.reservation_word word)) cursor.old result cursor.new }
{
    let (session, reservation) = two(cursor)?;
    Ok(match word {
        ReservationWord::Reservation => Call::GetReservation {
            session,
            reservation,
        },
        ReservationWord::Cancel => Call::EndReservation {
            session,
            reservation,
        },
    })
}

/// Prints a request for slots ahead.
#[tactic(auto, unfolding(crate::specs::Calls::requested, text_codec::specs::Formats::pair))]
pub(crate) fn push_request(
    out: &mut Vec<u8>,
    session: &SessionId,
    template: &ReservationTemplate,
) -> Result<(), AllocError>
    ensures text { OnOk result (out.new.items ≡ out.old.items ++ (call_form any_template any_frame (call.RequestReservation session.now template.now)).text) }
    ensures valid { OnOk result ((call_form any_template any_frame (call.RequestReservation session.now template.now)).valid) }
{
    push_one(out, b"reserve", session)?;
    out.extend_from_slice(b" ")?;
    push_frame(out, template)
}
