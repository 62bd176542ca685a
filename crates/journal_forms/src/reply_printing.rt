//! Replies: printed.
ghost use Rattle.std.specs.Prelude.{◌≡◌, ◌++◌, true, OnOk};
ghost use Rattle.drmaa_model.specs.declared.replies.Reply.TheVariants as reply;
ghost use Rattle.text_codec.specs.Formats.{list_of};
ghost use Rattle.text_codec.specs.Sums.{keyed};
ghost use Rattle.text_forms.specs.Refusals.{may_stand};
ghost use Rattle.journal_forms.specs.Replies.{reply_form, may_answer};

use crate::fields::{push_one, push_three};
use drmaa_model::{Launch, Reply, Signal};
use drmaa_types::{MachineInfo, Refusal, Reserved};
use std::alloc::AllocError;
use text_codec::{Print, push_behind, push_list};
use text_forms::push_refusal;

/// Prints a word and a list.
fn push_listed<T: Print>(out: &mut Vec<u8>, word: &[u8], values: &[T]) -> Result<(), AllocError>
    ensures text { OnOk result (out.new.items ≡ out.old.items ++ (keyed word.now (list_of T.form) values.now).text) }
    ensures valid { OnOk result ((keyed word.now (list_of T.form) values.now).valid) }
{
    out.extend_from_slice(word)?;
    out.extend_from_slice(b" ")?;
    push_list(out, values)
}

#[tactic(auto, unfolding(crate::specs::Replies::reserved, text_codec::specs::Formats::mapped, text_codec::specs::Formats::pair))]
fn push_reserved(out: &mut Vec<u8>, reserved: &Reserved) -> Result<(), AllocError>
    ensures text { OnOk result (out.new.items ≡ out.old.items ++ (reply_form (reply.Reserved reserved.now)).text) }
    ensures valid { OnOk result ((reply_form (reply.Reserved reserved.now)).valid) }
{
    push_three(
        out,
        b"reserved",
        &reserved.reservation,
        &reserved.slots,
        &reserved.from,
    )?;
    push_behind(out, b" ", &reserved.until)
}

#[tactic(auto, unfolding(crate::specs::Replies::machine, text_codec::specs::Formats::mapped, text_codec::specs::Formats::pair))]
fn push_machine(out: &mut Vec<u8>, machine: &MachineInfo) -> Result<(), AllocError>
    ensures text { OnOk result (out.new.items ≡ out.old.items ++ (reply_form (reply.Machine machine.now)).text) }
    ensures valid { OnOk result ((reply_form (reply.Machine machine.now)).valid) }
{
    push_three(
        out,
        b"machine",
        &machine.name,
        &machine.slots,
        &machine.used,
    )
}

#[tactic(auto, unfolding(crate::specs::Replies::launch, text_codec::specs::Formats::mapped, text_codec::specs::Formats::pair, crate::specs::Replies::texts))]
fn push_launch(out: &mut Vec<u8>, launch: &Launch) -> Result<(), AllocError>
    ensures text { OnOk result (out.new.items ≡ out.old.items ++ (reply_form (reply.Launch launch.now)).text) }
    ensures valid { OnOk result ((reply_form (reply.Launch launch.now)).valid) }
{
    push_three(out, b"launch", &launch.job, &launch.attempt, &launch.slots)?;
    out.extend_from_slice(b" ")?;
    push_list(out, launch.words.get().as_slice())
}

#[tactic(auto, unfolding(crate::specs::Replies::signal, text_codec::specs::Formats::mapped, text_codec::specs::Formats::pair))]
fn push_signal(out: &mut Vec<u8>, signal: &Signal) -> Result<(), AllocError>
    ensures text { OnOk result (out.new.items ≡ out.old.items ++ (reply_form (reply.Signal signal.now)).text) }
    ensures valid { OnOk result ((reply_form (reply.Signal signal.now)).valid) }
{
    push_three(out, b"signal", &signal.job, &signal.attempt, &signal.kind)
}

#[tactic(auto, unfolding(text_forms::specs::Refusals::refusals, text_forms::specs::Refusals::refusal_sum, text_codec::specs::Sums::sum_of))]
fn push_refused(out: &mut Vec<u8>, refusal: Refusal) -> Result<(), AllocError>
    ensures text { OnOk result (out.new.items ≡ out.old.items ++ (reply_form (reply.Refused refusal)).text) }
    ensures valid { may_stand refusal ≡ true → OnOk result ((reply_form (reply.Refused refusal)).valid) }
{
    out.extend_from_slice(b"refused ")?;
    push_refusal(out, refusal)
}

/// Prints a reply. A refusal that no journal has is printed as `refused` with its number alone, or with the journal's own limit
/// (`refused 2`, `refused 8`, `refused 7 journal`): it has no spelling that is read.
#[tactic(auto, unfolding(crate::specs::Replies::ids, crate::specs::Replies::texts, crate::specs::Replies::infos, crate::specs::Replies::reservation_infos, crate::specs::Replies::members))]
pub fn push_reply(out: &mut Vec<u8>, reply: &Reply) -> Result<(), AllocError>
    ensures text { OnOk result (out.new.items ≡ out.old.items ++ (reply_form reply.now).text) }
    ensures valid { may_answer reply.now ≡ true → OnOk result ((reply_form reply.now).valid) }
{
    match reply {
        Reply::Unit => out.extend_from_slice(b"ok"),
        Reply::Session(session) => push_one(out, b"session", session),
        Reply::Names(names) => push_listed(out, b"names", names.as_slice()),
        Reply::Job(job) => push_one(out, b"job", job),
        Reply::Array {
            array,
            first,
            count,
        } => push_three(out, b"array", array, first, count),
        Reply::Jobs(jobs) => push_listed(out, b"jobs", jobs.as_slice()),
        Reply::State(state) => push_one(out, b"state", state),
        Reply::Info(info) => push_one(out, b"info", info.get()),
        Reply::Reached(job) => push_one(out, b"reached", job),
        Reply::Reserved(reserved) => push_reserved(out, reserved),
        Reply::Reservation(info) => push_one(out, b"reservation", info.get()),
        Reply::Reservations(reservations) => push_listed(
            out,
            b"reservations",
            reservations.as_slice(),
        ),
        Reply::Infos(infos) => push_listed(out, b"infos", infos.as_slice()),
        Reply::ReservationInfos(infos) => push_listed(out, b"reservation-infos", infos.as_slice()),
        Reply::Machine(machine) => push_machine(out, machine),
        Reply::Callback(number) => push_one(out, b"callback", number),
        Reply::Launch(launch) => push_launch(out, launch),
        Reply::Signal(signal) => push_signal(out, signal),
        Reply::Refused(refusal) => push_refused(out, *refusal),
    }
}
