//! Copies of what is told, each equal to what it was made from.
ghost use Rattle.std.specs.Prelude.{◌≡◌, IfOk};

use drmaa_model::{Launch, Reply};
use drmaa_types::{
    Boxed, IdList, InfoList, JobInfo, MachineInfo, ReservationInfo, ReservationList, TextList,
};
use machine_readings::copied;
use std::alloc::{AllocError, Global};

/// A copy of a reply. Each kind of reply is named, so that a new one can't be passed over.
///
/// # Errors
///
/// Want of memory.
pub(crate) fn copied_reply(alloc: Global, reply: &Reply) -> Result<Reply, AllocError>
    ensures { IfOk result (λ copy. copy ≡ reply.now) }
{
    match reply {
        Reply::Unit => Ok(Reply::Unit),
        Reply::Session(session) => Ok(Reply::Session(*session)),
        Reply::Names(names) => Ok(Reply::Names(copied_texts(names)?)),
        Reply::Job(job) => Ok(Reply::Job(*job)),
        Reply::Array {
            array,
            first,
            count,
        } => Ok(Reply::Array {
            array: *array,
            first: *first,
            count: *count,
        }),
        Reply::Jobs(numbers) => Ok(Reply::Jobs(copied_numbers(numbers)?)),
        Reply::State(state) => Ok(Reply::State(*state)),
        Reply::Info(info) => Ok(Reply::Info(boxed_info(alloc, info.get())?)),
        Reply::Reached(job) => Ok(Reply::Reached(*job)),
        Reply::Reserved(reserved) => Ok(Reply::Reserved(*reserved)),
        Reply::Reservation(info) => Ok(Reply::Reservation(boxed_reservation(alloc, info.get())?)),
        Reply::Reservations(numbers) => Ok(Reply::Reservations(copied_numbers(numbers)?)),
        Reply::Infos(infos) => Ok(Reply::Infos(copied_infos(alloc, infos)?)),
        Reply::ReservationInfos(infos) => Ok(Reply::ReservationInfos(copied_reservations(
            alloc, infos,
        )?)),
        Reply::Machine(info) => Ok(Reply::Machine(copied_machine(info)?)),
        Reply::Callback(number) => Ok(Reply::Callback(*number)),
        Reply::Launch(launch) => Ok(Reply::Launch(copied_launch(launch)?)),
        Reply::Signal(signal) => Ok(Reply::Signal(*signal)),
        Reply::Refused(why) => Ok(Reply::Refused(*why)),
    }
}

/// A copy of texts.
#[tactic(auto, using(std::proofs::lemmas::List::Elements::same_from_all_zip))]
fn copied_texts(texts: &TextList) -> Result<TextList, AllocError>
    ensures { IfOk result (λ copy. copy ≡ texts.now) }
{
    texts.clone()
}

/// A copy of numbers.
#[tactic(auto, using(std::proofs::lemmas::List::Elements::same_from_all_zip))]
fn copied_numbers(numbers: &IdList) -> Result<IdList, AllocError>
    ensures { IfOk result (λ copy. copy ≡ numbers.now) }
{
    numbers.clone()
}

/// A copy of what is told of a job.
fn copied_info(info: &JobInfo) -> Result<JobInfo, AllocError>
    ensures { IfOk result (λ copy. copy ≡ info.now) }
{
    let session = copied(&info.session)?;
    let name = copied(&info.name)?;
    let queue = info.queue.clone()?;
    Ok(JobInfo {
        job: info.job,
        session,
        name,
        array: info.array,
        index: info.index,
        state: info.state,
        slots: info.slots,
        queue,
        wallclock: info.wallclock,
        submitted: info.submitted,
        dispatched: info.dispatched,
        finished: info.finished,
        exit: info.exit,
        note: info.note,
    })
}

/// The same, in memory of its own.
fn boxed_info(alloc: Global, info: &JobInfo) -> Result<Boxed<JobInfo>, AllocError>
    ensures { IfOk result (λ copy. copy ≡ info.now) }
{
    let copy = copied_info(info)?;
    Boxed::new(alloc, copy)
}

/// A copy of what is told of jobs.
fn copied_infos(alloc: Global, infos: &InfoList) -> Result<InfoList, AllocError>
    ensures { IfOk result (λ copy. copy ≡ infos.now) }
{
    let listed = infos.as_slice();
    let mut copy = Vec::with_capacity(alloc, listed.len())?;
    for info in listed {
        copy.push(copied_info(info)?)?;
    }
    Ok(InfoList::from_vec(copy))
}

/// A copy of what is told of a reservation.
fn copied_reservation(info: &ReservationInfo) -> Result<ReservationInfo, AllocError>
    ensures { IfOk result (λ copy. copy ≡ info.now) }
{
    let session = copied(&info.session)?;
    let name = copied(&info.name)?;
    Ok(ReservationInfo {
        reservation: info.reservation,
        session,
        name,
        slots: info.slots,
        from: info.from,
        until: info.until,
    })
}

/// The same, in memory of its own.
fn boxed_reservation(
    alloc: Global,
    info: &ReservationInfo,
) -> Result<Boxed<ReservationInfo>, AllocError>
    ensures { IfOk result (λ copy. copy ≡ info.now) }
{
    let copy = copied_reservation(info)?;
    Boxed::new(alloc, copy)
}

/// A copy of what is told of reservations.
fn copied_reservations(
    alloc: Global,
    infos: &ReservationList,
) -> Result<ReservationList, AllocError>
    ensures { IfOk result (λ copy. copy ≡ infos.now) }
{
    let listed = infos.as_slice();
    let mut copy = Vec::with_capacity(alloc, listed.len())?;
    for info in listed {
        copy.push(copied_reservation(info)?)?;
    }
    Ok(ReservationList::from_vec(copy))
}

/// A copy of what is told of the machine.
fn copied_machine(info: &MachineInfo) -> Result<MachineInfo, AllocError>
    ensures { IfOk result (λ copy. copy ≡ info.now) }
{
    let name = info.name.clone()?;
    Ok(MachineInfo {
        name,
        slots: info.slots,
        used: info.used,
    })
}

/// The same launch, which shares its words.
///
/// # Errors
///
/// Want of memory.
pub(crate) fn copied_launch(launch: &Launch) -> Result<Launch, AllocError>
    ensures { IfOk result (λ copy. copy ≡ launch.now) }
{
    let words = launch.words.clone()?;
    Ok(Launch {
        job: launch.job,
        attempt: launch.attempt,
        slots: launch.slots,
        words,
    })
}
