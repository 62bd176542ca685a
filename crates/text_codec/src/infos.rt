//! Infos of jobs and of reservations in braces: read, in groups of fields, the last one first.
ghost use Rattle.std.specs.Prelude.{◌≡◌};
ghost use Rattle.text_codec.specs.Formats.{Answers};
ghost use Rattle.text_codec.specs.Infos as infos;
ghost use Rattle.text_codec.specs.InfoLaws as laws;
ghost use Rattle.text_codec.specs.ValueWords.{make_note};

use crate::{Cursor, Form, Unread, read_set};
use drmaa_types::{
    ArrayId, Exit, JobId, JobInfo, JobState, Moment, Note, ReservationId, ReservationInfo, Text,
};

/// The last fields of a job's info.
type Ends = (
    Option<Moment>,
    (Option<Moment>, (Option<Exit>, (Option<Note>, ()))),
);

/// Those before them: how long it has run, and when it was submitted.
type Times = (Option<u64>, (Moment, Ends));

/// Those before them.
type Stands = (JobState, (Option<u32>, (Text, Times)));

/// Those before them.
type Names = (
    Option<Text>,
    (Option<Text>, (Option<ArrayId>, (Option<u32>, Stands))),
);

#[tactic(auto, unfolding(crate::specs::Infos::end_fields, crate::specs::Fields::field, crate::specs::Fields::no_more))]
fn read_ends(cursor: &mut Cursor) -> Result<Ends, Unread>
    ensures { Answers infos.end_fields.body.read cursor.old result cursor.new }
{
    let dispatched = read_set(cursor, b" dispatched ")?;
    let finished = read_set(cursor, b" finished ")?;
    let exit = read_set(cursor, b" exit ")?;
    let note = read_set(cursor, b" note ")?;
    Ok((dispatched, (finished, (exit, (note, ())))))
}

#[tactic(auto, unfolding(crate::specs::Infos::time_fields, crate::specs::Fields::field, crate::specs::Fields::always))]
fn read_times(cursor: &mut Cursor) -> Result<Times, Unread>
    ensures { Answers infos.time_fields.body.read cursor.old result cursor.new }
{
    let wallclock = read_set(cursor, b" wallclock ")?;
    cursor.expect(b" submitted ")?;
    let submitted = cursor.moment()?;
    let ends = read_ends(cursor)?;
    Ok((wallclock, (submitted, ends)))
}

#[tactic(auto, unfolding(crate::specs::Infos::stand_fields, crate::specs::Fields::field, crate::specs::Fields::always))]
fn read_stands(cursor: &mut Cursor) -> Result<Stands, Unread>
    ensures { Answers infos.stand_fields.body.read cursor.old result cursor.new }
{
    cursor.expect(b" state ")?;
    let state = JobState::read(cursor)?;
    let slots = read_set(cursor, b" slots ")?;
    cursor.expect(b" queue ")?;
    let queue = cursor.text()?;
    let times = read_times(cursor)?;
    Ok((state, (slots, (queue, times))))
}

#[tactic(auto, unfolding(crate::specs::Infos::name_fields, crate::specs::Fields::field))]
fn read_names(cursor: &mut Cursor) -> Result<Names, Unread>
    ensures { Answers infos.name_fields.body.read cursor.old result cursor.new }
{
    let session = read_set(cursor, b" session ")?;
    let name = read_set(cursor, b" name ")?;
    let array = read_set(cursor, b" array ")?;
    let index = read_set(cursor, b" index ")?;
    let stands = read_stands(cursor)?;
    Ok((session, (name, (array, (index, stands)))))
}

/// The note that was read, or that there is none.
fn made_note(note: Option<Note>) -> Note
    ensures { result ≡ make_note note }
{
    match note {
        Some(note) => note,
        None => Note::None,
    }
}

/// The info with these fields.
fn made_info(job: JobId, names: Names) -> JobInfo
    ensures { result ≡ infos.make_info (job, names) }
{
    let (session, (name, (array, (index, stands)))) = names;
    let (state, (slots, (queue, (wallclock, (submitted, ends))))) = stands;
    let (dispatched, (finished, (exit, (note, ())))) = ends;
    JobInfo {
        job,
        session,
        name,
        array,
        index,
        state,
        slots,
        queue,
        wallclock,
        submitted,
        dispatched,
        finished,
        exit,
        note: made_note(note),
    }
}

impl Form for JobInfo {
    ghost form = { infos.job_info };

    ghost laws = { laws.job_info_laws };

    #[tactic(auto, unfolding(crate::specs::Infos::job_info, crate::specs::Formats::mapped, crate::specs::Fields::in_braces))]
    fn read(cursor: &mut Cursor) -> Result<JobInfo, Unread> {
        cursor.expect(b"{job ")?;
        let job = JobId::read(cursor)?;
        let names = read_names(cursor)?;
        cursor.expect(b"}")?;
        Ok(made_info(job, names))
    }
}

impl Form for ReservationInfo {
    ghost form = { infos.reservation_info };

    ghost laws = { laws.reservation_info_laws };

    #[tactic(auto, unfolding(crate::specs::Infos::reservation_info, crate::specs::Infos::booked_fields, crate::specs::Formats::mapped, crate::specs::Fields::in_braces, crate::specs::Fields::field, crate::specs::Fields::always, crate::specs::Fields::no_more))]
    fn read(cursor: &mut Cursor) -> Result<ReservationInfo, Unread> {
        cursor.expect(b"{reservation ")?;
        let reservation = ReservationId::read(cursor)?;
        let session = read_set(cursor, b" session ")?;
        let name = read_set(cursor, b" name ")?;
        cursor.expect(b" slots ")?;
        let slots = cursor.u32()?;
        cursor.expect(b" from ")?;
        let from = cursor.moment()?;
        cursor.expect(b" until ")?;
        let until = cursor.moment()?;
        cursor.expect(b"}")?;
        Ok(ReservationInfo {
            reservation,
            session,
            name,
            slots,
            from,
            until,
        })
    }
}
