//! Dates with a time of day in UTC, and their moments.
ghost use Rattle.std.specs.Prelude.{◌≡◌, ℕ, ◌+◌, ◌*◌, ◌≤◌, pos, Some, None, IfSome, if◌then◌else◌};
ghost use Rattle.jiff.specs.Words.{IsEpochDay};
ghost use Rattle.jiff_core.specs.Calendar.{days_from_civil};
ghost use Rattle.text_dates.specs.Dates as dates;
ghost use Rattle.text_codec.specs.Formats.{Answers};
ghost use Rattle.text_dates.specs.DateLaws as laws;

use drmaa_types::Moment;
use jiff::civil::Date;
use text_codec::{Cursor, Form, Unread};

/// A date and a time of day in UTC, as it is spelled.
#[derive(Clone, Copy, Debug, PartialEq, Eq)]
pub struct DateTime {
    /// The year, from 0 to 9999.
    pub year: u16,
    /// The month, from 1.
    pub month: u8,
    /// The day of the month, from 1.
    pub day: u8,
    /// The hour, from 0 to 23.
    pub hour: u8,
    /// The minute, from 0 to 59.
    pub minute: u8,
    /// The second, from 0 to 59.
    pub second: u8,
}

/// The number of a date's day, where 1970-01-01 is 0. None exactly where the calendar has no such date.
fn day_number(date: &DateTime) -> Option<i32>
    ensures value { result ≡ dates.day_number date.now }
    ensures bound { IfSome result IsEpochDay }
{
    let year = i16::try_from(date.year).ok()?;
    let month = i8::try_from(date.month).ok()?;
    let day = i8::try_from(date.day).ok()?;
    let Ok(date) = Date::new(year, month, day) else {
        return None;
    };
    Some(date.to_plain().to_unix_epoch_day())
}

/// How many seconds of its day have passed. None exactly where it is no time of a day.
fn second_of_day(date: &DateTime) -> Option<u32>
    ensures value { result ≡ dates.second_of_day date.now }
    ensures within { IfSome result (λ n. n ≤ 86_399) }
{
    if date.hour > 23 || date.minute > 59 || date.second > 59 {
        return None;
    }
    Some(u32::from(date.hour) * 3600 + u32::from(date.minute) * 60 + u32::from(date.second))
}

/// The moment so many seconds after the start of 1970. None exactly where there is none.
fn moment_at(seconds: i64) -> Option<Moment>
    ensures { result ≡ dates.moment_at seconds }
{
    Moment::new(u64::try_from(seconds).ok()?)
}

/// The moment of a date, by its day and its second.
#[tactic(auto, unfolding(crate::specs::Dates::moment_of))]
fn moment_by_day(date: &DateTime) -> Option<Moment>
    ensures { result ≡ dates.moment_of date.now }
{
    let day = day_number(date)?;
    let second = second_of_day(date)?;
    moment_at(i64::from(day) * 86_400 + i64::from(second))
}

/// The moment of a date. None exactly where the calendar has no such date, where it is no time of a day, or where the
/// moment is before 1970 or after the greatest moment.
#[tactic(auto, using(crate::specs::DateLaws::moment_is, crate::specs::DateLaws::is_moment))]
pub fn moment_of(date: &DateTime) -> Option<Moment>
    ensures value { result ≡ dates.moment_of date.now }
    ensures found { IfSome result (dates.IsAt date.now) }
    ensures only { (m : ℕ) → dates.IsAt date.now m → result ≡ Some m }
{
    moment_by_day(date)
}

/// Reads the year, month and day.
#[tactic(auto, unfolding(crate::specs::Dates::day, text_codec::specs::Exact::beside))]
fn read_day(cursor: &mut Cursor) -> Result<((u8, u8), (u8, u8)), Unread>
    ensures { Answers dates.day.read cursor.old result cursor.new }
{
    let century = cursor.two()?;
    let year = cursor.two()?;
    cursor.expect(b"-")?;
    let month = cursor.two()?;
    cursor.expect(b"-")?;
    let day = cursor.two()?;
    Ok(((century, year), (month, day)))
}

/// Reads the hour, minute and second.
#[tactic(auto, unfolding(crate::specs::Dates::time, text_codec::specs::Exact::beside))]
fn read_time(cursor: &mut Cursor) -> Result<(u8, (u8, u8)), Unread>
    ensures { Answers dates.time.read cursor.old result cursor.new }
{
    let hour = cursor.two()?;
    cursor.expect(b":")?;
    let minute = cursor.two()?;
    cursor.expect(b":")?;
    let second = cursor.two()?;
    Ok((hour, (minute, second)))
}

impl Form for DateTime {
    ghost form = { dates.date };

    ghost laws = { laws.date_laws };

    #[tactic(auto, unfolding(crate::specs::Dates::date, crate::specs::Dates::digits, text_codec::specs::Formats::mapped, text_codec::specs::Exact::beside, text_codec::specs::Exact::before))]
    fn read(cursor: &mut Cursor) -> Result<DateTime, Unread> {
        let ((century, year), (month, day)) = read_day(cursor)?;
        cursor.expect(b"T")?;
        let (hour, (minute, second)) = read_time(cursor)?;
        cursor.expect(b"Z")?;
        Ok(DateTime {
            year: u16::from(century) * 100 + u16::from(year),
            month,
            day,
            hour,
            minute,
            second,
        })
    }
}
