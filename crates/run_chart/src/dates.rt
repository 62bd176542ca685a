//! The date of a moment: one is reckoned, and taken where it is the moment's.
ghost use Rattle.std.specs.Prelude.{◌≡◌, ◌++◌, ◌≤◌, IfOk, IfSome, OnOk, string_bytes};
ghost use Rattle.text_codec.specs.Exact.{two};
ghost use Rattle.text_dates.specs.Dates as forms;
ghost use Rattle.run_chart.specs.Dates as dates;

use drmaa_types::Moment;
use itoa::Buffer;
use std::alloc::{AllocError, Global};
use text_dates::{DateTime, moment_of};

/// How many days of its 400 years have passed on a day, where each year begins with March.
fn passed_days(day: u64) -> u32
    ensures { result ≡ dates.passed_days day }
{
    ((u128::from(day) + 719_468) % 146_097) as u32
}

/// How many whole years have passed with so many days.
fn passed_years(days: u32) -> u32
    ensures { result ≡ dates.passed_years days }
{
    let leap_days = (days / 1_460).saturating_sub(days / 36_524) + days / 146_096;
    days.saturating_sub(leap_days) / 365
}

/// How many days of the last year have passed.
fn day_of_year(days: u32) -> u32
    ensures { result ≡ dates.day_of_year days }
{
    let years = u64::from(passed_years(days));
    let before = (years * 365 + years / 4).saturating_sub(years / 100);
    u64::from(days).saturating_sub(before) as u32
}

/// How many months of the year have passed, where so many of its days have.
fn passed_months(days: u32) -> u32
    ensures { result ≡ dates.passed_months days }
{
    ((u64::from(days) * 5 + 2) / 153) as u32
}

/// The month, from 1 for January.
fn month_of(months: u32) -> u8
    ensures { result ≡ dates.month_of months }
{
    if months < 10 {
        (months + 3) as u8
    } else {
        ((months - 9) % 256) as u8
    }
}

/// The day of the month.
fn day_of(days: u32, months: u32) -> u8
    ensures { result ≡ dates.day_of days months }
{
    let before = (u64::from(months) * 153 + 2) / 5;
    ((u64::from(days).saturating_sub(before) + 1) % 256) as u8
}

/// The year, where so many years and months have passed of the 400 years that a day is in.
fn year_of(day: u64, years: u32, months: u32) -> u16
    ensures { result ≡ dates.year_of day years months }
{
    let eras = (u128::from(day) + 719_468) / 146_097;
    let late = if months < 10 { 0 } else { 1 };
    ((eras * 400 + u128::from(years) + late) % 65_536) as u16
}

/// The date of a moment, as it is reckoned.
#[tactic(auto, unfolding(crate::specs::Dates::reckoned))]
fn reckoned(at: Moment) -> DateTime
    ensures { result ≡ dates.reckoned at }
{
    let day = at.number() / 86_400;
    let second = at.number() % 86_400;
    let passed = passed_days(day);
    let days = day_of_year(passed);
    let months = passed_months(days);
    DateTime {
        year: year_of(day, passed_years(passed), months),
        month: month_of(months),
        day: day_of(days, months),
        hour: (second / 3_600) as u8,
        minute: (second / 60 % 60) as u8,
        second: (second % 60) as u8,
    }
}

/// Whether the moment of a date is this one.
fn is_at(moment: Option<Moment>, at: Moment) -> bool
    ensures { result ≡ dates.is_at moment at }
{
    match moment {
        Some(moment) => moment.number() == at.number(),
        None => false,
    }
}

/// Writes two digits.
#[tactic(auto, unfolding(text_codec::specs::Exact::two))]
fn push_two(out: &mut String, number: u8) -> Result<(), AllocError>
    ensures { OnOk result (string_bytes out.new ≡ string_bytes out.old ++ two.spell number) }
{
    out.push(char::from(48 + number / 10))?;
    out.push(char::from(48 + number % 10))
}

/// Writes the day of a date.
#[tactic(auto, unfolding(crate::specs::Dates::day_text, text_dates::specs::Dates::day, text_codec::specs::Exact::beside))]
fn push_day(out: &mut String, date: &DateTime) -> Result<(), AllocError>
    requires { date.now.year ≤ 9999 }
    ensures { OnOk result (string_bytes out.new ≡ string_bytes out.old ++ dates.day_text date.now) }
{
    push_two(out, (date.year / 100) as u8)?;
    push_two(out, (date.year % 100) as u8)?;
    out.push_str("-")?;
    push_two(out, date.month)?;
    out.push_str("-")?;
    push_two(out, date.day)
}

/// Writes the time of a date.
#[tactic(auto, unfolding(crate::specs::Dates::time_text, text_dates::specs::Dates::time, text_codec::specs::Exact::beside))]
fn push_time(out: &mut String, date: &DateTime) -> Result<(), AllocError>
    ensures { OnOk result (string_bytes out.new ≡ string_bytes out.old ++ dates.time_text date.now) }
{
    push_two(out, date.hour)?;
    out.push_str(":")?;
    push_two(out, date.minute)?;
    out.push_str(":")?;
    push_two(out, date.second)
}

/// Writes a date as scripts spell it.
#[tactic(auto, unfolding(crate::specs::Dates::day_text, crate::specs::Dates::time_text, text_dates::specs::Dates::date, text_dates::specs::Dates::digits, text_codec::specs::Formats::mapped, text_codec::specs::Exact::beside, text_codec::specs::Exact::before))]
fn push_date(out: &mut String, date: &DateTime) -> Result<(), AllocError>
    requires { date.now.year ≤ 9999 }
    ensures { OnOk result (string_bytes out.new ≡ string_bytes out.old ++ forms.date.spell date.now) }
{
    push_day(out, date)?;
    out.push_str("T")?;
    push_time(out, date)?;
    out.push_str("Z")
}

/// The date of a moment of a real clock.
fn date_of(at: Moment) -> Option<DateTime>
    ensures value { result ≡ dates.date_of at }
    ensures year { IfSome result (λ date. date.year ≤ 9999) }
{
    let date = reckoned(at);
    if 1_000_000_000 <= at.number() && is_at(moment_of(&date), at) {
        Some(date)
    } else {
        None
    }
}

/// Writes a moment: by its date, or by its number.
#[tactic(auto, unfolding(crate::specs::Dates::moment_text))]
pub(crate) fn push_moment(out: &mut String, at: Moment) -> Result<(), AllocError>
    ensures { OnOk result (string_bytes out.new ≡ string_bytes out.old ++ dates.moment_text at) }
{
    let mut digits = Buffer::new();
    match date_of(at) {
        Some(date) => push_date(out, &date),
        None => out.push_str(digits.format(at.number())),
    }
}
