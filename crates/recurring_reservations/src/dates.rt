//! Moments that are some months after another, in the calendar of `jiff`.
ghost use Rattle.std.specs.Prelude.{◌≡◌, ◌<ℤ◌, ◌≤ℤ◌, pos, IfSome, IfNone};
ghost use Rattle.jiff.specs.Words.{epoch_day, add_months};
ghost use Rattle.recurring_reservations.specs.Dates.{IsDateOf, IsMonthsLater, IsBeyond};

use drmaa_types::Moment;
use jiff::ToSpan;
use jiff::civil::Date;
use jiff_core::civil;

pub(crate) const SECONDS_OF_DAY: u64 = 86_400;

/// The most months by which `jiff` moves a date.
const MOST_MONTHS: u32 = 239_976;

/// The date of the day in which a moment lies.
fn date_of(moment: Moment) -> Date
    ensures { IsDateOf moment result }
{
    let day = (moment.number() / SECONDS_OF_DAY) as i64;
    Date::from_plain(civil::Date::from_unix_epoch_day(day).unwrap())
}

/// The date so many months after a date from 1970 on. None exactly where the calendar has none, since it would be after
/// the year 9999.
fn months_after(date: Date, months: u32) -> Option<Date>
    requires { pos 0 ≤ℤ epoch_day date }
    ensures found { IfSome result (λ later. epoch_day later ≡ add_months date (pos months)) }
    ensures since { IfSome result (λ later. pos 0 ≤ℤ epoch_day later) }
    ensures beyond { IfNone result (pos 2_932_896 <ℤ add_months date (pos months)) }
{
    if months > MOST_MONTHS {
        return None;
    }
    let Ok(later) = date.checked_add(i64::from(months).months()) else {
        return None;
    };
    Some(later)
}

/// The moment so many months after another. None exactly where it would be after the greatest moment.
pub(crate) fn months_later(moment: Moment, months: u32) -> Option<Moment>
    ensures found { IfSome result (IsMonthsLater moment months) }
    ensures beyond { IfNone result (IsBeyond (IsMonthsLater moment months)) }
{
    let date = date_of(moment);
    let Some(later) = months_after(date, months) else {
        return None;
    };
    let day = later.to_plain().to_unix_epoch_day() as u64;
    Moment::new(day * SECONDS_OF_DAY + moment.number() % SECONDS_OF_DAY)
}
