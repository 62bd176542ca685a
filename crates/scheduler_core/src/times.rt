//! A job's course as it will be once time has come to a moment.
ghost use Rattle.std.specs.Prelude.{◌≡◌, ◌≤◌};
ghost use Rattle.plan_book.specs.Book.{plan_of, IsBook};
ghost use Rattle.scheduler_core.specs.Launches.{seen_row};

use drmaa_model::{Course, Row};
use drmaa_types::Moment;
use plan_book::Book;

/// A job's course once time has come to this moment, which is not before that of the book.
pub fn course_then(book: &Book, row: &Row, moment: Moment) -> Course
    requires book { IsBook book.now }
    requires later { (plan_of book.now).moment ≤ moment }
    ensures { result ≡ (seen_row moment (plan_of book.now) row.now).course }
{
    book.course_at(moment, row)
}
