//! What is read of all rows. None of it takes memory.
ghost use Rattle.std.specs.Prelude.{◌≡◌, IsTrue, IsFalse, Some, false, int_lt, not};
ghost use Rattle.std.specs.Option.{option_copied, option_map_or};
ghost use Rattle.drmaa_model.specs.declared.rows.Row.{Row};
ghost use Rattle.drmaa_model.specs.NextLaunch.{is_reached, better};

use drmaa_model::Row;
use drmaa_types::Moment;

/// Whether the moment before which a job is not launched has come.
pub fn is_reached(moment: Moment, start: Option<Moment>) -> bool
    ensures { result ≡ is_reached moment start }
{
    match start {
        Some(start) => start.number() <= moment.number(),
        None => true,
    }
}

/// Whether the best job so far stands before this one, which comes later: its priority is at least as great.
pub fn is_beaten(best: Option<&Row>, row: &Row) -> bool
    ensures beaten { IsTrue result → Some (option_map_or (λ (first : Row). better first row.now) (option_copied best.entry) row.now) ≡ option_copied best.entry }
    ensures first { IsFalse result → option_map_or (λ (first : Row). better first row.now) (option_copied best.entry) row.now ≡ row.now }
{
    match best {
        Some(first) => !is_lesser(first, row),
        None => false,
    }
}

/// Whether there is a best job so far, and its priority is at least this one.
pub fn has_priority(best: Option<&Row>, least: i32) -> bool
    ensures { result ≡ option_map_or (λ (first : Row). not (int_lt first.wants.priority least)) (option_copied best.entry) false }
{
    match best {
        Some(first) => first.wants.priority >= least,
        None => false,
    }
}

fn is_lesser(first: &Row, second: &Row) -> bool
    ensures { result ≡ int_lt first.now.wants.priority second.now.wants.priority }
{
    first.wants.priority < second.wants.priority
}
