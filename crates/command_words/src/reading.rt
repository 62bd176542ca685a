//! The command of a name and the values behind it.
ghost use Rattle.std.specs.Prelude.{◌≡◌, ◌<◌, ◌≤◌, ◌^◌, ◌∷◌, [], map, decimal, codes, IfOk};
ghost use Rattle.drmaa_types.specs.Moments as moments;
ghost use Rattle.command_words.specs.Commands.{AsksFor, Finds, IsPlain, unit_word};

use crate::commands::{Command, RecurWords, SoakWords, Unit};
use drmaa_types::{Moment, Text};
use std::alloc::{AllocError, Global};
use text_codec::{behind_key, number_of};

/// The number that a word spells.
fn number_in(word: &[u8]) -> Option<u64>
    ensures { Finds (λ n. (n < 2 ^ 64) × (word.now ≡ decimal n)) result }
{
    number_of(word)
}

/// The number that a word spells, up to the greatest.
fn number_up_to(word: &str, greatest: u32) -> Option<u32>
    ensures { Finds (λ n. (n ≤ greatest) × (word.now ≡ decimal n)) result }
{
    match number_in(word.as_bytes()) {
        Some(number) if number <= u64::from(greatest) => Some(number as u32),
        _ => None,
    }
}

/// The number that a word spells, from 1 to the greatest.
fn count_in(word: &str, greatest: u32) -> Option<u32>
    ensures { Finds (λ n. (1 ≤ n) × (n ≤ greatest) × (word.now ≡ decimal n)) result }
{
    match number_in(word.as_bytes()) {
        Some(number) if 1 <= number && number <= u64::from(greatest) => Some(number as u32),
        _ => None,
    }
}

/// The number of seconds that a word spells.
fn duration_in(word: &str) -> Option<u64>
    ensures { Finds (λ n. (n < 2 ^ 64) × (word.now ≡ decimal n)) result }
{
    number_in(word.as_bytes())
}

/// The moment that a word spells: `@` and its number.
fn moment_in(word: &str) -> Option<Moment>
    ensures { Finds (λ m. (m ≤ moments.greatest) × (word.now ≡ 64 ∷ decimal m)) result }
{
    Moment::new(number_in(behind_key(word.as_bytes(), b"@")?)?)
}

/// The unit of this name.
fn unit_in(word: &str) -> Option<Unit>
    ensures { Finds (λ unit. word.now ≡ unit_word unit) result }
{
    match word {
        "days" => Some(Unit::Days),
        "weeks" => Some(Unit::Weeks),
        "months" => Some(Unit::Months),
        _ => None,
    }
}

/// A copy of the word.
fn copy_of(alloc: Global, word: &str) -> Result<Text, AllocError>
    ensures { IfOk result (λ text. text ≡ word.now) }
{
    Ok(Text::from_string(String::from_str(alloc, word)?))
}

/// The command `recur` with these values, of which none begins with `-`.
fn recur_command(alloc: Global, values: &[&str]) -> Result<Option<Command>, AllocError>
    requires { IsPlain (map (λ v. v.now) values.now) }
    ensures { IfOk result (Finds (AsksFor (codes "recur" ∷ map (λ v. v.now) values.now))) }
{
    let [session, unit, number, count, start, duration, slots] = values else {
        return Ok(None);
    };
    let Some(unit) = unit_in(unit) else {
        return Ok(None);
    };
    let Some(number) = count_in(number, 1_000) else {
        return Ok(None);
    };
    let Some(count) = count_in(count, 1_000) else {
        return Ok(None);
    };
    let Some(start) = moment_in(start) else {
        return Ok(None);
    };
    let Some(duration) = duration_in(duration) else {
        return Ok(None);
    };
    let Some(slots) = count_in(slots, 65_535) else {
        return Ok(None);
    };
    Ok(Some(Command::Recur(RecurWords {
        session: copy_of(alloc, session)?,
        unit,
        number,
        count,
        start,
        duration,
        slots,
    })))
}

/// The command `soak` with these values.
fn soak_command(values: &[&str]) -> Option<Command>
    ensures { Finds (AsksFor (codes "soak" ∷ map (λ v. v.now) values.now)) result }
{
    let [steps, seed] = values else {
        return None;
    };
    Some(Command::Soak(SoakWords {
        steps: number_up_to(steps, 100_000)?,
        seed: number_up_to(seed, 2_147_483_647)?,
    }))
}

/// The command that is this one word.
fn word_command(word: &str) -> Option<Command>
    ensures { Finds (AsksFor (word.now ∷ [])) result }
{
    match word {
        "serial" => Some(Command::Serial),
        "threads" => Some(Command::Threads),
        "table" => Some(Command::Table),
        "check" => Some(Command::Check),
        "migrate" => Some(Command::Migrate),
        "json" => Some(Command::Json),
        "forecast" => Some(Command::Forecast),
        "continue" => Some(Command::Continue),
        _ => None,
    }
}

/// The command of this name with these values. None of the words begins with `-`.
pub(crate) fn read_command(
    alloc: Global,
    name: &str,
    values: &[&str],
) -> Result<Option<Command>, AllocError>
    requires { IsPlain (name.now ∷ map (λ v. v.now) values.now) }
    ensures { IfOk result (Finds (AsksFor (name.now ∷ map (λ v. v.now) values.now))) }
{
    match name {
        "recur" => recur_command(alloc, values),
        "soak" => Ok(soak_command(values)),
        _ if values.is_empty() => Ok(word_command(name)),
        _ => Ok(None),
    }
}
