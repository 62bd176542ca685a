//! Moments that are compared.
ghost use Rattle.std.specs.Prelude.{◌≡◌, min, max};

use drmaa_types::Moment;

/// The moment before the first entry.
pub(crate) fn opening_moment() -> Moment
    ensures { result ≡ 0 }
{
    Moment::new(0).unwrap_or(Moment::greatest())
}

/// The first of two moments.
pub(crate) fn earlier(a: Moment, b: Moment) -> Moment
    ensures { result ≡ min a b }
{
    if b.number() < a.number() { b } else { a }
}

/// The last of two moments.
pub(crate) fn later(a: Moment, b: Moment) -> Moment
    ensures { result ≡ max a b }
{
    if a.number() < b.number() { b } else { a }
}
