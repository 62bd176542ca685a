//! Laws of loads and of what fits, for who keeps boundaries in place of moments. Each is the contract of a
//! function that does nothing.
ghost use Rattle.std.specs.Prelude.{◌≡◌, ℕ, ◌+◌, ◌<◌, ◌≤◌, ◌⊎◌, List, Contains, false, IsTrue};
ghost use Rattle.drmaa_types.specs.Moments.{greatest};
ghost use Rattle.drmaa_types.specs.declared.moments.End.{End};
ghost use Rattle.reservation_calendar.specs.declared.bookings.Booking.{Booking};
ghost use Rattle.reservation_calendar.specs.Loads.{load, slots_at, starts_at, ends_at};
ghost use Rattle.reservation_calendar.specs.Schedules.{Schedule, IsSound, without};
ghost use Rattle.reservation_calendar.specs.Fitting.{IsOverfull, IsFittingStart};

/// From one moment to the next a load rises only where a booking starts.
pub fn load_rises_only_at_starts()
    ensures { (bookings : List Booking) (x : ℕ) → starts_at bookings (x + 1) ≡ false
        → load bookings (x + 1) ≤ load bookings x }
{}

/// From one moment to the next a load falls only where a booking ends.
pub fn load_falls_only_at_ends()
    ensures { (bookings : List Booking) (x : ℕ) → ends_at bookings (x + 1) ≡ false
        → load bookings x ≤ load bookings (x + 1) }
{}

/// The least overfull moment of an interval is its start or the start of a booking.
pub fn least_overfull_is_the_first_or_a_start()
    ensures { (s : Schedule) (slots from : ℕ) (until : End) (x : ℕ) → IsOverfull s slots from until x
        → ((y : ℕ) → IsOverfull s slots from until y → x ≤ y)
        → (x ≡ from) ⊎ IsTrue (starts_at s.bookings x) }
{}

/// The least fitting start in a frame is the frame's start or the end of a booking.
pub fn least_fitting_start_is_the_first_or_an_end()
    ensures { (s : Schedule) (slots from until span x : ℕ) → 0 < span → until ≤ greatest
        → IsFittingStart s slots from until span x
        → ((y : ℕ) → IsFittingStart s slots from until span y → x ≤ y)
        → (x ≡ from) ⊎ IsTrue (ends_at s.bookings x) }
{}

/// Without a booking's key the load is less by exactly what that booking takes.
pub fn load_falls_by_what_is_cancelled()
    ensures { (s : Schedule) (b : Booking) (x : ℕ) → IsSound s → Contains s.bookings b
        → load (without b.key s.bookings) x + slots_at x b ≡ load s.bookings x }
{}
