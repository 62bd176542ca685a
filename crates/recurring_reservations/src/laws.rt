//! What is true of every recurring reservation: each law is the contract of a function that does nothing.
ghost use Rattle.std.specs.Prelude.{◌≡◌, ℕ, ◌<◌, ◌≤◌, min, pos, ◌+ℤ◌, List, []};
ghost use Rattle.jiff.specs.Words.{epoch_day, add_months, month_number, month_length};
ghost use Rattle.jiff_core.specs.declared.civil.date.Date.{Date};
ghost use Rattle.drmaa_types.specs.Moments.{greatest};
ghost use Rattle.drmaa_types.specs.declared.refusals.Limit.TheVariants as limit;
ghost use Rattle.drmaa_types.specs.declared.refusals.Refusal.{Refusal};
ghost use Rattle.drmaa_types.specs.declared.refusals.Refusal.TheVariants.{OutOfMemory, OutOfResource};
ghost use Rattle.job_template.specs.declared.templates.ReservationTemplate.{ReservationTemplate};
ghost use Rattle.drmaa_model.specs.declared.entries.Entry.{Entry};
ghost use Rattle.drmaa_model.specs.World.{World};
ghost use Rattle.drmaa_machine.specs.Applying.{IsTooLarge};
ghost use Rattle.recurring_reservations.specs.declared.recurrences.Every.{Every};
ghost use Rattle.recurring_reservations.specs.declared.recurrences.Recurring.{Recurring};
ghost use Rattle.recurring_reservations.specs.declared.requests.Asker.{Asker};
ghost use Rattle.recurring_reservations.specs.Requests.{asking, IsDenied};
ghost use Rattle.recurring_reservations.specs.Occurrences.{number_in, IsOccurrence, AreOccurrences, HasNone};

/// A recurring reservation has one list of occurrences: two that are alike ask the same.
pub fn occurrences_are_one_list()
    ensures { (r : Recurring) (ones others : List ReservationTemplate) → AreOccurrences r ones → AreOccurrences r others → ones ≡ others }
{}

/// It has occurrences, or a reason to have none, and not both.
pub fn a_refusal_has_no_occurrences()
    ensures { (r : Recurring) (templates : List ReservationTemplate) (reason : Refusal) → AreOccurrences r templates → ¬ (HasNone r reason) }
{}

/// Each occurrence starts after the one before it.
pub fn starts_rise()
    ensures { (m : ℕ) (every : Every) (i j x y : ℕ) → 1 ≤ number_in every → IsOccurrence m every i x → IsOccurrence m every j y →
        x ≤ greatest → i < j → x < y }
{}

/// The date that is some months after another is in the month that is so many months later, at the same day, or at that
/// month's last where the month is shorter. So from a 31st on each is the last of its month.
pub fn months_keep_the_day_or_take_the_last()
    ensures month { (date later : Date) (months : ℕ) → epoch_day later ≡ add_months date (pos months) → month_number later ≡ month_number date +ℤ pos months }
    ensures day { (date later : Date) (months : ℕ) → epoch_day later ≡ add_months date (pos months) → later.day ≡ min date.day (month_length later) }
    ensures last { (date later : Date) (months : ℕ) → epoch_day later ≡ add_months date (pos months) → date.day ≡ 31 → later.day ≡ month_length later }
{}

/// A request that is refused for the size of the journal, or for want of memory, makes no entry; and the size is the one that the
/// journal would have with its entry, which is above the greatest.
pub fn a_full_journal_tells_its_size()
    ensures size { (a : Asker) (w : World) (t : ReservationTemplate) (n : ℕ) (entries : List Entry) → IsDenied a w t (OutOfResource (limit.Journal n)) entries →
        IsTooLarge w a.at (asking a t) n × (entries ≡ []) }
    ensures memory { (a : Asker) (w : World) (t : ReservationTemplate) (entries : List Entry) → IsDenied a w t OutOfMemory entries → entries ≡ [] }
{}
