//! What lies between two events, and how many forecasts there are.
ghost use Rattle.std.specs.Prelude.{◌≡◌, ◌<◌, ◌≤◌, ℕ, List, false};
ghost use Rattle.drmaa_types.specs.Moments.{greatest};
ghost use Rattle.drmaa_model.specs.declared.entries.Entry.{Entry};
ghost use Rattle.drmaa_model.specs.Consistent.{IsConsistent};
ghost use Rattle.drmaa_model.specs.Events.{is_event};
ghost use Rattle.drmaa_model.specs.World.{World};
ghost use Rattle.forecast_laws.specs.Forecasts.{IsDone, IsForecast};

/// Nothing happens between events. Where nothing is left to do in a world at a moment, and no event comes after it up to a
/// later one, nothing is left to do then.
pub fn nothing_happens_between_events()
    ensures { (w : World) (from to : ℕ) → IsConsistent w → w.plan.moment ≤ from → from ≤ to → to ≤ greatest →
        ((moment : ℕ) → from < moment → moment ≤ to → is_event w.plan moment ≡ false) →
        IsDone w from → IsDone w to }
{}

/// From a consistent world there is one forecast at most.
pub fn there_is_one_forecast()
    ensures { (one other : List Entry) (w : World) →
        IsConsistent w → IsForecast w one → IsForecast w other → one ≡ other }
{}
