//! What is true of reasons: a law is the contract of a function that does nothing.
ghost use Rattle.std.specs.Prelude.{◌≡◌, ◌↔◌, ℕ, []};
ghost use Rattle.std.specs.List.{Contains};
ghost use Rattle.drmaa_model.specs.declared.rows.Row.{Row};
ghost use Rattle.drmaa_model.specs.NextLaunch.{IsReady};
ghost use Rattle.drmaa_model.specs.Plan.{Plan};
ghost use Rattle.wait_reasons.specs.declared.reasons.Reason.{Reason};
ghost use Rattle.wait_reasons.specs.Meanings.{IsSo};
ghost use Rattle.wait_reasons.specs.Reasons.{reasons};

/// There is no reason exactly where the job is ready for so many slots.
pub fn no_reason_where_ready()
    ensures { (p : Plan) (slots : ℕ) (row : Row) → (reasons p slots row ≡ []) ↔ IsReady p slots row }
{}

/// A reason stands exactly where what it says is so.
pub fn a_reason_stands_exactly_where_it_is_so()
    ensures { (p : Plan) (slots : ℕ) (row : Row) (r : Reason) → Contains (reasons p slots row) r ↔ IsSo p slots row r }
{}
