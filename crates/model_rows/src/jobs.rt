//! One job, sessions, slots, priorities and time.
ghost use Rattle.std.specs.Prelude.{◌≡◌, ◌++◌};
ghost use Rattle.drmaa_model.specs.declared.calls.Call.TheVariants as call;
ghost use Rattle.drmaa_model.specs.Effects.{nothing};
ghost use Rattle.drmaa_model.specs.History.{IsLegal, replay};
ghost use Rattle.drmaa_model.specs.Steps.{answer};
ghost use Rattle.model_rows.specs.Jobs as rows;
ghost use Rattle.model_rows.specs.Machines.{node};

/// One job from its submission to its end.
pub fn one_job_is_run()
    ensures { IsLegal node rows.one_job }
{}

/// A name in use is refused; the name and the numbers of a destroyed session are gone; an unset name is the least unused one.
pub fn sessions_come_and_go()
    ensures { IsLegal node rows.sessions }
{}

/// A job gets the greatest number of slots up to its most; one that wants more than the machine has is refused.
pub fn a_job_gets_the_most_slots()
    ensures most { IsLegal node rows.most_slots }
    ensures refused { IsLegal rows.one_slot rows.too_wide }
{}

/// The first job in order that fits is launched; one that does not fit waits.
pub fn a_lesser_job_is_launched_first()
    ensures legal { IsLegal node (rows.first_that_fit ++ rows.then_the_other) }
    ensures waits { answer (replay node rows.first_that_fit) 0 call.TakeLaunch ≡ nothing }
{}

/// The job of the greater priority is launched first.
pub fn a_priority_comes_before_a_number()
    ensures { IsLegal rows.one_slot rows.by_priority }
{}

/// A job that waits at its deadline fails; one that runs at the end of its limit is asked to end, and runs on.
pub fn time_ends_jobs()
    ensures deadline { IsLegal node rows.past_deadline }
    ensures limit { IsLegal node rows.past_limit }
{}
