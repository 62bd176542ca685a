//! Hold, release, suspend, resume and terminate.
ghost use Rattle.std.specs.Prelude.{◌≡◌, ◌≢◌, ◌+◌, ◌≤◌, Err, IfOk, OnErr, IsSome, true, false};
ghost use Rattle.drmaa_model.specs.Controlling.{control};
ghost use Rattle.drmaa_model.specs.Time.{rows_at};
ghost use Rattle.plan_book.specs.Occasions.{plan_at, MeetsAt};
ghost use Rattle.plan_book.specs.Sweeps.{acted, growth, may_add_order};
ghost use Rattle.scheduler_core.specs.Targets.{is_one_quiet};

use crate::cores::Core;
use crate::targets::{Act, refusal_at};
use drmaa_model::{NoEntry, Target};
use drmaa_types::{Control, Refusal};
use plan_book::Occasion;

impl Core {
    /// Holds, releases, suspends, resumes or terminates each job that is meant and whose state permits it, in one step. A hold
    /// or a release of one job uses at most one change of what is reserved, and takes no memory where that is there.
    ///
    /// # Errors
    ///
    /// No entry: a journal that would be too large, and else want of memory, for the entry, or for the call where it is not refused.
    ///
    /// A refusal: `InvalidArgument` where no kept job is meant; `InvalidState` with the state of the job, or of the array's kept
    /// member of least number, where the state of none permits it.
    pub fn control(
        &mut self,
        occasion: Occasion,
        target: Target,
        what: Control,
    ) -> Result<Result<(), Refusal>, NoEntry>
        ensures meets { MeetsAt occasion (control target what) self.old.plan result self.new.plan }
        ensures spare { self.old.spare ≤ self.new.spare + growth what (acted target what (rows_at occasion.at self.old.plan)) }
        ensures err { OnErr result (self.old.spare ≤ self.new.spare) }
        ensures denied { IfOk result (λ answer. OnErr answer (self.old.spare ≤ self.new.spare)) }
        ensures enough { occasion.has_memory ≡ true → growth what (acted target what (rows_at occasion.at self.old.plan)) ≤ self.old.spare
            → may_add_order what ≡ false → result ≢ Err NoEntry.OutOfMemory }
        ensures one { is_one_quiet target what ≡ true → self.old.spare ≤ self.new.spare + 1 }
        ensures memory { occasion.has_memory ≡ true → is_one_quiet target what ≡ true → 1 ≤ self.old.spare → result ≢ Err NoEntry.OutOfMemory }
        ensures refused { occasion.has_memory ≡ true → IsSome ((control target what).refusal (plan_at occasion self.old.plan)) → result ≢ Err NoEntry.OutOfMemory }
    {
        if let Some(why) = refusal_at(&self.book, occasion.at, &target, Act::Control(what)) {
            return self.book.refuse(occasion, why);
        }
        self.book.control(occasion, &target, what)?;
        Ok(Ok(()))
    }
}
