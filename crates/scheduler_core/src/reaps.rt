//! Ended jobs that are forgotten. It takes no memory.
ghost use Rattle.std.specs.Prelude.{◌≡◌, ◌≢◌, true, Err};
ghost use Rattle.drmaa_model.specs.Controlling.{reap};
ghost use Rattle.plan_book.specs.Occasions.{MeetsAt};

use crate::cores::Core;
use crate::targets::{Act, refusal_at};
use drmaa_model::{NoEntry, Target};
use drmaa_types::Refusal;
use plan_book::Occasion;

impl Core {
    /// Forgets the ended ones of the jobs that are meant. It takes no memory.
    ///
    /// # Errors
    ///
    /// No entry: a journal that would be too large, and else want of memory for the entry.
    ///
    /// A refusal: `InvalidArgument` where no kept job is meant; `InvalidState` with the state of the job, or of the array's kept
    /// member of least number, where none of them has ended.
    pub fn reap(
        &mut self,
        occasion: Occasion,
        target: Target,
    ) -> Result<Result<(), Refusal>, NoEntry>
        ensures meets { MeetsAt occasion (reap target) self.old.plan result self.new.plan }
        ensures spare { self.new.spare ≡ self.old.spare }
        ensures memory { occasion.has_memory ≡ true → result ≢ Err NoEntry.OutOfMemory }
    {
        if let Some(why) = refusal_at(&self.book, occasion.at, &target, Act::Reap) {
            return self.book.refuse(occasion, why);
        }
        self.book.drop_rows(occasion, &target)?;
        Ok(Ok(()))
    }
}
