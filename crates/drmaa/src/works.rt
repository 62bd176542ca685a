//! The caller's work, at its desks.
ghost use Rattle.std.specs.Prelude.{◌≡◌, ◌<◌, ℕ, length, IsSome, IfSome, slice_index_or};
ghost use Rattle.turn_lock.specs.Tokens.{IsFree};
ghost use Rattle.drmaa.specs.Works.{Begins, AreLeft};

use attendant::Done;
use call_history::Desk;
use drmaa_types::Clock;
use std::sync::Wait;

/// The work that is there, if it is, at its desks. Then launcher, reaper and hub are told that it is over.
pub(crate) fn work_there<R: Wait, D, T, F: FnOnce(&mut [D]) -> T + Drop>(
    rt: &R,
    desks: &mut Vec<D>,
    work: &mut Option<F>,
    done: &Done,
) -> Option<T>
    requires { IfSome work.old (λ f. (x : _) → x.now ≡ desks.old.items → F.pre f x) }
    ensures some { IsSome work.old → IsSome result }
    ensures worked { IfSome result (λ value. IfSome work.old (λ f. (x : _) × (y : _) × F.post f x value y × (x.now ≡ desks.old.items) × (y.now ≡ desks.new.items))) }
{
    let work = work.take()?;
    let value = work(desks.as_mut_slice());
    done.client_ended(rt);
    Some(value)
}

/// A work that wants one desk, at the only one.
pub(crate) fn work_at_first<C: Clock, T, F: FnOnce(&mut Desk<C>) -> T>(
    desks: &mut [Desk<C>],
    work: F,
) -> T
    requires one { length desks.old ≡ 1 }
    requires begins { (d : _) → Begins (slice_index_or desks.old 0 d).shared.now (slice_index_or desks.old 0 d).client }
    requires callable { (x : _) → Begins x.now.shared.now x.now.client → F.pre work x }
    requires leaves { (x : _) (r : _) (y : _) → Begins x.now.shared.now x.now.client → F.post work x r y → IsFree x.now.shared.now y.now.client }
    ensures left { AreLeft desks.old desks.new }
    ensures worked { (x : _) × (y : _) × F.post work x result y × Begins x.now.shared.now x.now.client ×
        ((d : _) → x.now ≡ slice_index_or desks.old 0 d) × ((d : _) → y.now ≡ slice_index_or desks.new 0 d) }
{
    work(&mut desks[0])
}
