//! What is true of every answer. Each law is the contract of a function that does nothing: the clause speaks of all
//! calls, moments and worlds.
ghost use Rattle.std.specs.Prelude.{◌≡◌, ℕ, Bool, List, Some, None, true, false};
ghost use Rattle.std.specs.List.{list_any};
ghost use Rattle.drmaa_types.specs.Refusals.{first_refusal};
ghost use Rattle.drmaa_types.specs.declared.identifiers.SessionId.{SessionId};
ghost use Rattle.drmaa_types.specs.declared.moments.Timeout.{Timeout};
ghost use Rattle.drmaa_types.specs.declared.refusals.Refusal.{Refusal};
ghost use Rattle.drmaa_types.specs.declared.states.WaitKind.{WaitKind};
ghost use Rattle.drmaa_model.specs.declared.calls.Call.{Call};
ghost use Rattle.drmaa_model.specs.declared.replies.Launch.{Launch};
ghost use Rattle.drmaa_model.specs.declared.replies.Reply.{Reply};
ghost use Rattle.drmaa_model.specs.declared.replies.Signal.{Signal};
ghost use Rattle.drmaa_model.specs.AnswerLaws.{IsFirstOf};
ghost use Rattle.drmaa_model.specs.Effects.{effect, gives, makes, nothing, not_yet};
ghost use Rattle.drmaa_model.specs.Launching.{next_signal};
ghost use Rattle.drmaa_model.specs.NextLaunch.{next_launch};
ghost use Rattle.drmaa_model.specs.Refusals.{refusal};
ghost use Rattle.drmaa_model.specs.ReplyKinds.{IsReplyOf};
ghost use Rattle.drmaa_model.specs.Steps.{answer};
ghost use Rattle.drmaa_model.specs.Time.{advance};
ghost use Rattle.drmaa_model.specs.WaitLaws.{HandsOut, SendsOut};
ghost use Rattle.drmaa_model.specs.Waiting.{first_reached, is_timed_out};
ghost use Rattle.drmaa_model.specs.World.{World};

/// A call is answered its refusal, and the world that follows is the advanced one with one entry more; a call
/// without a refusal comes to its effect.
pub fn a_refusal_changes_nothing_but_time()
    ensures refused { (w : World) (at : ℕ) (call : Call) (why : Refusal) →
        refusal (advance w at) call ≡ Some why → answer w at call ≡ makes (Reply.Refused why) (advance w at) }
    ensures served { (w : World) (at : ℕ) (call : Call) →
        refusal (advance w at) call ≡ None → answer w at call ≡ effect at (advance w at) call }
{}

/// The refusal of a table is that of a test that holds, and no test before it holds. Where there is none, no test holds.
pub fn a_refusal_is_the_first_that_holds()
    ensures first { (tests : List (Bool × Refusal)) (why : Refusal) → first_refusal tests ≡ Some why → IsFirstOf tests why }
    ensures none { (tests : List (Bool × Refusal)) → first_refusal tests ≡ None → list_any (λ (t : Bool × Refusal). t.0) tests ≡ false }
{}

/// The reply to a call is a refusal, or of the call's own kind. Only `TakeLaunch` is answered a launch, and only
/// `TakeSignal` a signal.
pub fn a_reply_is_of_its_call()
    ensures kind { (w : World) (at : ℕ) (call : Call) (reply : Reply) (next : World) → answer w at call ≡ gives reply next → IsReplyOf call reply }
    ensures launch { (w : World) (at : ℕ) (call : Call) (told : Launch) (next : World) → answer w at call ≡ gives (Reply.Launch told) next → call ≡ Call.TakeLaunch }
    ensures signal { (w : World) (at : ℕ) (call : Call) (told : Signal) (next : World) → answer w at call ≡ gives (Reply.Signal told) next → call ≡ Call.TakeSignal }
{}

/// A launch hands out the job that is launched next in the advanced world, with its slots. There is nothing to
/// launch exactly where there is no such job.
pub fn a_launch_is_the_next()
    ensures launched { (w : World) (at : ℕ) (reply : Reply) (next : World) →
        answer w at Call.TakeLaunch ≡ gives reply next → HandsOut (advance w at) reply next }
    ensures nothing { (w : World) (at : ℕ) → answer w at Call.TakeLaunch ≡ nothing → next_launch (advance w at).plan ≡ None }
    ensures only { (w : World) (at : ℕ) → next_launch (advance w at).plan ≡ None → answer w at Call.TakeLaunch ≡ nothing }
{}

/// A signal is that of the first order that can be delivered in the advanced world, which is then taken. There is
/// nothing to send exactly where there is no such order.
pub fn a_signal_is_the_first_order()
    ensures sent { (w : World) (at : ℕ) (reply : Reply) (next : World) →
        answer w at Call.TakeSignal ≡ gives reply next → SendsOut (advance w at) reply next }
    ensures nothing { (w : World) (at : ℕ) → answer w at Call.TakeSignal ≡ nothing → next_signal (advance w at).plan ≡ None }
    ensures only { (w : World) (at : ℕ) → next_signal (advance w at).plan ≡ None → answer w at Call.TakeSignal ≡ nothing }
{}

/// A wait that is not refused answers the first listed job that has reached the state in the advanced world. Where
/// none has, it answers a timeout where that is over, and else makes no entry.
pub fn a_wait_answers_what_is_reached()
    ensures reached { (w : World) (at : ℕ) (session : SessionId) (jobs : List ℕ) (kind : WaitKind) (begun : ℕ) (timeout : Timeout) (job : ℕ) →
        refusal (advance w at) (Call.Wait session jobs kind begun timeout) ≡ None → first_reached kind (advance w at).plan.rows jobs ≡ Some job →
        answer w at (Call.Wait session jobs kind begun timeout) ≡ makes (Reply.Reached (record { 0 = job })) (advance w at) }
    ensures timeout { (w : World) (at : ℕ) (session : SessionId) (jobs : List ℕ) (kind : WaitKind) (begun : ℕ) (timeout : Timeout) →
        refusal (advance w at) (Call.Wait session jobs kind begun timeout) ≡ None → first_reached kind (advance w at).plan.rows jobs ≡ None →
        is_timed_out at begun timeout ≡ true → answer w at (Call.Wait session jobs kind begun timeout) ≡ makes (Reply.Refused Refusal.Timeout) (advance w at) }
    ensures not_yet { (w : World) (at : ℕ) (session : SessionId) (jobs : List ℕ) (kind : WaitKind) (begun : ℕ) (timeout : Timeout) →
        refusal (advance w at) (Call.Wait session jobs kind begun timeout) ≡ None → first_reached kind (advance w at).plan.rows jobs ≡ None →
        is_timed_out at begun timeout ≡ false → answer w at (Call.Wait session jobs kind begun timeout) ≡ not_yet }
{}
