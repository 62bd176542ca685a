//! What is true of every history. Each law is the contract of a function that does nothing.
ghost use Rattle.std.specs.Prelude.{◌≡◌, List, [], ◌∷◌, ◌++◌};
ghost use Rattle.drmaa_model.specs.declared.configs.Config.{Config};
ghost use Rattle.drmaa_model.specs.declared.entries.Entry.{Entry};
ghost use Rattle.drmaa_model.specs.History.{IsLegal, replay};
ghost use Rattle.drmaa_model.specs.Steps.{IsStep};
ghost use Rattle.drmaa_model.specs.World.{World};

/// Every prefix of a legal history is legal, and its last entry is a step from the world of the others.
pub fn each_prefix_is_legal()
    ensures legal { (config : Config) (front back : List Entry) → IsLegal config (front ++ back) → IsLegal config front }
    ensures last { (config : Config) (front : List Entry) (entry : Entry) →
        IsLegal config (front ++ entry ∷ []) → IsStep (replay config front) entry (replay config (front ++ entry ∷ [])) }
{}

/// A step makes a legal history longer, and leads from its world to the next.
pub fn a_step_goes_on()
    ensures legal { (config : Config) (history : List Entry) (entry : Entry) (next : World) →
        IsLegal config history → IsStep (replay config history) entry next → IsLegal config (history ++ entry ∷ []) }
    ensures world { (config : Config) (history : List Entry) (entry : Entry) (next : World) →
        IsStep (replay config history) entry next → replay config (history ++ entry ∷ []) ≡ next }
{}
