//! What is true of every history: each law is the contract of a function that does nothing.
ghost use Rattle.std.specs.Prelude.{◌≡◌, ℕ, List, Option};
ghost use Rattle.drmaa_model.specs.History.{IsLegal};
ghost use Rattle.drmaa_model.specs.declared.configs.Config.{Config};
ghost use Rattle.drmaa_model.specs.declared.entries.Entry.{Entry};
ghost use Rattle.drmaa_model.specs.declared.replies.Reply.{Reply};
ghost use Rattle.journal_check.specs.Faults.{FirstFault};

/// A history has one first fault: its number, the reply given and the machine's are all determined.
pub fn one_first_fault()
    ensures { (config : Config) (entries : List Entry) (n m : ℕ) (given other : Reply) (machine own : Option Reply)
        → FirstFault config entries n given machine → FirstFault config entries m other own
        → (n ≡ m) × (given ≡ other) × (machine ≡ own) }
{}

/// A history with a fault is not legal.
pub fn a_fault_is_not_legal()
    ensures { (config : Config) (entries : List Entry) (n : ℕ) (given : Reply) (machine : Option Reply)
        → FirstFault config entries n given machine → ¬ (IsLegal config entries) }
{}
