//! What is true of every legal history: each law is the contract of a function that does nothing.
ghost use Rattle.std.specs.Prelude.{List, ◌++◌};
ghost use Rattle.drmaa_model.specs.History.{IsLegal, replay};
ghost use Rattle.drmaa_model.specs.declared.configs.Config.{Config};
ghost use Rattle.drmaa_model.specs.declared.entries.Entry.{Entry};
ghost use Rattle.revival.specs.Stops.{stops};
ghost use Rattle.revival.specs.Stopping.{Keeps};

/// Followed by the ends of the jobs that are started, a legal history is legal. No job is started then, and all else is as it was.
pub fn stops_are_legal()
    ensures legal { (config : Config) (entries : List Entry) → IsLegal config entries → IsLegal config (entries ++ stops (replay config entries)) }
    ensures keeps { (config : Config) (entries : List Entry) → IsLegal config entries →
        Keeps (replay config entries) (replay config (entries ++ stops (replay config entries))) }
{}
