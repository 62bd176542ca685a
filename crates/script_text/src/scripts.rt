//! What a script says.
use crate::{Block, Keyed};
use drmaa_model::Config;
use drmaa_types::{ListOf, Shared};
use job_template::{JobTemplate, ReservationTemplate};

/// For which command a script is read.
#[derive(Clone, Copy, Debug, PartialEq, Eq)]
pub enum Mode {
    /// For the play of all blocks on one thread, in their order.
    Serial,
    /// For the play of the clients' blocks beside each other, while a launcher and a reaper tend the jobs.
    Threads,
}

/// Job templates under their names, in the order of the script; the calls that submit one share it.
pub type NamedTemplates = Keyed<Shared<JobTemplate>>;

/// Reservation templates under their names, in the order of the script.
pub type NamedReservationTemplates = Keyed<ReservationTemplate>;

/// Blocks, in the order of the script.
pub type BlockList = ListOf<Block>;

/// A script: the machine, the templates, the block that is played first, and the clients' blocks.
pub struct Script {
    pub config: Config,
    pub jobs: NamedTemplates,
    pub reservations: NamedReservationTemplates,
    pub setup: Option<Block>,
    pub clients: BlockList,
}

// By hand, so that how its parts are let go is proved here once, and not again in each crate that lets one go.
impl Drop for Script {
    fn drop(self) {
        let Script {
            config: _,
            jobs: _,
            reservations: _,
            setup: _,
            clients: _,
        } = self;
    }
}
