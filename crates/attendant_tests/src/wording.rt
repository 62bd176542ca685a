//! What the tables write often.
use crate::asking::{Ask, Said};
use crate::playing::Step;

/// The client makes its session.
pub const CREATE: Step = Step::Client(Ask::Create, Said::Session(1));

/// A job is submitted.
pub const RUN: Ask = Ask::Run { rerunnable: false };

/// A job is submitted that may run again.
pub const RUN_AGAIN: Ask = Ask::Run { rerunnable: true };
