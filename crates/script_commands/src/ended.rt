//! How a command ended whose callers have no clocks of their own.
use change_callbacks::Callbacks;
use journal_commands::Status;

/// How a command ended, and the callbacks that were handed in, in their order.
#[derive(Drop)]
pub struct Ended<B> {
    pub status: Status,
    pub callbacks: Callbacks<B>,
}
