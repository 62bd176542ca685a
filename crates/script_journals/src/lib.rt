//! Which journals the machine, the play of a script and its blocks lead to: those that may be printed and read again.
#![tactic(auto)]

mod laws;

pub use laws::{
    a_history_is_printable, a_play_is_printable, a_reply_may_stand,
    calls_of_every_caller_may_stand, no_client_asks_what_the_attendant_asks, no_client_registers,
    what_a_block_asks_may_stand, what_the_attendant_asks_may_stand,
};
