//! Tests of what many share: the lock, callbacks, the machine of many clients, and their typed calls and waits.
#![tactic(auto)]

#[cfg(test)]
mod bells;
#[cfg(test)]
mod calls;
#[cfg(test)]
mod clocks;
#[cfg(test)]
mod ears;
#[cfg(test)]
mod histories;
#[cfg(test)]
mod hub_calls;
#[cfg(test)]
mod hub_steps;
#[cfg(test)]
mod hubs;
#[cfg(test)]
mod infos;
#[cfg(test)]
mod jobs;
#[cfg(test)]
mod listed;
#[cfg(test)]
mod machines;
#[cfg(test)]
mod one_clock;
#[cfg(test)]
mod rooms;
#[cfg(test)]
mod threads;
#[cfg(test)]
mod tries;
#[cfg(test)]
mod turns;
#[cfg(test)]
mod typed;
