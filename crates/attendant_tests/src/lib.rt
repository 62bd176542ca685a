//! Tests of launcher and reaper, over a machine that is shared and a spawner that starts nothing.
#![tactic(auto)]

#[cfg(test)]
mod asking;
#[cfg(test)]
mod journals;
#[cfg(test)]
mod kills;
#[cfg(test)]
mod machines;
#[cfg(test)]
mod orders;
#[cfg(test)]
mod playing;
#[cfg(test)]
mod rooms;
#[cfg(test)]
mod stages;
#[cfg(test)]
mod starts;
#[cfg(test)]
mod telling;
#[cfg(test)]
mod wording;
