//! Tests of the commands of the program.
#![tactic(auto)]

#[cfg(test)]
mod fates;
#[cfg(test)]
mod flags;
#[cfg(test)]
mod heard;
#[cfg(test)]
mod held;
#[cfg(test)]
mod nights;
#[cfg(test)]
mod runs;
#[cfg(test)]
mod settings;
