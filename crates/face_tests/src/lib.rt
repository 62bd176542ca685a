//! Tests of the face of DRMAA version 1.
#![tactic(auto)]

#[cfg(test)]
mod answers;
#[cfg(test)]
mod calls;
#[cfg(test)]
mod histories;
#[cfg(test)]
mod meanwhile;
#[cfg(test)]
mod steps;
#[cfg(test)]
mod stories;
