//! Tests of what the machine is built of, by calls that no program makes: clocks, templates, streams and children.
#![tactic(auto)]

#[cfg(test)]
mod children;
#[cfg(test)]
mod hosts;
#[cfg(test)]
mod messages;
#[cfg(test)]
mod streams;
#[cfg(test)]
mod templates;
#[cfg(test)]
mod values;
