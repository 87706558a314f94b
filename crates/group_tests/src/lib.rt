//! Tests of messages that are answered in groups. They are in a crate of their own, so that the crate that they test is
//! proved once.
#![tactic(auto)]

#[cfg(test)]
mod groups;
