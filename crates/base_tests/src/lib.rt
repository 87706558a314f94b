//! Tests of the crates that use no codec, by topic: drives, media and messages. They are in a crate of their own, so that
//! each of those crates is proved once. They use only what is public.
#![tactic(auto)]

#[cfg(test)]
mod drives;
#[cfg(test)]
mod files;
#[cfg(test)]
mod group_files;
#[cfg(test)]
mod groups;
#[cfg(test)]
mod images;
#[cfg(test)]
mod messages;
#[cfg(test)]
mod reading;
#[cfg(test)]
mod steps;
