//! Tests of the codecs, and of what is read back from a medium, for what no vector can say: `vectors` has all others.
//! They are in a crate of their own, so that what they test is proved once. They use only what is public.
#![tactic(auto)]

#[cfg(test)]
mod directories;
#[cfg(test)]
mod kept;
#[cfg(test)]
mod media;
#[cfg(test)]
mod reads;
#[cfg(test)]
mod values;
