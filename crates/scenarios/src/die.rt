//! Pseudorandom numbers, and requests made from them.

use crate::changes::{Action, Change};
use crate::trouble::Trouble;
use std::alloc::Global;

/// The names from which paths are made.
const NAMES: [&str; 3] = ["a", "b", "c"];

/// A generator of pseudorandom numbers, which gives the same ones each time a scenario is played.
#[derive(Drop)]
pub struct Die(pub u64);

impl Die {
    /// A number below `sides`, or 0 if that is 0.
    pub fn roll(&mut self, sides: u8) -> u8 {
        self.0 = self
            .0
            .wrapping_mul(6_364_136_223_846_793_005)
            .wrapping_add(1_442_695_040_888_963_407);
        if sides == 0 {
            return 0;
        }
        ((self.0 >> 33) % u64::from(sides)) as u8
    }

    /// Random choices. Half the time there is one for each place, at most 32, and otherwise a random number of them.
    pub fn choices(&mut self, alloc: Global, places: usize) -> Result<Vec<bool>, Trouble> {
        let places = places.min(32) as u8;
        let count = match self.roll(2) {
            0 => places,
            _ => self.roll(places + 1),
        };
        let mut choices = Vec::new(alloc);
        for _ in 0..count {
            choices.push(self.roll(2) == 0)?;
        }
        Ok(choices)
    }

    /// A path of one to three names.
    fn path(&mut self, alloc: Global) -> Result<Vec<String>, Trouble> {
        let mut path = Vec::new(alloc);
        for _ in 0..self.roll(3).min(2) + 1 {
            let name = NAMES[self.roll(3) as usize % 3];
            path.push(String::from_str(alloc, name)?)?;
        }
        Ok(path)
    }

    /// A request of a client, with this number.
    pub fn choose(&mut self, alloc: Global, client: u64, number: u64) -> Result<Change, Trouble> {
        let path = self.path(alloc)?;
        let to = self.path(alloc)?;
        let byte = self.roll(200);
        let size = match self.roll(5) {
            0 => 2_500,
            1 => 0,
            _ => 5,
        };
        let (action, size) = match self.roll(7) {
            0 | 1 => (Action::Create, size),
            2 => (Action::Replace, size),
            3 => (Action::Make, 0),
            4 => (Action::Rename, 0),
            5 => (Action::Append, size.max(1)),
            _ => (Action::Remove, 0),
        };
        Ok(Change {
            action,
            client,
            number,
            moment: u64::from(self.roll(250)),
            path,
            to,
            offset: if self.roll(8) == 0 { 1_048_576 } else { 0 },
            bytes: vec![in alloc; byte; size]?,
        })
    }
}
