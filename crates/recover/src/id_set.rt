//! A set of numbers. Those that occur in sound volumes need no hash.

ghost use Rattle.std.specs.Prelude.{◌≡◌, ◌<◌, ◌^◌, IsTrue, IfOk, false, true, get_or, nat_eq};
ghost use Rattle.std.specs.HashSet.{contains};
ghost use Rattle.recover.specs.Forest.{InsertsNumber};

use crate::places::reach;
use std::alloc::{AllocError, Global};
use std::collections::HashSet;

/// Numbers below this have a place in the table. A volume has fewer commits, so fewer unique IDs, and fewer virtual
/// addresses. Only a damaged volume names greater numbers.
const NEAR: u32 = 262_144;

/// A set of numbers.
#[derive(Drop)]
pub(crate) struct IdSet {
    /// Whether each number is in the set, as far as the table goes.
    near: Vec<bool>,
    /// The numbers in the set that have no place in the table.
    far: HashSet<u32>,
}

impl IdSet {
    ghost use Rattle.std.specs.Prelude.{◌≡◌, ◌<◌, ℕ, IsTrue, IfOk, false, true, vec_len};
    ghost use Rattle.recover.specs.Forest.{InsertsNumber};
    ghost use Rattle.recover.specs.IdSet.{marked};

    /// The empty set.
    pub(crate) fn new(alloc: Global) -> IdSet
        ensures { (n : ℕ) → marked result n ≡ false }
    {
        IdSet {
            near: Vec::new(alloc),
            far: HashSet::new(alloc),
        }
    }

    /// Whether the number is not in the set, and has a place in the table without growing it.
    #[inline]
    pub(crate) fn has_place(&self, number: u32) -> bool
        ensures near { IsTrue result → number < NEAR }
        ensures within { IsTrue result → number < vec_len self.now.near }
        ensures new { IsTrue result → marked self.now number ≡ false }
    {
        let place = number as usize;
        number < NEAR && place < self.near.len() && !self.near[place]
    }

    /// Inserts a number that has a place in the table and is not in the set.
    #[inline]
    pub(crate) fn put(&mut self, number: u32)
        requires near { number < NEAR }
        requires within { number < vec_len self.old.near }
        requires new { marked self.old number ≡ false }
        ensures { InsertsNumber (marked self.old) number (marked self.new) }
    {
        self.near[number as usize] = true;
    }

    /// Inserts a number. Returns whether it was new.
    #[inline]
    pub(crate) fn insert(&mut self, number: u32) -> Result<bool, AllocError>
        ensures put { IfOk result (λ is. IsTrue is → InsertsNumber (marked self.old) number (marked self.new)) }
        ensures there { IfOk result (λ is. is ≡ false → marked self.old number ≡ true) }
    {
        if number < NEAR {
            mark(&mut self.near, number as usize)
        } else {
            put(&mut self.far, number)
        }
    }
}

/// Inserts a number. Returns whether it was new.
#[cold]
fn put(numbers: &mut HashSet<u32>, number: u32) -> Result<bool, AllocError>
    ensures put { IfOk result (λ is. IsTrue is → InsertsNumber (contains nat_eq numbers.old) number (contains nat_eq numbers.new)) }
    ensures there { IfOk result (λ is. is ≡ false → contains nat_eq numbers.old number ≡ true) }
{
    Ok(numbers.insert(number)?)
}

/// Sets the flag at this place. Returns whether it was not set before.
#[inline]
fn mark(flags: &mut Vec<bool>, place: usize) -> Result<bool, AllocError>
    requires { place < 2 ^ 32 }
    ensures put { IfOk result (λ is. IsTrue is → InsertsNumber (λ n. get_or flags.old.items n false) place (λ n. get_or flags.new.items n false)) }
    ensures there { IfOk result (λ is. is ≡ false → get_or flags.old.items place false ≡ true) }
{
    reach(flags, place, false)?;
    if flags[place] {
        return Ok(false);
    }
    flags[place] = true;
    Ok(true)
}
