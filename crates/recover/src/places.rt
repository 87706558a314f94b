//! Tables with a place for each small number.

ghost use Rattle.std.specs.Prelude.{◌≡◌, ◌<◌, ◌≤◌, ◌^◌, ℕ, OnErr, OnOk, get_or, vec_len};

use std::alloc::AllocError;

/// How many more places a table gets than it needs, so that it does not grow for each new one.
const SPARE: usize = 1_024;

/// Grows the table to include this place, with `none` in the new places. If there is no memory, it stays as it was.
#[inline]
pub(crate) fn reach<T: Copy>(table: &mut Vec<T>, place: usize, none: T) -> Result<(), AllocError>
    requires { place < 2 ^ 32 }
    ensures within { OnOk result (place < vec_len table.new) }
    ensures kept { OnErr result (table.new.items ≡ table.old.items) }
    ensures same { OnOk result ((k : ℕ) → get_or table.new.items k none ≡ get_or table.old.items k none) }
{
    if place < table.len() {
        return Ok(());
    }
    grow(table, place + SPARE, none)
}

/// Grows the table to `len` places, with `none` in the new ones. If there is no memory, it stays as it was.
#[cold]
pub(crate) fn grow<T: Copy>(table: &mut Vec<T>, len: usize, none: T) -> Result<(), AllocError>
    requires { vec_len table.old ≤ len }
    ensures len { OnOk result (vec_len table.new ≡ len) }
    ensures kept { OnErr result (table.new.items ≡ table.old.items) }
    ensures same { OnOk result ((k : ℕ) → get_or table.new.items k none ≡ get_or table.old.items k none) }
{
    table.resize(len, none)
}
