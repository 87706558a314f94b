//! Whether numbers or zeros are in bytes, without encoding them.

ghost use Rattle.std.specs.Prelude.{◌≡◌, ◌+◌, ◌≤◌, ◌↔◌, [], ◌∷◌, length, take, drop, replicate, IsTrue};
ghost use Rattle.std.specs.Int.{w16, w32, w64, to_le_bytes};
ghost use Rattle.ecma.specs.Field.{IsAt};

use crate::numbers::{u16_at, u32_at, u64_at};

/// Whether the number is the byte at `at`.
pub fn is_u8_at(number: u8, bytes: &[u8], at: usize) -> bool
    requires { at + 1 ≤ length bytes.now }
    ensures { IsTrue result ↔ IsAt at (number ∷ []) bytes.now }
{
    bytes[at] == number
}

/// Whether the number is in the two bytes from `at` on.
pub fn is_u16_at(number: u16, bytes: &[u8], at: usize) -> bool
    requires { at + 2 ≤ length bytes.now }
    ensures { IsTrue result ↔ IsAt at (to_le_bytes w16 number) bytes.now }
{
    u16_at(bytes, at) == number
}

/// Whether the number is in the four bytes from `at` on.
pub fn is_u32_at(number: u32, bytes: &[u8], at: usize) -> bool
    requires { at + 4 ≤ length bytes.now }
    ensures { IsTrue result ↔ IsAt at (to_le_bytes w32 number) bytes.now }
{
    u32_at(bytes, at) == number
}

/// Whether the number is in the eight bytes from `at` on.
pub fn is_u64_at(number: u64, bytes: &[u8], at: usize) -> bool
    requires { at + 8 ≤ length bytes.now }
    ensures { IsTrue result ↔ IsAt at (to_le_bytes w64 number) bytes.now }
{
    u64_at(bytes, at) == number
}

/// Whether all bytes are 0.
pub fn are_zeros(bytes: &[u8]) -> bool
    ensures { IsTrue result ↔ (bytes.now ≡ replicate (length bytes.now) 0) }
{
    let mut at = 0;
    'runs: while bytes.len() - at >= 64 {
        if !is_zero_run(bytes, at) {
            return false;
        }
        at += 64;
    }
    'words: while bytes.len() - at >= 8 {
        if !is_u64_at(0, bytes, at) {
            return false;
        }
        at += 8;
    }
    'bytes: while at < bytes.len() {
        if !is_u8_at(0, bytes, at) {
            return false;
        }
        at += 1;
    }
    true
}

/// Whether the 64 bytes from `at` on are 0.
fn is_zero_run(bytes: &[u8], at: usize) -> bool
    requires { at + 64 ≤ length bytes.now }
    ensures { IsTrue result ↔ (take 64 (drop at bytes.now) ≡ replicate 64 0) }
{
    let front = two_words(bytes, at) | two_words(bytes, at + 16);
    let back = two_words(bytes, at + 32) | two_words(bytes, at + 48);
    front | back == 0
}

/// The bits that are set in either of the two numbers from `at` on.
fn two_words(bytes: &[u8], at: usize) -> u64
    requires { at + 16 ≤ length bytes.now }
    ensures { (result ≡ 0) ↔ (take 16 (drop at bytes.now) ≡ replicate 16 0) }
{
    u64_at(bytes, at) | u64_at(bytes, at + 8)
}
