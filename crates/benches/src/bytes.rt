//! Bytes to work on.

use std::alloc::{AllocError, Global};

/// A mebibyte, in bytes.
pub const MEBIBYTE: usize = 1_048_576;

/// A mebibyte of pseudorandom bytes.
pub fn ordinary(alloc: Global) -> Result<Vec<u8>, AllocError> {
    let mut bytes = vec![in alloc; 0u8; MEBIBYTE]?;
    let mut state = 1u32;
    for byte in bytes.iter_mut() {
        state = state.wrapping_mul(1_103_515_245).wrapping_add(12_345);
        *byte = (state >> 24) as u8;
    }
    Ok(bytes)
}
