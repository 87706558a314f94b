//! The CRC of descriptors. bench/crc/crc.c does the same with a plain loop.

use crate::bytes::{MEBIBYTE, ordinary};
use crate::report::{Report, since, used};
use std::io;

/// The CRC of a mebibyte, `count` times, and of 24 bytes, as in a short file identifier, as often as it takes for as
/// many bytes in all.
pub fn measure(rt: &HostRuntime, report: Report, count: u32) -> io::Result<()> {
    let mut bytes = ordinary(rt.alloc())?;
    for (length, rounds) in [(MEBIBYTE, count), (24, count.saturating_mul(43_690))] {
        let start = used(rt);
        let mut total = 0u32;
        for round in 0..rounds {
            let value = match bytes.get(..length) {
                Some(part) => ecma::crc(part),
                None => 0,
            };
            total = total
                .wrapping_mul(31)
                .wrapping_add(u32::from(value))
                .wrapping_add(round);
            if let Some(first) = bytes.first_mut() {
                *first = (value & 0xFF) as u8;
            }
        }
        let taken = since(rt, start);
        print!(rt; "{length} bytes x{rounds}: {total}")?;
        report.took(rt, taken)?;
    }
    Ok(())
}
