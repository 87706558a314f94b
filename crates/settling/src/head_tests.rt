//! The bytes of a head that the drive writes. No file shows them, since a settle cuts them off again.

use crate::head::Head;
use limits::BLOCK_SIZE;
use std::test::Fail;

/// The sum is another program's.
#[test]
fn a_head_is_as_another_program_makes_it(rt: HostRuntime) -> Result<(), Fail> {
    let mut bytes = [0; 280];
    bytes[..8].copy_from_slice(b"UDFGROUP");
    bytes[8] = 2;
    bytes[12] = 7;
    bytes[16] = 2;
    bytes[20] = 3;
    bytes[24] = 6;
    bytes[276..].copy_from_slice(&[0x33, 0xff, 0xd9, 0xa2]);
    let block = [1; BLOCK_SIZE];
    let head = Head::new(2, 7, &[(3, block), (6, block)]);
    assert!(rt; head.bytes().as_slice() == bytes.as_slice());
    Ok(())
}
