//! The descriptors of a volume, each as a table of its fields. The tag of each has the address where it is.

ghost use Rattle.limits.specs.declared.TheConstants.{FORMAT_BLOCKS, PARTITION_START};
ghost use Rattle.std.specs.Prelude.{◌≡◌, ◌<◌, ◌≤◌, ◌%◌, ◌++◌, IsAscii};
ghost use Rattle.osta.specs.Dstring.{dstring};
ghost use Rattle.ecma.specs.Descriptor.{IsDescriptor};
ghost use Rattle.volume.specs.Descriptors as spec;

use ecma::{Block, CS0, EntityId, ExtentAd, Field, LongAd, descriptor_block};
use limits::{BLOCK_BYTES, FORMAT_BLOCKS, PARTITION_START};
use osta::Label;

/// How many blocks each copy of the volume descriptor sequence has (UDF 2.01 2.2.3).
const SEQUENCE_BLOCKS: u32 = 16;

const INTEGRITY_BLOCKS: u32 = 4;

pub(crate) const MAIN: u32 = 32;

pub(crate) const RESERVE: u32 = 48;

pub(crate) const INTEGRITY: u32 = 64;

// The tag identifiers of the descriptors (ECMA-167 3/7.2.1).

pub(crate) const PRIMARY_VOLUME_TAG: u16 = 1;

const ANCHOR_TAG: u16 = 2;

const IMPLEMENTATION_USE_TAG: u16 = 4;

pub(crate) const PARTITION_TAG: u16 = 5;

const LOGICAL_VOLUME_TAG: u16 = 6;

const UNALLOCATED_SPACE_TAG: u16 = 7;

const TERMINATING_TAG: u16 = 8;

const INTEGRITY_TAG: u16 = 9;

/// The revision of UDF, 2.01.
const REVISION: u16 = 0x0201;

const VOLUME_INFORMATION: EntityId = EntityId {
    identifier: *b"*UDF LV Info\0\0\0\0\0\0\0\0\0\0\0",
    suffix: EntityId::UDF_SUFFIX,
};

const VIRTUAL_PARTITION: EntityId = EntityId {
    identifier: *b"*UDF Virtual Partition\0",
    suffix: EntityId::UDF_SUFFIX,
};

const PARTITION_CONTENTS: EntityId = EntityId {
    identifier: *b"+NSR03\0\0\0\0\0\0\0\0\0\0\0\0\0\0\0\0\0",
    suffix: [0; 8],
};

/// The primary volume descriptor (ECMA-167 3/10.1, UDF 2.01 2.2.2), with its volume identifier given as a dstring.
pub(crate) fn primary(
    label: &Label,
    volume: [u8; 32],
    moment: u64,
    stamp: [u8; 12],
    n: u32,
) -> Block
    ensures { IsDescriptor 1 n (spec.primary_fields volume (dstring 128 (spec.digits moment ++ label.now)) stamp) result }
{
    let set = label.dstring_128_after(&digits(moment));
    descriptor_block(
        PRIMARY_VOLUME_TAG,
        n,
        &[
            Field::U32(1), // 16 volume descriptor sequence number
            Field::U32(0), // 20 primary volume descriptor number
            Field::Bytes(&volume), // 24 volume identifier
            Field::U16(1), // 56 volume sequence number
            Field::U16(1), // 58 maximum volume sequence number
            Field::U16(2), // 60 interchange level
            Field::U16(3), // 62 maximum interchange level
            Field::U32(1), // 64 character set list
            Field::U32(1), // 68 maximum character set list
            Field::Bytes(&set), // 72 volume set identifier
            Field::Bytes(&CS0), // 200 descriptor character set
            Field::Bytes(&CS0), // 264 explanatory character set
            // 328 volume abstract, 336 volume copyright notice, 344 application identifier
            Field::Zeros(48),
            Field::Bytes(&stamp), // 376 recording date and time
            Field::EntityId(EntityId::DEVELOPER), // 388 implementation identifier
            // 420 implementation use, 484 predecessor volume descriptor sequence location, 488 flags
            Field::Zeros(92),
        ],
    )
}

/// The anchor volume descriptor pointer (ECMA-167 3/10.2, UDF 2.01 2.2.3): where both copies of the sequence are.
pub(crate) fn anchor(n: u32) -> Block
    ensures { IsDescriptor 2 n spec.anchor_fields result }
{
    let length = SEQUENCE_BLOCKS * BLOCK_BYTES;
    descriptor_block(
        ANCHOR_TAG,
        n,
        &[
            // 16 main volume descriptor sequence extent
            Field::ExtentAd(ExtentAd {
                length,
                location: MAIN,
            }),
            // 24 reserve volume descriptor sequence extent
            Field::ExtentAd(ExtentAd {
                length,
                location: RESERVE,
            }),
            Field::Zeros(480), // 32 reserved
        ],
    )
}

/// The implementation use volume descriptor (ECMA-167 3/10.4, UDF 2.01 2.2.7).
pub(crate) fn implementation_use(label: &Label, n: u32) -> Block
    ensures { IsDescriptor 4 n (spec.use_fields (dstring 128 label.now)) result }
{
    let volume = label.dstring_128();
    descriptor_block(
        IMPLEMENTATION_USE_TAG,
        n,
        &[
            Field::U32(2), // 16 volume descriptor sequence number
            Field::EntityId(VOLUME_INFORMATION), // 20 implementation identifier
            Field::Bytes(&CS0), // 52 LVI charset
            Field::Bytes(&volume), // 116 logical volume identifier
            Field::Zeros(108), // 244, 280, 316 LV info 1 to 3
            Field::EntityId(EntityId::DEVELOPER), // 352 implementation ID
            Field::Zeros(128), // 384 implementation use
        ],
    )
}

/// The partition descriptor (ECMA-167 3/10.5), of a medium that is written once.
pub(crate) fn partition(capacity: u32, n: u32) -> Block
    requires { PARTITION_START ≤ capacity }
    ensures { IsDescriptor 5 n (spec.partition_fields capacity) result }
{
    descriptor_block(
        PARTITION_TAG,
        n,
        &[
            Field::U32(3), // 16 volume descriptor sequence number
            Field::U16(1), // 20 partition flags: allocated
            Field::U16(0), // 22 partition number
            Field::EntityId(PARTITION_CONTENTS), // 24 partition contents
            Field::Zeros(128), // 56 partition contents use
            Field::U32(2), // 184 access type: write once
            Field::U32(PARTITION_START), // 188 partition starting location
            Field::U32(capacity - PARTITION_START), // 192 partition length
            Field::EntityId(EntityId::DEVELOPER), // 196 implementation identifier
            Field::Zeros(284), // 228 implementation use, 356 reserved
        ],
    )
}

/// The logical volume descriptor (ECMA-167 3/10.6, UDF 2.01 2.2.4), with the maps of the physical and the virtual
/// partition (UDF 2.01 2.2.8).
pub(crate) fn logical_volume(label: &Label, n: u32) -> Block
    ensures { IsDescriptor 6 n (spec.logical_fields (dstring 128 label.now)) result }
{
    let volume = label.dstring_128();
    descriptor_block(
        LOGICAL_VOLUME_TAG,
        n,
        &[
            Field::U32(4), // 16 volume descriptor sequence number
            Field::Bytes(&CS0), // 20 descriptor character set
            Field::Bytes(&volume), // 84 logical volume identifier
            Field::U32(BLOCK_BYTES), // 212 logical block size
            Field::EntityId(EntityId::DOMAIN), // 216 domain identifier
            // 248 logical volume contents use: the file set descriptor
            Field::LongAd(LongAd {
                length: BLOCK_BYTES,
                block: 0,
                partition: 1,
                flags: 0,
                unique: 0,
            }),
            Field::U32(70), // 264 map table length
            Field::U32(2), // 268 number of partition maps
            Field::EntityId(EntityId::DEVELOPER), // 272 implementation identifier
            Field::Zeros(128), // 304 implementation use
            // 432 integrity sequence extent
            Field::ExtentAd(ExtentAd {
                length: INTEGRITY_BLOCKS * BLOCK_BYTES,
                location: INTEGRITY,
            }),
            Field::U8(1), // 440 partition map type
            Field::U8(6), // 441 partition map length
            Field::U16(1), // 442 volume sequence number
            Field::U16(0), // 444 partition number
            Field::U8(2), // 446 partition map type
            Field::U8(64), // 447 partition map length
            Field::U16(0), // 448 reserved
            Field::EntityId(VIRTUAL_PARTITION), // 450 partition type identifier
            Field::U16(1), // 482 volume sequence number
            Field::U16(0), // 484 partition number
            Field::Zeros(24), // 486 reserved
        ],
    )
}

/// The unallocated space descriptor (ECMA-167 3/10.8, UDF 2.01 2.2.5), with no extents.
pub(crate) fn unallocated_space(n: u32) -> Block
    ensures { IsDescriptor 7 n spec.unallocated_fields result }
{
    descriptor_block(
        UNALLOCATED_SPACE_TAG,
        n,
        &[
            Field::U32(5), // 16 volume descriptor sequence number
            Field::U32(0), // 20 number of allocation descriptors
        ],
    )
}

/// The terminating descriptor (ECMA-167 3/10.9).
pub(crate) fn terminating(n: u32) -> Block
    ensures { IsDescriptor 8 n spec.terminating_fields result }
{
    // 16 reserved
    descriptor_block(TERMINATING_TAG, n, &[Field::Zeros(496)])
}

/// The logical volume integrity descriptor (ECMA-167 3/10.10, UDF 2.01 2.2.6). It stays open: the current counts of a
/// volume are in its virtual allocation table.
pub(crate) fn integrity(stamp: [u8; 12], capacity: u32, n: u32) -> Block
    requires { FORMAT_BLOCKS ≤ capacity }
    ensures { IsDescriptor 9 n (spec.integrity_fields stamp capacity) result }
{
    descriptor_block(
        INTEGRITY_TAG,
        n,
        &[
            Field::Bytes(&stamp), // 16 recording date and time
            Field::U32(0), // 28 integrity type: open
            Field::Zeros(8), // 32 next integrity extent
            Field::U64(16), // 40 logical volume contents use: the next unique ID
            Field::Zeros(24), // 48 reserved
            Field::U32(2), // 72 number of partitions
            Field::U32(46), // 76 length of implementation use
            Field::U32(capacity - FORMAT_BLOCKS), // 80 free space table: the physical partition
            Field::U32(u32::MAX), // 84 the virtual partition
            Field::U32(capacity - PARTITION_START), // 88 size table: the physical partition
            Field::U32(u32::MAX), // 92 the virtual partition
            Field::EntityId(EntityId::DEVELOPER), // 96 implementation ID
            Field::U32(0), // 128 number of files
            Field::U32(1), // 132 number of directories
            Field::U16(REVISION), // 136 minimum UDF read revision
            Field::U16(REVISION), // 138 minimum UDF write revision
            Field::U16(REVISION), // 140 maximum UDF write revision
        ],
    )
}

/// The 16 lower-case hexadecimal digits of a number, the highest first.
fn digits(number: u64) -> [u8; 16]
    ensures value { result ≡ spec.digits number }
    ensures ascii { IsAscii result }
{
    [
        digit(number >> 60),
        digit(number >> 56),
        digit(number >> 52),
        digit(number >> 48),
        digit(number >> 44),
        digit(number >> 40),
        digit(number >> 36),
        digit(number >> 32),
        digit(number >> 28),
        digit(number >> 24),
        digit(number >> 20),
        digit(number >> 16),
        digit(number >> 12),
        digit(number >> 8),
        digit(number >> 4),
        digit(number),
    ]
}

/// The lowest hexadecimal digit of a number.
fn digit(number: u64) -> u8
    ensures value { result ≡ spec.digit (number % 16) }
    ensures ascii { result < 128 }
{
    let digit = (number % 16) as u8;
    if digit < 10 {
        b'0' + digit
    } else {
        b'a' + digit - 10
    }
}
