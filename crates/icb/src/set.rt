//! The file set descriptor (ECMA-167 4/14.1, UDF 2.01 2.3.2).

ghost use Rattle.limits.specs.declared.TheConstants.{BLOCK_BYTES};
ghost use Rattle.std.specs.Prelude.{◌≡◌, ◌-◌, ◌↔◌, IsTrue, IfOk, IfErr, IfSome, IfNone, take, drop, replicate};
ghost use Rattle.ecma.specs.FirstFault.{IsFirst, AllHold};
ghost use Rattle.ecma.specs.Tag.{Sealed};
ghost use Rattle.icb.specs.FileSet.{HasFileSetFields, IsFileSet, set_rules};

use crate::fault::IcbFault;
use ecma::{Block, CS0, EntityId, Field, LongAd, Timestamp, descriptor_block, open_tag};
use limits::{BLOCK_BYTES, BLOCK_SIZE};
use osta::Label;

const FILE_SET: u16 = 256;

/// The virtual address of the file set descriptor.
const ADDRESS: u32 = 0;

/// How many bytes the descriptor has.
const SIZE: usize = 512;

/// The extent of the root's entry, which has the virtual address 1.
const ROOT: LongAd = LongAd {
    length: BLOCK_BYTES,
    block: 1,
    partition: 1,
    flags: 0,
    unique: 0,
};

/// What the file set descriptor says.
#[derive(Clone, Copy, Debug, PartialEq, Eq)]
pub struct FileSet {
    /// The label of the volume.
    pub label: Label,
    /// The moment of its format.
    pub moment: Timestamp,
}

/// The block of a file set descriptor (ECMA-167 4/14.1, UDF 2.01 2.3.2).
pub fn encode_fsd(set: &FileSet) -> Block
    ensures { IsFileSet set.now result }
{
    let stamp = set.moment.to_bytes();
    let volume = set.label.dstring_128();
    let label = set.label.dstring_32();
    descriptor_block(
        FILE_SET,
        ADDRESS,
        &[
            Field::Bytes(&stamp), // 16 recording date and time
            Field::U16(3), // 28 interchange level
            Field::U16(3), // 30 maximum interchange level
            Field::U32(1), // 32 character set list
            Field::U32(1), // 36 maximum character set list
            Field::U32(0), // 40 file set number
            Field::U32(0), // 44 file set descriptor number
            Field::Bytes(&CS0), // 48 logical volume identifier character set
            Field::Bytes(&volume), // 112 logical volume identifier
            Field::Bytes(&CS0), // 240 file set character set
            Field::Bytes(&label), // 304 file set identifier
            Field::Zeros(64), // 336 copyright file identifier, 368 abstract file identifier
            Field::LongAd(ROOT), // 400 root directory ICB
            Field::EntityId(EntityId::DOMAIN), // 416 domain identifier
            Field::Zeros(64), // 448 next extent, 464 system stream directory ICB, 480 reserved
        ],
    )
}

/// The file set whose descriptor the block is (ECMA-167 4/14.1).
pub fn decode_fsd(block: &Block) -> Result<FileSet, IcbFault>
    // What is read is what the block spells.
    ensures found { IfOk result (λ set. IsFileSet set block.now) }
    // What a block spells is read.
    ensures only { (set : FileSet) → IsFileSet set block.now → result ≡ Ok set }
    // A fault is the first.
    ensures fault { IfErr result (IsFirst (set_rules block.now)) }
{
    examine_set(block)
}

/// The rules of a file set descriptor, one after another.
fn examine_set(block: &Block) -> Result<FileSet, IcbFault>
    ensures fault { IfErr result (IsFirst (set_rules block.now)) }
    ensures rules { IfOk result (λ set. AllHold (set_rules block.now)) }
    ensures describes { IfOk result (λ set. HasFileSetFields set (take 496 (drop 16 block.now))) }
{
    if !has_set_tag(block) {
        return Err(IcbFault::Tag);
    }
    let Some(set) = set_at(block) else {
        return Err(IcbFault::Fixed);
    };
    if !has_set_tail(block) {
        return Err(IcbFault::Tail);
    }
    Ok(set)
}

fn has_set_tag(block: &Block) -> bool
    ensures { IsTrue result ↔ Sealed 256 0 (take 512 block.now) }
{
    let (descriptor, _) = block.split_at(SIZE);
    open_tag(descriptor, FILE_SET, ADDRESS).is_ok()
}

/// The file set whose fields are after the tag. Its label and moment are read, and then all fields are compared with
/// those of that file set.
fn set_at(block: &Block) -> Option<FileSet>
    ensures some { IfSome result (λ set. HasFileSetFields set (take 496 (drop 16 block.now))) }
    ensures none { IfNone result ((set : FileSet) → HasFileSetFields set (take 496 (drop 16 block.now)) → ⊥) }
{
    let Some(label) = Label::of(&block[304..336]) else {
        return None;
    };
    let Some(moment) = Timestamp::read(&set_stamp(block)) else {
        return None;
    };
    let set = FileSet { label, moment };
    let again = encode_fsd(&set);
    if again[16..SIZE] == block[16..SIZE] {
        Some(set)
    } else {
        None
    }
}

/// The bytes of the timestamp.
fn set_stamp(block: &Block) -> [u8; 12]
    ensures { result ≡ take 12 (drop 16 block.now) }
{
    let mut stamp = [0; 12];
    stamp.copy_from_slice(&block[16..28]);
    stamp
}

fn has_set_tail(block: &Block) -> bool
    ensures { IsTrue result ↔ (drop 512 block.now ≡ replicate (BLOCK_BYTES - 512) 0) }
{
    let (_, tail) = block.split_at(SIZE);
    tail == &[0; BLOCK_SIZE - SIZE][..]
}
