//! A file that is written.

ghost use Rattle.limits.specs.declared.TheConstants.{FILE_BYTES, GREATEST_FILE};
ghost use Rattle.std.specs.Prelude.{◌≡◌, ◌<◌, ◌≤◌, [], length};
ghost use Rattle.lookup.specs.Extents.{full_size};

use icb::descriptor_blocks;
use lookup::FullExtents;
use request::{AppendSlice, FileSlice};
use std::alloc::Global;

/// A file that is written: it keeps what is in these extents, and gets bytes after that.
#[derive(Drop)]
pub struct NewFile<'r> {
    /// The virtual address of its entry.
    pub address: u32,
    pub unique: u32,
    pub kept: FullExtents,
    pub bytes: &'r FileSlice<'r>,
    pub ghost few: { full_size kept < GREATEST_FILE },
    pub ghost short: { length bytes.now ≤ FILE_BYTES },
    pub ghost some: { 0 < full_size kept → 0 < length bytes.now },
}

impl NewFile<'_> {
    ghost use Rattle.std.specs.Prelude.{◌+◌};
    ghost use Rattle.icb.specs.Extents as icb;

    /// How many bytes the file has then.
    pub(crate) fn size(&self) -> u32
        ensures size { result ≡ full_size self.now.kept + length self.now.bytes.now }
        ensures limit { result ≤ GREATEST_FILE }
    {
        self.kept.size() + self.bytes.as_slice().len() as u32
    }

    /// How many descriptor blocks it has then.
    pub(crate) fn descriptor_blocks(&self) -> u32
        ensures count { result ≡ icb.descriptor_blocks (full_size self.now.kept + length self.now.bytes.now) }
        ensures few { result ≤ 7 }
    {
        descriptor_blocks(self.size())
    }
}

impl<'r> NewFile<'r> {
    /// A file that keeps nothing.
    pub(crate) fn whole(
        alloc: Global,
        address: u32,
        unique: u32,
        bytes: &'r FileSlice<'r>,
    ) -> NewFile<'r>
        ensures address { result.address ≡ address }
        ensures unique { result.unique ≡ unique }
        ensures kept { result.kept ≡ [] }
        ensures bytes { result.bytes.now ≡ bytes.now }
    {
        // Unused: it gives the proof that the bytes are few.
        let _few = bytes.as_slice();
        NewFile {
            address,
            unique,
            kept: FullExtents::none(alloc),
            bytes,
        }
    }

    /// A file that keeps what is in these extents.
    pub(crate) fn grown(
        address: u32,
        unique: u32,
        kept: FullExtents,
        bytes: &'r AppendSlice<'r>,
    ) -> NewFile<'r>
        requires { full_size kept < GREATEST_FILE }
        ensures address { result.address ≡ address }
        ensures unique { result.unique ≡ unique }
        ensures kept { result.kept ≡ kept }
        ensures bytes { result.bytes.now ≡ bytes.now }
    {
        let bytes = bytes.as_file_slice();
        // Unused: it gives the proof that the bytes are few.
        let _few = bytes.as_slice();
        NewFile {
            address,
            unique,
            kept,
            bytes,
        }
    }
}
