//! What holds of the layout. Nothing here runs: each function's contract is a law.

ghost use Rattle.dir.specs.Directory.{OneDirectory, LaidIsDirectory, BlocksBegin};
ghost use Rattle.dir.specs.Size.{DataIsSized, BlocksAreFew, DirectoriesAreShort};

/// Blocks are the data of at most one directory.
pub fn one_directory()
    ensures { OneDirectory }
{}

/// The blocks that `lay` makes of a directory are its data, and so are read as that directory.
pub fn laid_is_directory()
    ensures { LaidIsDirectory }
{}

/// The data of a directory ends where `DataSize` says, by the lengths of its names.
pub fn data_is_sized()
    ensures { DataIsSized }
{}

/// A directory takes at most one block and the size of its unlengthened identifiers divided by
/// `limits::LEAST_FILLED_BYTES`.
pub fn blocks_are_few()
    ensures sizes { BlocksAreFew }
    ensures directories { DirectoriesAreShort }
{}

/// A directory's data takes as many blocks as its size says, and each block begins with an
/// identifier.
pub fn blocks_begin()
    ensures { BlocksBegin }
{}
