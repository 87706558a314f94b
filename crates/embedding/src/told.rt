//! What C is told about a volume, in the layout of C.

/// The state of a volume.
#[repr(C)]
#[derive(Clone, Copy)]
pub struct Status {
    /// The moment of the newest commit, or of the format, in microseconds from 1970-01-01 UTC.
    pub moment: u64,
    /// How many blocks the volume has.
    pub capacity: u32,
    /// The address at which the next commit begins.
    pub next: u32,
    /// The number of the newest commit: 0 for the format.
    pub commits: u32,
    /// How many files the tree has.
    pub files: u32,
    /// How many directories the tree has, including the root.
    pub directories: u32,
    /// How many clients the volume knows.
    pub clients: u32,
    /// How many bytes of `label` are the label's.
    pub label_length: u32,
    /// The label in UTF-8, with zeros after it.
    pub label: [u8; 64],
}

/// A commit of a volume.
#[repr(C)]
#[derive(Clone, Copy)]
pub struct CommitStatus {
    /// The moment of its VAT ICB, in microseconds from 1970-01-01 UTC.
    pub moment: u64,
    /// Its number: 0 for the format, 1 for the first request.
    pub number: u32,
    /// The address of its VAT ICB.
    pub address: u32,
    /// How many files the tree had after it.
    pub files: u32,
    /// How many directories the tree had after it, including the root.
    pub directories: u32,
}
