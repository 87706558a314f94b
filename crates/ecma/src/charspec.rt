//! The character set of descriptors.

/// The character set of every text of UDF, as it is in a descriptor (ECMA-167 1/7.2.1, UDF 2.01 2.1.2): type 0, which
/// is CS0, and then its name.
pub const CS0: [u8; 64] =
    *b"\0OSTA Compressed Unicode\0\0\0\0\0\0\0\0\0\0\0\0\0\0\0\0\0\0\0\0\0\0\0\0\0\0\0\0\0\0\0\0\0\0\0\0\0\0\0\0";
