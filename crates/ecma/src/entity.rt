//! Entity identifiers (ECMA-167 1/7.4).

/// An entity identifier (ECMA-167 1/7.4), whose flags are 0.
#[derive(Clone, Copy, Debug, PartialEq, Eq)]
pub struct EntityId {
    /// A text, with zeros after it.
    pub identifier: [u8; 23],
    pub suffix: [u8; 8],
}

impl EntityId {
    ghost use Rattle.std.specs.Prelude.{◌≡◌};
    ghost use Rattle.ecma.specs.EntityId.{entity_id};

    /// The suffix of an identifier that UDF defines (UDF 2.01 2.1.5.3): revision 2.01, and no operating system. The
    /// suffix of the domain has the same bytes, with its flags 0.
    pub const UDF_SUFFIX: [u8; 8] = [0x01, 0x02, 0, 0, 0, 0, 0, 0];

    /// No entity.
    pub const EMPTY: EntityId = EntityId {
        identifier: [0; 23],
        suffix: [0; 8],
    };

    /// The program that writes these volumes.
    pub const DEVELOPER: EntityId = EntityId {
        identifier: *b"*udfburn\0\0\0\0\0\0\0\0\0\0\0\0\0\0\0",
        suffix: [0; 8],
    };

    /// The domain of UDF (UDF 2.01 2.1.5.2), in revision 2.01, without write protection.
    pub const DOMAIN: EntityId = EntityId {
        identifier: *b"*OSTA UDF Compliant\0\0\0\0",
        suffix: [0x01, 0x02, 0, 0, 0, 0, 0, 0],
    };

    /// The identifier as it is in a descriptor.
    pub fn to_bytes(self) -> [u8; 32]
        ensures { result ≡ entity_id self }
    {
        let mut bytes = [0; 32];
        bytes[1..24].copy_from_slice(&self.identifier);
        bytes[24..].copy_from_slice(&self.suffix);
        bytes
    }
}
