//! How many frames a stream has.

ghost use Rattle.std.specs.Prelude.{◌≡◌, ◌<◌, ◌++◌, ◌∷◌, ℕ, List, [], false};
ghost use Rattle.programs.specs.Counting.{IsCountOf};

use request::PAYLOAD_BYTES;

/// How many bytes the length of a frame's payload takes.
const LENGTH_BYTES: usize = 4;

/// Counts the frames that end in the bytes that it is given, in pieces of any size: those with a complete payload, and
/// one whose length is above the limit, which is the last.
#[derive(Drop)]
pub(crate) struct FrameCount {
    length: [u8; LENGTH_BYTES],
    /// How many bytes of a length were given.
    given: usize,
    /// How many bytes of a payload are to come.
    left: u32,
    count: u64,
    is_over: bool,
    ghost short: { given < 4 },
}

impl FrameCount {
    ghost use Rattle.programs.specs.Counted.{Counted};

    pub(crate) fn new() -> FrameCount
        ensures { Counted result [] }
    {
        FrameCount {
            length: [0; LENGTH_BYTES],
            given: 0,
            left: 0,
            count: 0,
            is_over: false,
        }
    }

    /// How many frames have ended.
    pub(crate) fn count(&self) -> u64
        ensures { (bytes : List ℕ) → Counted self.now bytes → IsCountOf bytes result }
    {
        self.count
    }

    pub(crate) fn feed(&mut self, piece: &[u8])
        ensures { (bytes : List ℕ) → Counted self.old bytes → Counted self.new (bytes ++ piece.now) }
    {
        for byte in piece {
            self.take(*byte);
        }
    }

    fn take(&mut self, byte: u8)
        ensures { (bytes : List ℕ) → Counted self.old bytes → Counted self.new (bytes ++ byte ∷ []) }
    {
        if self.is_over {
            return;
        }
        if self.left > 0 {
            self.take_of_payload();
        } else {
            self.take_of_length(byte);
        }
    }

    /// Takes a byte of a payload, whichever it is.
    fn take_of_payload(&mut self)
        requires goes_on { self.old.is_over ≡ false }
        requires some_left { 0 < self.old.left }
        ensures { (bytes : List ℕ) (byte : ℕ) → Counted self.old bytes → Counted self.new (bytes ++ byte ∷ []) }
    {
        self.left -= 1;
        if self.left == 0 {
            self.count = self.count.saturating_add(1);
        }
    }

    fn take_of_length(&mut self, byte: u8)
        requires goes_on { self.old.is_over ≡ false }
        requires none_left { self.old.left ≡ 0 }
        ensures { (bytes : List ℕ) → Counted self.old bytes → Counted self.new (bytes ++ byte ∷ []) }
    {
        self.length[self.given] = byte;
        if self.given + 1 < LENGTH_BYTES {
            self.given += 1;
            return;
        }
        self.given = 0;
        self.left = u32::from_le_bytes(self.length);
        self.is_over = self.left as usize > PAYLOAD_BYTES;
        if self.left == 0 || self.is_over {
            self.count = self.count.saturating_add(1);
        }
    }
}
