//! Reads and writes of pieces. Their contracts say what was read or written even if they fail.

ghost use Rattle.std.specs.Prelude.{◌≡◌, ◌≤◌, ◌<◌, ℕ, length, take, IfOk, IfErr, OnOk, OnErr};
ghost use Rattle.std.specs.Io.KnownBytes.{Appends, Consumes, IsAtEnd, Keeps};
ghost use Rattle.engine.specs.Streams.{TakesPiece, PutsPrefix};
ghost use Rattle.engine.specs.declared.serving.ServeFault.TheVariants as faults;

use crate::serving::ServeFault;
use std::io::{ErrorKind, Read, Write};

/// Reads the next bytes, and returns how many: 0 only at the end of the stream. A read that a signal interrupts is
/// tried again.
pub fn read_piece<R: Read>(reader: &mut R, piece: &mut [u8]) -> Result<usize, ServeFault>
    requires { 0 < length piece.old }
    ensures bound { IfOk result (λ n. n ≤ length piece.new) }
    ensures ok { IfOk result (λ n. TakesPiece (R.remaining reader.old) (R.remaining reader.new) (take n piece.new)) }
    ensures err { OnErr result (Keeps (R.remaining reader.old) (R.remaining reader.new)) }
    ensures fault { IfErr result (λ fault. fault ≡ faults.Read) }
{
    for _ in 0..u64::MAX {
        match reader.read(piece) {
            Ok(count) => return Ok(count),
            Err(error) if error.kind() == ErrorKind::Interrupted => {}
            Err(_) => return Err(ServeFault::Read),
        }
    }
    Err(ServeFault::Read)
}

/// Writes the bytes. If it fails, a prefix of them was written.
pub fn put_all<W: Write>(writer: &mut W, bytes: &[u8]) -> Result<(), ServeFault>
    ensures ok { OnOk result (Appends (W.contents writer.old) (W.contents writer.new) bytes.now) }
    ensures err { OnErr result (PutsPrefix (W.contents writer.old) (W.contents writer.new) bytes.now) }
    ensures fault { IfErr result (λ fault. fault ≡ faults.Write) }
{
    let mut rest = bytes;
    for _ in 0..u64::MAX {
        if rest.is_empty() {
            return Ok(());
        }
        match writer.write(rest) {
            Ok(0) => return Err(ServeFault::Write),
            Ok(count) => {
                let (_, later) = rest.split_at(count);
                rest = later;
            }
            Err(error) if error.kind() == ErrorKind::Interrupted => {}
            Err(_) => return Err(ServeFault::Write),
        }
    }
    Err(ServeFault::Write)
}
