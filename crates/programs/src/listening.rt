//! Where the connections of a daemon come from.

ghost use Rattle.std.specs.Prelude.{◌≡◌, ◌++◌, ◌∷◌, [], true, nat_lt, ℕ, List, Option, IfOk, OnErr, OnOk};
ghost use Rattle.drive.specs.Journal.{counted};
ghost use Rattle.programs.specs.Outputs.{IsBlank, known};

use engine::CountedReader;
use std::alloc::Global;
use std::io::{Read, Write};

/// A connection could not be accepted, or the place at which clients connect could not be made.
#[derive(Clone, Copy, Debug, PartialEq, Eq)]
pub struct NoConnection;

/// A place at which clients connect, one after another.
pub trait Listener {
    /// The half of a connection from which the client's bytes are read.
    type Input: Read + Drop;
    /// The half on which the client is answered.
    type Output: Write + Drop;

    /// What the clients of its connections send, in order, as far as their bytes are known.
    ghost given: { Self → List (Option (List ℕ)) };

    /// What was written on the connections that were ended, in order, as far as the bytes are known.
    ghost ended: { Self → List (List ℕ) };

    /// How many times it had no connection to give. It stops at 2^64 - 1.
    ghost missed: { Self → ℕ };

    /// On how many of the connections that were ended a read failed. It stops at 2^64 - 1.
    ghost failed: { Self → ℕ };

    /// Listens at this path. Nothing may be there yet.
    fn listen(&mut self, path: &str) -> Result<(), NoConnection>
        ensures given { given self.new ≡ given self.old }
        ensures ended { ended self.new ≡ ended self.old }
        ensures missed { missed self.new ≡ missed self.old }
        ensures failed { failed self.new ≡ failed self.old };

    /// The next connection, on which nothing is written yet.
    fn accept(&mut self, alloc: Global) -> Result<(Self::Input, Self::Output), NoConnection>
        ensures given { IfOk result (λ c. given self.new ≡ given self.old ++ Self.Input.remaining c.0 ∷ []) }
        ensures blank { IfOk result (λ c. IsBlank (Self.Output.contents c.1)) }
        ensures found { OnOk result (missed self.new ≡ missed self.old) }
        ensures none { OnErr result (given self.new ≡ given self.old) }
        ensures missed { OnErr result (missed self.new ≡ counted true (missed self.old)) }
        ensures ended { ended self.new ≡ ended self.old }
        ensures failed { failed self.new ≡ failed self.old };

    /// Sets the limit of a connection: it fails once its client has neither sent nor taken a byte for a minute.
    fn limit(&self, input: &Self::Input) -> Result<(), NoConnection>;

    /// Ends the connection of these halves, of which the input tells whether a read of it failed.
    fn end(&mut self, input: CountedReader<Self::Input>, output: Self::Output)
        ensures ended { ended self.new ≡ ended self.old ++ known (Self.Output.contents output) }
        ensures given { given self.new ≡ given self.old }
        ensures missed { missed self.new ≡ missed self.old }
        ensures failed { failed self.new ≡ counted (nat_lt 0 input.failures) (failed self.old) };
}
