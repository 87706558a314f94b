//! The standard input of a program.

use crate::sockets::Incoming;
use engine::PIECE_BYTES;
use std::alloc::Global;
use std::io::{self, Read};
use std::os::fd::AsFd;
use std::os::unix::net::UnixStream;
use std::rc::Rc;
use std::rt::Stdin;
use std::time::Clock;

/// The standard input. Of a Unix socket all bytes are read that are there, so that the messages in them are answered as a
/// group. Anything else is read in small pieces: of a pipe nothing says, without waiting, whether more is there, and bytes
/// of a file are answered faster while the processor has them in its cache.
#[derive(Drop)]
pub struct StandardInput<'a, R: Clock + AllocGlobal> {
    rt: &'a R,
    stdin: Stdin,
    socket: Option<Incoming<'a, R>>,
    is_begun: bool,
}

impl<'a, R: Clock + AllocGlobal> StandardInput<'a, R> {
    /// The standard input of which nothing was read yet.
    pub fn new(rt: &'a R, stdin: Stdin) -> StandardInput<'a, R> {
        StandardInput {
            rt,
            stdin,
            socket: None,
            is_begun: false,
        }
    }

    /// Looks what it is. Not before it is read: until the program has its own descriptors, a new one might get the number
    /// of a standard stream that is closed.
    fn begin(&mut self) {
        self.is_begun = true;
        self.socket = match as_socket(&self.stdin, self.rt.alloc()) {
            Some(stream) => Some(Incoming::new(self.rt, Some(stream), false)),
            None => None,
        };
    }
}

impl<'a, R: Clock + AllocGlobal> Read for StandardInput<'a, R> {
    fn read(&mut self, bytes: &mut [u8]) -> io::Result<usize> {
        if !self.is_begun {
            self.begin();
        }
        match &mut self.socket {
            Some(socket) => socket.read(bytes),
            None => {
                let most = bytes.len().min(PIECE_BYTES);
                self.stdin.read(&mut bytes[..most])
            }
        }
    }
}

/// The standard input as a Unix socket. `None` if it is none, or descriptors or memory are short.
fn as_socket(stdin: &Stdin, alloc: Global) -> Option<Rc<UnixStream>> {
    let descriptor = stdin.as_fd().try_clone_to_owned().ok()?;
    let stream = UnixStream::from(descriptor);
    // What has no such address is no Unix socket.
    if stream.local_addr().is_err() {
        return None;
    }
    Rc::new(alloc, stream).ok()
}
