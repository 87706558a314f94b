//! The program `udfburnd`: `programs::run_daemon` over the files of the system, on a socket, with the words of the
//! process.
#![tactic(auto)]

use media::FileMedia;
use programs::{ErrorStream, Sockets, run_daemon};
use std::process::ExitCode;

fn main(rt: HostRuntime) -> ExitCode {
    let mut media = FileMedia::of(&rt);
    let mut sockets = Sockets::new(&rt);
    let mut errors = ErrorStream::new(rt.stderr());
    ExitCode::from(run_daemon(&rt, &mut media, &mut sockets, &mut errors))
}
