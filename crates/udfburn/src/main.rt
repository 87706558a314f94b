//! The program `udfburn`: `programs::run_command` over the files of the system, with the words and the streams of the
//! process.
#![tactic(auto)]

use media::FileMedia;
use programs::{CountedReader, ErrorStream, StandardInput, run_command};
use std::process::ExitCode;

fn main(rt: HostRuntime) -> ExitCode {
    let mut media = FileMedia::of(&rt);
    let mut input = CountedReader::new(StandardInput::new(&rt, rt.stdin()));
    let output = rt.stdout();
    let mut errors = ErrorStream::new(rt.stderr());
    let (status, _) = run_command(&rt, &mut media, &mut input, output, &mut errors);
    ExitCode::from(status)
}
