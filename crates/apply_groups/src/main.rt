//! Answers the messages of its standard input in groups, on the volume of the image that its one argument names. It is
//! for tests and measurements.
#![tactic(auto)]

use drive::FileDrive;
use engine::{CountedReader, Engine, PIECE_BYTES};
use grouping::serve_groups;
use limits::GREATEST_CAPACITY;
use settling::GatheringFileDrive;
use std::io::{BufWriter, Write};
use std::process::ExitCode;
use std::rt::Env;
use std::{env, io};

/// Answers the messages of the standard input on the image at this path. Returns whether all of them were answered.
fn apply(rt: &HostRuntime, path: &str) -> io::Result<bool> {
    let Ok(file) = FileDrive::open(rt, path, GREATEST_CAPACITY) else {
        return Ok(false);
    };
    let Ok(mut drive) = GatheringFileDrive::over(rt.alloc(), file) else {
        return Ok(false);
    };
    let mut engine = Engine::new();
    let mut input = CountedReader::new(rt.stdin());
    let mut output = BufWriter::new(rt.alloc(), rt.stdout())?;
    let served = serve_groups(
        rt.alloc(),
        &mut input,
        PIECE_BYTES,
        &mut output,
        &mut engine,
        &mut drive,
    );
    output.flush()?;
    Ok(served.is_ok())
}

fn main(rt: HostRuntime) -> io::Result<ExitCode> {
    let words: Vec<String> = env::args(&rt)?.skip(1).collect(rt.alloc())?;
    if let [path] = words.as_slice() {
        if apply(&rt, path.as_str())? {
            return Ok(ExitCode::SUCCESS);
        }
    }
    Ok(ExitCode::FAILURE)
}
