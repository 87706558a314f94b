//! How long frames and codecs take, compared with plain work on the same bytes.
//!
//! The words are names of benches, each with a count after it, as `crc 4 dir 2`. Each bench says what it counts. It
//! prints what was done, which is the same in each run. With `--times` as the first word, the processor time follows,
//! in microseconds.
#![tactic(auto)]

mod bytes;
mod checks;
mod layouts;
mod report;
mod streams;
mod tables;

use report::Report;
use std::process::ExitCode;
use std::rt::Env;
use std::{env, io};

/// Runs a bench with its count. Returns false if there is none of this name.
fn run(rt: &HostRuntime, report: Report, name: &str, count: u32) -> io::Result<bool> {
    match name {
        "crc" => checks::measure(rt, report, count)?,
        "dir" => layouts::measure(rt, report, count)?,
        "vat" => tables::measure(rt, report, count)?,
        "request" => streams::measure(rt, report, count)?,
        _ => return Ok(false),
    }
    Ok(true)
}

/// Runs the benches that the words name. Returns false if the words are no benches with counts.
fn run_all(rt: &HostRuntime, words: &[String]) -> io::Result<bool> {
    let mut report = Report { times: false };
    let mut rest = words;
    if let [first, later @ ..] = rest {
        if first.as_str() == "--times" {
            report = Report { times: true };
            rest = later;
        }
    }
    for pair in rest.chunks(2) {
        let [name, count] = pair else {
            return Ok(false);
        };
        let Ok(count) = count.parse::<u32>() else {
            return Ok(false);
        };
        if !run(rt, report, name, count)? {
            return Ok(false);
        }
    }
    Ok(!rest.is_empty())
}

fn main(rt: HostRuntime) -> io::Result<ExitCode> {
    let words: Vec<String> = env::args(&rt)?.skip(1).collect(rt.alloc())?;
    if run_all(&rt, &words)? {
        return Ok(ExitCode::SUCCESS);
    }
    eprintln!(&rt; "usage: benches [--times] (NAME COUNT)..")?;
    Ok(ExitCode::from(2))
}
