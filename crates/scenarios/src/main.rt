//! A player of scenarios: scripts of steps that are played on an engine over a drive in memory.
//!
//! The words of the program name the files to play. Without words the standard input is played. A scenario goes on up
//! to the first step that does not report what its line expects. Each scenario gets a line, and the last line has the
//! counts. The status is 1 if a scenario failed. data/README has the words of a script.
#![tactic(auto)]

mod answers;
mod beside;
mod bytes;
mod changes;
mod die;
mod machine;
mod player;
mod script;
mod stage;
mod steps;
mod streams;
mod tearing;
mod trouble;

use script::Script;
use stage::Stage;
use std::process::ExitCode;
use std::rt::{Env, Files};
use std::{env, fs, io};

/// How many scenarios went as their lines expect, and how many did not.
#[derive(Clone, Copy)]
struct Counts {
    passed: u64,
    failed: u64,
}

/// Plays the scenario that begins with a line, from nothing, and prints how it went. Returns whether it went as its
/// lines expect.
fn play_scenario<R: Print + AllocGlobal>(
    rt: &R,
    name: &str,
    script: &Script,
    index: usize,
    scenario: &str,
) -> io::Result<bool> {
    let mut failure = String::new(rt.alloc());
    if Stage::new(rt.alloc(), script).play(index, &mut failure) {
        println!(rt; "ok {scenario}")?;
        return Ok(true);
    }
    println!(rt; "FAILED {scenario}: {name} line {failure}")?;
    Ok(false)
}

/// Plays the scenarios of a script.
fn play_script<R: Print + AllocGlobal>(
    rt: &R,
    name: &str,
    text: &str,
    counts: Counts,
) -> io::Result<Counts> {
    let script = Script::read(rt.alloc(), text)?;
    let mut counts = counts;
    for index in 0..script.lines().len() {
        let Some(scenario) = script.scenario_at(index) else {
            continue;
        };
        if play_scenario(rt, name, &script, index, scenario)? {
            counts.passed = counts.passed.saturating_add(1);
        } else {
            counts.failed = counts.failed.saturating_add(1);
        }
    }
    Ok(counts)
}

/// Plays the files that the words name, or the standard input if there are none.
fn play_all<R: Print + Files + Env + Input + AllocGlobal>(rt: &R) -> io::Result<Counts> {
    let mut counts = Counts {
        passed: 0,
        failed: 0,
    };
    let words: Vec<String> = env::args(rt)?.collect(rt.alloc())?;
    for name in words.iter().skip(1) {
        let text = fs::read_to_string(rt, name.as_str())?;
        counts = play_script(rt, name, &text, counts)?;
    }
    if words.len() < 2 {
        let text = io::read_to_string(rt.alloc(), rt.reader())?;
        counts = play_script(rt, "the input", &text, counts)?;
    }
    Ok(counts)
}

fn main(rt: HostRuntime) -> io::Result<ExitCode> {
    let counts = play_all(&rt)?;
    println!(rt; "{} passed, {} failed", counts.passed, counts.failed)?;
    Ok(ExitCode::from(u8::from(counts.failed > 0)))
}
