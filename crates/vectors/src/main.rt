//! A comparison of the codecs with vectors: bytes, and what they encode or why they are refused.
//!
//! The words of the program name files of cases. Their form is in docs/VECTORS.md. Each file gets a line with its
//! counts, and before it a line for each answer that differs. The status is 1 if one differs, or if there was none. A
//! value that is read is also written again, and must give the same bytes.
#![tactic(auto)]

mod answers;
mod cases;
mod compare;
mod directories;
mod entries;
mod fronts;
mod messages;
mod structures;
mod tables;
mod texts;
mod trouble;
mod volumes;

use cases::Reader;
use std::process::ExitCode;
use std::rt::{Env, Files};
use std::{env, fs, io};
use words::read_lines;

/// How much there was to compare, and how much of it differs.
#[derive(Clone, Copy)]
struct Counts {
    cases: u64,
    answers: u64,
    differ: u64,
}

impl Counts {
    fn none() -> Counts {
        Counts {
            cases: 0,
            answers: 0,
            differ: 0,
        }
    }

    fn plus(self, more: Counts) -> Counts {
        Counts {
            cases: self.cases.saturating_add(more.cases),
            answers: self.answers.saturating_add(more.answers),
            differ: self.differ.saturating_add(more.differ),
        }
    }
}

/// Compares the cases of a file, and prints those that differ.
fn compare_file<R: Print + AllocGlobal>(rt: &R, name: &str, text: &str) -> io::Result<Counts> {
    let lines = read_lines(rt.alloc(), text)?;
    let mut reader = Reader::new(rt.alloc());
    let mut counts = Counts::none();
    for line in &lines {
        match reader.line(line) {
            Ok(false) => {}
            Ok(true) => counts.answers = counts.answers.saturating_add(1),
            Err(trouble) => {
                let case = reader.name();
                let number = line.number;
                println!(rt; "DIFFERS {case}: {name} line {number}: {trouble}")?;
                counts.answers = counts.answers.saturating_add(1);
                counts.differ = counts.differ.saturating_add(1);
            }
        }
    }
    counts.cases = reader.cases();
    Ok(counts)
}

fn main(rt: HostRuntime) -> io::Result<ExitCode> {
    let mut all = Counts::none();
    let words: Vec<String> = env::args(&rt)?.collect(rt.alloc())?;
    for name in words.iter().skip(1) {
        let text = fs::read_to_string(&rt, name.as_str())?;
        let counts = compare_file(&rt, name, &text)?;
        println!(rt;
            "{name}: {} cases, {} answers, {} differ",
            counts.cases, counts.answers, counts.differ
        )?;
        all = all.plus(counts);
    }
    println!(rt;
        "{} cases, {} answers, {} differ",
        all.cases, all.answers, all.differ
    )?;
    Ok(ExitCode::from(u8::from(all.differ > 0 || all.answers == 0)))
}
