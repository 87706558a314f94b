//! The steps of a script by their words.

use crate::bytes::read_bytes;
use crate::trouble::Trouble;
use drive::{Block, Fault};
use std::alloc::Global;
use std::str::FromStr;
use words::number;

/// A step that is no request and no query.
#[derive(Clone, Copy)]
pub enum Step {
    /// A query about the state that is held.
    Then,
    /// A message for `run`, or a restart.
    Later,
    Run,
    Serve,
    Load,
    New(NewMedium),
    Medium(MediumStep),
    Look(Look),
    /// The plain program begins, with random numbers if there is a seed.
    Die,
    /// A request to the machine and to the plain program.
    Both,
    /// What is due for a number, by the plain program.
    Due,
    AtMark,
    Beside(BesideStep),
}

/// A step after which there is another medium, by numbers.
#[derive(Clone, Copy)]
pub enum NewMedium {
    Blank,
    Resize,
    Flip,
}

/// A step on the medium that is there, or on what uses it.
#[derive(Clone, Copy)]
pub enum MediumStep {
    Format,
    Keep,
    Burn,
    Fault,
    Restart,
    Open,
    AsOf,
    Same,
}

/// A look at a medium, or at its history.
#[derive(Clone, Copy)]
pub enum Look {
    Blocks,
    Block,
    Bytes,
    Crc,
    MostHeld,
    Log,
    Check,
}

/// A step with random requests, after the die.
#[derive(Clone, Copy)]
pub enum BesideStep {
    Upset,
    Fall,
    Stray,
    Fronts,
    Tree,
    Lose,
    Tear,
    Mark,
    Marks,
    Listed,
}

/// Any count of words.
const ANY: usize = usize::MAX;

/// The steps by their names, and the fewest and the most words that each has.
const STEPS: [(&str, usize, usize, Step); 38] = [
    ("then", 0, ANY, Step::Then),
    ("later", 0, ANY, Step::Later),
    ("run", 0, 0, Step::Run),
    ("serve", 4, ANY, Step::Serve),
    ("blank", 1, 1, Step::New(NewMedium::Blank)),
    ("load", 1, 2, Step::Load),
    ("resize", 1, 1, Step::New(NewMedium::Resize)),
    ("flip", 2, 2, Step::New(NewMedium::Flip)),
    ("format", 2, 2, Step::Medium(MediumStep::Format)),
    ("keep", 1, 1, Step::Medium(MediumStep::Keep)),
    ("burn", 0, ANY, Step::Medium(MediumStep::Burn)),
    ("fault", 2, 2, Step::Medium(MediumStep::Fault)),
    ("restart", 0, 0, Step::Medium(MediumStep::Restart)),
    ("open", 0, 0, Step::Medium(MediumStep::Open)),
    ("as-of", 1, 1, Step::Medium(MediumStep::AsOf)),
    ("same", 1, 1, Step::Medium(MediumStep::Same)),
    ("blocks", 0, 0, Step::Look(Look::Blocks)),
    ("block", 1, 1, Step::Look(Look::Block)),
    ("bytes", 3, 3, Step::Look(Look::Bytes)),
    ("crc", 1, 2, Step::Look(Look::Crc)),
    ("most-held", 0, 0, Step::Look(Look::MostHeld)),
    ("log", 0, 0, Step::Look(Look::Log)),
    ("check", 0, 0, Step::Look(Look::Check)),
    ("die", 1, 1, Step::Die),
    ("beside", 0, 0, Step::Die),
    ("both", 1, ANY, Step::Both),
    ("due", 2, 2, Step::Due),
    ("upset", 0, 0, Step::Beside(BesideStep::Upset)),
    ("fall", 0, 0, Step::Beside(BesideStep::Fall)),
    ("stray", 0, 0, Step::Beside(BesideStep::Stray)),
    ("fronts", 0, 0, Step::Beside(BesideStep::Fronts)),
    ("tree", 0, 0, Step::Beside(BesideStep::Tree)),
    ("lose", 0, 0, Step::Beside(BesideStep::Lose)),
    ("tear", 0, 0, Step::Beside(BesideStep::Tear)),
    ("mark", 0, 0, Step::Beside(BesideStep::Mark)),
    ("at-mark", 1, 1, Step::AtMark),
    ("marks", 0, 0, Step::Beside(BesideStep::Marks)),
    ("listed", 0, 0, Step::Beside(BesideStep::Listed)),
];

/// The trouble with words that are no step.
const NO_STEP: Trouble = Trouble::Line("no such step");

/// The step with this name and this count of words.
pub fn step_of(name: &str, count: usize) -> Result<Step, Trouble> {
    for (known, least, most, step) in &STEPS {
        if *known == name && *least <= count && count <= *most {
            return Ok(*step);
        }
    }
    Err(NO_STEP)
}

/// The word of this index.
pub fn word_at<'w>(words: &[&'w str], index: usize) -> Result<&'w str, Trouble> {
    match words.get(index) {
        Some(word) => Ok(word),
        None => Err(NO_STEP),
    }
}

/// The number that the word of this index is.
pub fn number_at<T: FromStr>(words: &[&str], index: usize) -> Result<T, Trouble>
where
    T::Err: Drop,
{
    Ok(number(word_at(words, index)?)?)
}

/// The numbers of the first three words, and 0 for each that is not there.
pub fn read_numbers(words: &[&str]) -> Result<[usize; 3], Trouble> {
    let mut numbers = [0; 3];
    for (place, word) in numbers.iter_mut().zip(words) {
        *place = number(word)?;
    }
    Ok(numbers)
}

/// The fault of a kind, with a count.
pub fn read_fault(words: &[&str]) -> Result<Fault, Trouble> {
    let count = number_at(words, 1)?;
    match word_at(words, 0)? {
        "after" => Ok(Fault::AfterBlocks(count)),
        "next" => Ok(Fault::Next(count)),
        "read" => Ok(Fault::Read(count)),
        _ => Err(NO_STEP),
    }
}

/// A block that begins with these bytes, with zeros after them.
pub fn read_block(alloc: Global, words: &[&str]) -> Result<Block, Trouble> {
    let mut bytes = Vec::new(alloc);
    read_bytes(words, &mut bytes)?;
    let size = bytes.len().min(2048);
    let mut block = [0; 2048];
    block[..size].copy_from_slice(&bytes[..size]);
    Ok(block)
}
