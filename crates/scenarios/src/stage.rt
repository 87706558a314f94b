//! A scenario that is being played: which line is next, and what names stand for.

use crate::bytes::read_one;
use crate::player::Player;
use crate::script::Script;
use crate::trouble::Trouble;
use std::alloc::{AllocError, Global};
use std::fmt::Write;
use words::{number, show_bytes};

/// How deep blocks may be nested.
const DEPTH: usize = 64;

/// What a name stands for.
#[derive(Drop)]
struct Bound {
    name: String,
    value: String,
}

impl Bound {
    fn new(alloc: Global, name: &str, value: &str) -> Result<Bound, AllocError> {
        let name = String::from_str(alloc, name)?;
        let value = String::from_str(alloc, value)?;
        Ok(Bound { name, value })
    }

    /// Adds a word to the value.
    fn append(&mut self, word: &str) -> Result<(), AllocError> {
        self.value.push(' ')?;
        self.value.push_str(word)
    }
}

/// Lines that are played once for each value of a name, or once if there is no name.
#[derive(Drop)]
struct Block {
    first: usize,
    next: usize,
    end: usize,
    bound: Vec<Bound>,
    /// The values of the first name that are left, the last one first.
    values: Vec<String>,
}

/// A scenario that is being played.
#[derive(Drop)]
pub struct Stage<'s> {
    alloc: Global,
    script: &'s Script,
    player: Player,
    open: Vec<Block>,
    /// What the line that was played last expects, and what its step reported.
    wanted: String,
    got: String,
}

impl<'s> Stage<'s> {
    /// A stage on which nothing was played yet.
    pub fn new(alloc: Global, script: &'s Script) -> Stage<'s> {
        Stage {
            alloc,
            script,
            player: Player::new(alloc),
            open: Vec::new(alloc),
            wanted: String::new(alloc),
            got: String::new(alloc),
        }
    }

    /// Plays the scenario that begins with a line, up to the first line whose step does not report what it expects.
    /// Returns whether there was none. Otherwise appends the number of that line, what the names stood for, and why it
    /// failed.
    pub fn play(&mut self, index: usize, failure: &mut String) -> bool {
        let mut at = index;
        let mut played = self.enter_scenario(index);
        for _ in 0..u64::MAX {
            if let Err(trouble) = played {
                // Without memory, what is left of the failure is left out.
                let _ = self.put_failure(at, trouble, failure);
                return false;
            }
            let Some(next) = self.advance() else {
                return true;
            };
            at = next;
            played = self.play_line(at);
        }
        true
    }

    fn put_failure(&self, at: usize, trouble: Trouble, out: &mut String) -> Result<(), Trouble> {
        let line = self.script.lines().get(at).map_or(0, |line| line.number);
        write!(out, "{line}")?;
        for block in &self.open {
            for bound in &block.bound {
                put_words(&[", ", &bound.name, " ", &bound.value], out)?;
            }
        }
        match trouble {
            Trouble::Told => put_words(&[": wanted ", &self.wanted, ", got ", &self.got], out),
            trouble => Ok(write!(out, ": {trouble}")?),
        }
    }

    /// Opens the block of the lines of a scenario.
    fn enter_scenario(&mut self, index: usize) -> Result<(), Trouble> {
        let end = self.script.end_of_scenario(index);
        let (bound, values) = (Vec::new(self.alloc), Vec::new(self.alloc));
        self.enter(index.saturating_add(1), end, bound, values)
    }

    /// Opens a block.
    fn enter(
        &mut self,
        first: usize,
        end: usize,
        bound: Vec<Bound>,
        values: Vec<String>,
    ) -> Result<(), Trouble> {
        if self.open.len() >= DEPTH {
            return Err(Trouble::Line("too many blocks within one another"));
        }
        self.open.push(Block {
            first,
            next: first,
            end,
            bound,
            values,
        })?;
        Ok(())
    }

    /// The next line. A block that ends is played again for the next value, or left.
    fn advance(&mut self) -> Option<usize> {
        for _ in 0..u64::MAX {
            let block = self.open.last_mut()?;
            if block.next < block.end {
                let at = block.next;
                block.next = at.saturating_add(1);
                return Some(at);
            }
            match (block.values.pop(), block.bound.first_mut()) {
                (Some(value), Some(bound)) => {
                    bound.value = value;
                    block.next = block.first;
                }
                _ => drop(self.open.pop()),
            }
        }
        None
    }

    /// Plays a line.
    fn play_line(&mut self, at: usize) -> Result<(), Trouble> {
        let Some(line) = self.script.lines().get(at) else {
            return Ok(());
        };
        let text = self.expand(&line.text)?;
        let (step, wanted) = wanted_of(&text);
        let words: Vec<&str> = step.split_whitespace().collect(self.alloc)?;
        self.play_words(at, &words, wanted)
    }

    fn play_words(&mut self, at: usize, words: &[&str], wanted: Wanted<'_>) -> Result<(), Trouble> {
        match words {
            ["end"] => Ok(()),
            ["define", ..] => self.leave_out(at),
            ["each", name, values @ ..] => {
                self.leave_out(at)?;
                self.enter_each(at, name, values)
            }
            [name, values @ ..] => match self.script.definition(name) {
                Some((at, names)) => self.play_definition(at, names, values, wanted),
                None => self.play_step(words, wanted),
            },
            [] => self.play_step(words, wanted),
        }
    }

    /// Plays a definition, which reports nothing.
    fn play_definition(
        &mut self,
        at: usize,
        names: &str,
        words: &[&str],
        wanted: Wanted<'_>,
    ) -> Result<(), Trouble> {
        if !matches!(wanted, Wanted::Nothing) {
            return Err(Trouble::Line("a definition tells nothing"));
        }
        self.enter_definition(at, names, words)
    }

    /// Skips the block that begins with a line.
    fn leave_out(&mut self, at: usize) -> Result<(), Trouble> {
        let end = self.script.end_of_block(at)?;
        if let Some(block) = self.open.last_mut() {
            block.next = end.saturating_add(1);
        }
        Ok(())
    }

    /// Plays the lines after this one once for each value of a name, where `2..5` is 2, 3 and 4.
    fn enter_each(&mut self, at: usize, name: &str, words: &[&str]) -> Result<(), Trouble> {
        let end = self.script.end_of_block(at)?;
        let mut values = values_of(self.alloc, words)?;
        let Some(value) = values.pop() else {
            return Ok(());
        };
        let mut bound = Vec::new(self.alloc);
        bound.push(Bound::new(self.alloc, name, &value)?)?;
        self.enter(at.saturating_add(1), end, bound, values)
    }

    /// Plays the lines of a definition, with its names for these words, the last name for all that are left.
    fn enter_definition(&mut self, at: usize, names: &str, words: &[&str]) -> Result<(), Trouble> {
        let end = self.script.end_of_block(at)?;
        let bound = bind(self.alloc, names, words)?;
        self.enter(at.saturating_add(1), end, bound, Vec::new(self.alloc))
    }

    /// Plays a step, and compares what it reports with what the line expects.
    fn play_step(&mut self, words: &[&str], wanted: Wanted<'_>) -> Result<(), Trouble> {
        self.got.clear();
        let played = self.player.play(words, &mut self.got);
        match (played, wanted) {
            (played, Wanted::Nothing) => return played,
            (Err(Trouble::Refused(fault)), Wanted::Text(_)) => {
                self.got.clear();
                write!(self.got, "{fault}")?;
            }
            (played, _) => played?,
        }
        self.wanted.clear();
        put_wanted(self.alloc, wanted, &mut self.wanted)?;
        if is_one_of(&self.wanted, &self.got) {
            return Ok(());
        }
        Err(Trouble::Told)
    }

    /// What a name stands for.
    fn value_of(&self, name: &str) -> Option<&str> {
        for block in self.open.iter().rev() {
            for bound in &block.bound {
                if bound.name.as_str() == name {
                    return Some(&bound.value);
                }
            }
        }
        None
    }

    /// The text with each pair of braces replaced by the value of what is in it.
    fn expand(&self, text: &str) -> Result<String, Trouble> {
        let mut expanded = String::new(self.alloc);
        let mut rest = text;
        for _ in 0..text.len() {
            let Some((before, opened)) = rest.split_once("{") else {
                break;
            };
            let (inner, after) = opened
                .split_once("}")
                .ok_or(Trouble::Line("no end of a brace"))?;
            expanded.push_str(before)?;
            self.put_value(inner, &mut expanded)?;
            rest = after;
        }
        expanded.push_str(rest)?;
        Ok(expanded)
    }

    /// Appends the value of what is in braces.
    fn put_value(&self, text: &str, into: &mut String) -> Result<(), Trouble> {
        match self.value_of(text) {
            Some(value) => into.push_str(value)?,
            None => write!(into, "{}", self.reckon(text)?)?,
        }
        Ok(())
    }

    /// Computes numbers and names with ` + `, ` - ` and ` * ` between them, from left to right.
    fn reckon(&self, text: &str) -> Result<u64, Trouble> {
        let mut total = 0u64;
        let mut sign = '+';
        for word in text.split_whitespace() {
            if let "+" | "-" | "*" = word {
                sign = word.chars().next().unwrap_or('+');
                continue;
            }
            let value = number::<u64>(self.value_of(word).unwrap_or(word))?;
            let sum = match sign {
                '+' => total.checked_add(value),
                '-' => total.checked_sub(value),
                _ => total.checked_mul(value),
            };
            total = sum.ok_or(Trouble::Line("no such number"))?;
        }
        Ok(total)
    }
}

/// The values of the words, the last one first. `2..5` is 2, 3 and 4.
fn values_of(alloc: Global, words: &[&str]) -> Result<Vec<String>, Trouble> {
    let mut values = Vec::new(alloc);
    for word in words {
        match word.split_once("..") {
            Some((from, until)) => push_numbers(number(from)?, number(until)?, &mut values)?,
            None => values.push(String::from_str(alloc, word)?)?,
        }
    }
    values.reverse();
    Ok(values)
}

/// Appends the numbers from `from` to before `until`.
fn push_numbers(from: u64, until: u64, into: &mut Vec<String>) -> Result<(), Trouble> {
    let alloc = *into.allocator();
    for value in from..until {
        into.push(format!(in alloc; "{value}")?)?;
    }
    Ok(())
}

/// Each name with a word, and the last name with all words that are left.
fn bind(alloc: Global, names: &str, words: &[&str]) -> Result<Vec<Bound>, Trouble> {
    let mut bound: Vec<Bound> = Vec::new(alloc);
    for (index, name) in names.split_whitespace().enumerate() {
        let word = words.get(index).ok_or(Trouble::Line("too few words"))?;
        bound.push(Bound::new(alloc, name, word)?)?;
    }
    for word in words.iter().skip(bound.len()) {
        let last = bound.last_mut().ok_or(Trouble::Line("too many words"))?;
        last.append(word)?;
    }
    Ok(bound)
}

/// What a line expects its step to report.
#[derive(Clone, Copy)]
enum Wanted<'w> {
    /// Anything: it is not compared.
    Nothing,
    /// This text, or a number within `1..32`.
    Text(&'w str),
    /// These bytes.
    Bytes(&'w str),
}

/// Appends what is expected.
fn put_wanted(alloc: Global, wanted: Wanted<'_>, out: &mut String) -> Result<(), Trouble> {
    match wanted {
        Wanted::Nothing => {}
        Wanted::Text(text) => out.push_str(text)?,
        Wanted::Bytes(text) => {
            let mut bytes = Vec::new(alloc);
            for word in text.split_whitespace() {
                read_one(word, &mut bytes)?;
            }
            show_bytes(&bytes, out)?;
        }
    }
    Ok(())
}

/// Appends all of these words.
fn put_words(words: &[&str], out: &mut String) -> Result<(), Trouble> {
    for word in words {
        out.push_str(word)?;
    }
    Ok(())
}

/// The step of a line, and what it is to report.
fn wanted_of(text: &str) -> (&str, Wanted<'_>) {
    if let Some((step, wanted)) = text.split_once(" -> ") {
        return (step, Wanted::Text(wanted.trim()));
    }
    match text.split_once(" = ") {
        Some((step, wanted)) => (step, Wanted::Bytes(wanted)),
        None => (text, Wanted::Nothing),
    }
}

/// Whether what is reported is one of the expected texts, or a number in an expected range such as `1..32`.
fn is_one_of(wanted: &str, got: &str) -> bool {
    if let (Some((from, until)), Ok(told)) = (wanted.split_once(".."), got.parse::<u64>()) {
        return from.parse::<u64>().is_ok_and(|from| from <= told)
            && until.parse::<u64>().is_ok_and(|until| told < until);
    }
    wanted.split(" or ").any(|text| text == got)
}
