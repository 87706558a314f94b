//! The cases of a file, line by line.

use crate::compare::{Medium, answer};
use crate::trouble::Trouble;
use std::alloc::Global;
use words::{Line, number, read_word};

/// The bytes of a block.
const BLOCK: usize = 2048;

/// The trouble with words that are no line.
const NO_LINE: Trouble = Trouble::Line("no such line");

/// Bytes that a name stands for.
#[derive(Drop)]
struct Named {
    name: String,
    bytes: Vec<u8>,
}

/// Words of an answer that a name stands for.
#[derive(Drop)]
struct Spoken {
    name: String,
    text: String,
}

/// What was read of a file so far: the names, and the current case.
#[derive(Drop)]
pub struct Reader {
    alloc: Global,
    named: Vec<Named>,
    spoken: Vec<Spoken>,
    cases: u64,
    case: String,
    medium: Medium,
}

impl Reader {
    /// A reader that has read nothing yet.
    pub fn new(alloc: Global) -> Reader {
        Reader {
            alloc,
            named: Vec::new(alloc),
            spoken: Vec::new(alloc),
            cases: 0,
            case: String::new(alloc),
            medium: Medium::new(alloc),
        }
    }

    /// The name of the current case.
    pub fn name(&self) -> &str {
        self.case.as_str()
    }

    /// How many cases have begun.
    pub fn cases(&self) -> u64 {
        self.cases
    }

    /// Reads a line. If it has an answer, that is compared. Returns whether it has one.
    pub fn line(&mut self, line: &Line) -> Result<bool, Trouble> {
        if let Some((question, wanted)) = line.text.split_once("->") {
            self.compare(question, wanted)?;
            return Ok(true);
        }
        let words: Vec<&str> = line.text.split_whitespace().collect(self.alloc)?;
        self.take(&words)?;
        Ok(false)
    }

    fn take(&mut self, words: &[&str]) -> Result<(), Trouble> {
        match words {
            ["bytes", rest @ ..] => self.append(rest),
            ["case", name] => self.begin(name),
            ["capacity", blocks] => {
                self.medium.capacity = number(blocks)?;
                Ok(())
            }
            ["flip", block, places] => self.flip(number(block)?, places),
            [kind, name, rest @ ..] => self.define(kind, name, rest),
            _ => Err(NO_LINE),
        }
    }

    fn define(&mut self, kind: &str, name: &str, words: &[&str]) -> Result<(), Trouble> {
        match kind {
            "let" => self.keep(name, words),
            "words" => self.speak(name, words),
            "put" => self.put(number(name)?, words),
            _ => Err(NO_LINE),
        }
    }

    /// Appends bytes to those of the case.
    fn append(&mut self, words: &[&str]) -> Result<(), Trouble> {
        let mut bytes = Vec::new(self.alloc);
        bytes.append(&mut self.medium.bytes)?;
        self.read(words, &mut bytes)?;
        self.medium.bytes = bytes;
        Ok(())
    }

    /// Appends the bytes of the words. `..` is zeros up to the end of the block, and `{front}` is what that name stands
    /// for.
    fn read(&self, words: &[&str], into: &mut Vec<u8>) -> Result<(), Trouble> {
        for word in words {
            match word
                .strip_prefix("{")
                .and_then(|rest| rest.strip_suffix("}"))
            {
                Some(name) => into.extend_from_slice(self.named(name)?)?,
                None if *word == ".." => fill_block(into)?,
                None => read_word(word, into)?,
            }
        }
        Ok(())
    }

    fn named(&self, name: &str) -> Result<&[u8], Trouble> {
        for named in &self.named {
            if named.name.as_str() == name {
                return Ok(named.bytes.as_slice());
            }
        }
        Err(Trouble::Line("no such bytes have a name"))
    }

    /// Keeps the bytes of a name.
    fn keep(&mut self, name: &str, words: &[&str]) -> Result<(), Trouble> {
        let mut bytes = Vec::new(self.alloc);
        self.read(words, &mut bytes)?;
        let name = String::from_str(self.alloc, name)?;
        self.named.push(Named { name, bytes })?;
        Ok(())
    }

    /// Keeps the words of a name.
    fn speak(&mut self, name: &str, words: &[&str]) -> Result<(), Trouble> {
        let mut text = String::new(self.alloc);
        for word in words {
            text.push_str(word)?;
            text.push(' ')?;
        }
        let name = String::from_str(self.alloc, name)?;
        self.spoken.push(Spoken { name, text })?;
        Ok(())
    }

    /// The words of an answer, with each name in braces replaced by its words.
    fn answer(&self, text: &str) -> Result<String, Trouble> {
        let mut out = String::new(self.alloc);
        for word in text.split_whitespace() {
            match word
                .strip_prefix("{")
                .and_then(|rest| rest.strip_suffix("}"))
            {
                Some(name) => out.push_str(self.spoken(name)?)?,
                None => out.push_str(word)?,
            }
            out.push(' ')?;
        }
        Ok(out)
    }

    fn spoken(&self, name: &str) -> Result<&str, Trouble> {
        for spoken in &self.spoken {
            if spoken.name.as_str() == name {
                return Ok(spoken.text.as_str());
            }
        }
        Err(Trouble::Line("no such words have a name"))
    }

    fn begin(&mut self, name: &str) -> Result<(), Trouble> {
        self.cases = self.cases.saturating_add(1);
        self.case = String::from_str(self.alloc, name)?;
        self.medium = Medium::new(self.alloc);
        Ok(())
    }

    /// Replaces a block by these bytes, with zeros after them.
    fn put(&mut self, address: usize, words: &[&str]) -> Result<(), Trouble> {
        let mut block = Vec::new(self.alloc);
        self.read(words, &mut block)?;
        block.resize(BLOCK, 0)?;
        let at = address.saturating_mul(BLOCK);
        for (index, byte) in block.iter().enumerate() {
            match self.medium.bytes.get_mut(at.saturating_add(index)) {
                Some(place) => *place = *byte,
                None => return Err(Trouble::Line("no such block")),
            }
        }
        Ok(())
    }

    /// Has one bit changed in a byte of a block, or in each of several bytes in turn.
    fn flip(&mut self, block: usize, places: &str) -> Result<(), Trouble> {
        let (from, until) = match places.split_once("..") {
            Some((from, until)) => (number(from)?, number(until)?),
            None => {
                let at: usize = number(places)?;
                (at, at.saturating_add(1))
            }
        };
        let start = block.saturating_mul(BLOCK);
        self.medium.flips = Some((start.saturating_add(from), start.saturating_add(until)));
        Ok(())
    }

    /// Compares the answer to a question with that of the line.
    fn compare(&mut self, question: &str, wanted: &str) -> Result<(), Trouble> {
        let wanted = self.answer(wanted)?;
        let Some((from, until)) = self.medium.flips else {
            return self.ask(question, &wanted);
        };
        for place in from..until {
            self.turn(place)?;
            let asked = self.ask(question, &wanted);
            self.turn(place)?;
            asked?;
        }
        Ok(())
    }

    /// Changes one bit of a byte.
    fn turn(&mut self, place: usize) -> Result<(), Trouble> {
        match self.medium.bytes.get_mut(place) {
            Some(byte) => *byte ^= 1,
            None => return Err(Trouble::Line("no such byte")),
        }
        Ok(())
    }

    fn ask(&mut self, question: &str, wanted: &str) -> Result<(), Trouble> {
        let got = answer(self.alloc, &self.medium, question, wanted)?;
        if are_alike(&got, wanted) {
            return Ok(());
        }
        Err(Trouble::Differs(got))
    }
}

/// Whether two texts have the same words.
fn are_alike(one: &str, other: &str) -> bool {
    let mut told = one.split_whitespace();
    for wanted in other.split_whitespace() {
        match told.next() {
            Some(word) if word == wanted => {}
            _ => return false,
        }
    }
    told.next().is_none()
}

/// Appends zeros up to the end of the block.
fn fill_block(into: &mut Vec<u8>) -> Result<(), Trouble> {
    let over = into.len() % BLOCK;
    if over > 0 {
        let size = into.len().saturating_add(BLOCK - over);
        into.resize(size, 0)?;
    }
    Ok(())
}
