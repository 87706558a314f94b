//! The lines of a script.

use crate::trouble::Trouble;
use std::alloc::{AllocError, Global};
use words::{Line, read_lines};

/// The lines of a script, without empty lines and comments.
#[derive(Drop)]
pub struct Script {
    lines: Vec<Line>,
}

impl Script {
    /// Reads a script.
    pub fn read(alloc: Global, text: &str) -> Result<Script, AllocError> {
        Ok(Script {
            lines: read_lines(alloc, text)?,
        })
    }

    /// The lines.
    pub fn lines(&self) -> &[Line] {
        &self.lines
    }

    /// The name of the scenario that begins with a line, if one does.
    pub fn scenario_at(&self, index: usize) -> Option<&str> {
        self.lines.get(index)?.text.strip_prefix("scenario ")
    }

    /// The line after the scenario that begins with a line.
    pub fn end_of_scenario(&self, index: usize) -> usize {
        let mut next = index.saturating_add(1);
        for at in next..self.lines.len() {
            if self.scenario_at(at).is_some() {
                return at;
            }
            next = at.saturating_add(1);
        }
        next
    }

    /// The `end` of the block that begins with a line.
    pub fn end_of_block(&self, index: usize) -> Result<usize, Trouble> {
        let mut open = 0usize;
        for at in index..self.lines.len() {
            let text = self.lines[at].text.as_str();
            if text.starts_with("each ") || text.starts_with("define ") {
                open = open.saturating_add(1);
            } else if text == "end" {
                open = open.saturating_sub(1);
                if open == 0 {
                    return Ok(at);
                }
            }
        }
        Err(Trouble::Line("a block without end"))
    }

    /// The line that defines a step, and the names of its words.
    pub fn definition(&self, name: &str) -> Option<(usize, &str)> {
        for at in 0..self.lines.len() {
            let Some(words) = self.lines[at].text.strip_prefix("define ") else {
                continue;
            };
            let (defined, names) = words.split_once(" ").unwrap_or((words, ""));
            if defined == name {
                return Some((at, names));
            }
        }
        None
    }
}
