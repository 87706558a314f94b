//! The lines of a file.

use std::alloc::{AllocError, Global};

/// A line with its continuation lines, and the number of the first in the file, counted from 1.
#[derive(Drop)]
pub struct Line {
    pub number: usize,
    pub text: String,
}

/// The lines of a file, without empty lines, and without comments, which begin with `#`. A line that ends with `\`
/// continues on the next.
pub fn read_lines(alloc: Global, text: &str) -> Result<Vec<Line>, AllocError> {
    let mut lines: Vec<Line> = Vec::new(alloc);
    let mut goes_on = false;
    let mut number = 0usize;
    for line in text.lines() {
        number = number.saturating_add(1);
        let line = line.trim();
        if line.starts_with('#') {
            continue;
        }
        let (line, more) = match line.strip_suffix("\\") {
            Some(front) => (front, true),
            None => (line, false),
        };
        match lines.last_mut() {
            Some(last) if goes_on => last.text.push_str(line)?,
            _ if line.is_empty() => {}
            _ => lines.push(Line {
                number,
                text: String::from_str(alloc, line)?,
            })?,
        }
        goes_on = more;
    }
    Ok(lines)
}
