//! One case of the table.

use crate::expansions::{expand, expand_into};
use crate::problems::Problem;
use std::alloc::Global;

/// A case: a call, its options and its text.
#[derive(Drop)]
pub struct Case {
    pub call: Vec<u8>,
    pub options: Vec<Vec<u8>>,
    pub text: Vec<u8>,
}

impl Case {
    /// The case of its first line, `CALL OPTION..: TEXT`.
    pub fn read(alloc: Global, line: &[u8]) -> Result<Case, Problem> {
        let Some(colon) = line.iter().position(|byte| *byte == b':') else {
            return Err(Problem::Bad("a line of a case has a colon"));
        };
        let mut words = line[..colon].split(|byte| *byte == b' ');
        let call = match words.next() {
            Some(word) => expand(alloc, word)?,
            None => Vec::new(alloc),
        };
        let mut options = Vec::new(alloc);
        for word in words {
            options.push(expand(alloc, word)?)?;
        }
        let text = expand(alloc, without_space(&line[colon + 1..]))?;
        Ok(Case {
            call,
            options,
            text,
        })
    }

    /// Adds a further line to the text, and a line feed behind it.
    pub fn add_line(&mut self, line: &[u8]) -> Result<(), Problem> {
        expand_into(without_space(line), &mut self.text)?;
        self.text.push(b'\n')?;
        Ok(())
    }

    /// The first option and the others; where there is none, the problem says this.
    pub fn first_option(&self, missing: &'static str) -> Result<(&[u8], &[Vec<u8>]), Problem> {
        match self.options.as_slice() {
            [first, others @ ..] => Ok((first.as_slice(), others)),
            [] => Err(Problem::Bad(missing)),
        }
    }

    /// The only option, or nothing where there is none.
    pub fn option(&self) -> Result<&[u8], Problem> {
        match self.options.as_slice() {
            [] => Ok(b""),
            [option] => Ok(option.as_slice()),
            _ => Err(Problem::Bad("the call has too many options")),
        }
    }
}

// The bytes behind the one space at the front.
fn without_space(bytes: &[u8]) -> &[u8] {
    match bytes {
        [b' ', rest @ ..] => rest,
        _ => bytes,
    }
}
