//! The value notation of X.680, as it is written.

use std::alloc::{AllocError, Global};

/// How many spaces a level is indented by.
const INDENT: usize = 2;

/// A text of values in braces, with a line for each of them.
#[derive(Drop)]
pub(crate) struct Notation {
    text: String,
    level: usize,
    /// Whether nothing is in the braces that were opened last.
    is_empty: bool,
}

impl Notation {
    /// Begins without values.
    pub(crate) fn new(alloc: Global) -> Notation {
        Notation {
            text: String::new(alloc),
            level: 0,
            is_empty: true,
        }
    }

    /// Returns the text.
    pub(crate) fn into_text(self) -> String {
        let Notation { text, .. } = self;
        text
    }

    /// Appends text as it is.
    pub(crate) fn push(&mut self, text: &str) -> Result<(), AllocError> {
        self.text.push_str(text)
    }

    /// Appends the end of a line, and the spaces before the next one.
    fn end_line(&mut self) -> Result<(), AllocError> {
        self.text.push('\n')?;
        for _ in 0..self.level.saturating_mul(INDENT) {
            self.text.push(' ')?;
        }
        Ok(())
    }

    /// Opens braces.
    pub(crate) fn open(&mut self) -> Result<(), AllocError> {
        self.text.push('{')?;
        self.level = self.level.saturating_add(1);
        self.is_empty = true;
        Ok(())
    }

    /// Begins what is in braces, after a comma if something precedes it there.
    pub(crate) fn begin_item(&mut self) -> Result<(), AllocError> {
        if !self.is_empty {
            self.text.push(',')?;
        }
        self.is_empty = false;
        self.end_line()
    }

    /// Begins a line with a comment.
    pub(crate) fn comment(&mut self, words: &str) -> Result<(), AllocError> {
        self.end_line()?;
        self.text.push_str("-- ")?;
        self.text.push_str(words)?;
        self.text.push_str(" --")
    }

    /// Closes braces.
    pub(crate) fn close(&mut self) -> Result<(), AllocError> {
        self.level = self.level.saturating_sub(1);
        if !self.is_empty {
            self.end_line()?;
        }
        self.is_empty = false;
        self.text.push('}')
    }

    /// Appends a string of characters in quotes, in which a quote is two (X.680 12.14).
    pub(crate) fn quote(&mut self, characters: &str) -> Result<(), AllocError> {
        self.text.push('"')?;
        for character in characters.chars() {
            if character == '"' {
                self.text.push('"')?;
            }
            self.text.push(character)?;
        }
        self.text.push('"')
    }

    /// Appends the arcs of an identifier, which full stops join, in braces.
    pub(crate) fn arcs(&mut self, dotted: &str) -> Result<(), AllocError> {
        self.text.push_str("{ ")?;
        for character in dotted.chars() {
            self.text
                .push(if character == '.' { ' ' } else { character })?;
        }
        self.text.push_str(" }")
    }

    /// Appends `count` bits of octets as a string in single quotes.
    pub(crate) fn bits(&mut self, octets: &[u8], count: usize) -> Result<(), AllocError> {
        self.text.push('\'')?;
        for index in 0..count {
            let octet = octets.get(index / 8).copied().unwrap_or(0);
            let bit = (octet >> (7 - index % 8)) & 1;
            self.text.push(if bit == 1 { '1' } else { '0' })?;
        }
        self.text.push_str("'B")
    }
}
