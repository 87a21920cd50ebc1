//! An error with the line of the text that it is in.

use crate::error::{NotationError, Problem};
use crate::lexer::next_token;
use crate::token::TokenKind;
use std::fmt;

/// An error and the text that it is in. Its `Display` writes the line and the column, the problem, and
/// the line with a caret under the octet:
///
/// ```text
/// 4:17: expected `,` or `}`, found `OPTIONNAL`
///     two BOOLEAN OPTIONNAL,
///                 ^
/// ```
#[derive(Clone, Copy, Debug)]
pub struct Report<'a> {
    text: &'a str,
    error: NotationError,
}

impl<'a> Report<'a> {
    /// Returns the report of an error in a text.
    pub fn new(text: &'a str, error: NotationError) -> Report<'a> {
        Report { text, error }
    }

    /// Returns the index of the first octet of the error's line.
    fn line_start(&self) -> usize {
        match self.before().rfind('\n') {
            Some(last) => last.saturating_add(1),
            None => 0,
        }
    }

    /// Returns the text before the error.
    fn before(&self) -> &'a str {
        self.text.get(..self.error.at).unwrap_or(self.text)
    }

    /// Returns the number of the line, from 1 on.
    pub fn line(&self) -> usize {
        let mut line = 1usize;
        for octet in self.before().as_bytes() {
            if *octet == b'\n' {
                line = line.saturating_add(1);
            }
        }
        line
    }

    /// Returns the number of the column, in characters, from 1 on.
    pub fn column(&self) -> usize {
        self.indent().chars().count().saturating_add(1)
    }

    /// Returns the text of the line before the error.
    fn indent(&self) -> &'a str {
        self.before().get(self.line_start()..).unwrap_or("")
    }

    /// Returns the line, without its end.
    pub fn source(&self) -> &'a str {
        let rest = self.text.get(self.line_start()..).unwrap_or("");
        match rest.find(['\n', '\r']) {
            Some(end) => rest.get(..end).unwrap_or(""),
            None => rest,
        }
    }

    /// Returns the text of the item at the error. `None` at the end of the text.
    pub fn found(&self) -> Option<&'a str> {
        let token = next_token(self.text.as_bytes(), self.error.at);
        match token.kind {
            TokenKind::End => None,
            _ => self.text.get(token.at..token.end),
        }
    }
}

impl<'a> fmt::Display for Report<'a> {
    fn fmt<W: fmt::Write>(&self, f: &mut fmt::Formatter<W>) -> fmt::Result {
        let problem = self.error.problem;
        write!(f, "{}:{}: {problem}", self.line(), self.column())?;
        if let Problem::Expected(_) = problem {
            match self.found() {
                Some(found) => write!(f, ", found `{found}`")?,
                None => write!(f, ", found the end of the text")?,
            }
        }
        write!(f, "\n{}\n", self.source())?;
        for character in self.indent().chars() {
            write!(f, "{}", if character == '\t' { '\t' } else { ' ' })?;
        }
        write!(f, "^")
    }
}
