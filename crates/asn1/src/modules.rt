//! The texts of modules, joined.

use crate::stop::Stop;
use asn1_defaults::DefaultError;
use asn1_notation::{NotationError, Problem, Report};
use asn1_resolve::{MAX_PROBLEMS, Schema, SchemaError, problems_of};
use std::alloc::{AllocError, Global};

/// A file of modules.
#[derive(Clone, Copy, Debug)]
struct File<'a> {
    /// Its name.
    name: &'a str,
    /// The index of its first octet in the joined text.
    from: usize,
}

/// The texts of files, one after another, each followed by the end of a line.
#[derive(Drop)]
pub struct Modules<'a> {
    alloc: Global,
    text: String,
    files: Vec<File<'a>>,
}

impl<'a> Modules<'a> {
    /// Makes an empty text.
    pub fn new(alloc: Global) -> Modules<'a> {
        Modules {
            alloc,
            text: String::new(alloc),
            files: Vec::new(alloc),
        }
    }

    /// Appends the text of a file.
    ///
    /// # Errors
    ///
    /// Returns an error if out of memory.
    pub fn add(&mut self, name: &'a str, text: &str) -> Result<(), AllocError> {
        let from = self.text.len();
        self.files.push(File { name, from })?;
        self.text.push_str(text)?;
        self.text.push('\n')
    }

    /// Returns the joined text.
    pub fn text(&self) -> &str {
        self.text.as_str()
    }

    /// Returns the file that has an octet of the joined text, and the index of the octet after the
    /// file's last.
    fn file_at(&self, at: usize) -> (File<'a>, usize) {
        let mut found = File { name: "", from: 0 };
        let mut end = self.text.len();
        for file in self.files.as_slice() {
            if file.from > at {
                end = file.from;
                break;
            }
            found = *file;
        }
        (found, end)
    }

    /// Returns the report of an error, with the name of the file that it is in.
    ///
    /// # Errors
    ///
    /// Returns an error if out of memory.
    pub fn report(&self, error: NotationError) -> Result<String, AllocError> {
        let (file, end) = self.file_at(error.at);
        let text = self.text.as_str().get(file.from..end).unwrap_or("");
        let local = NotationError {
            problem: error.problem,
            at: error.at.saturating_sub(file.from),
        };
        let name = file.name;
        format!(in self.alloc; "{name}:{}", Report::new(text, local))
    }

    /// Makes the schema of the modules.
    ///
    /// # Errors
    ///
    /// Returns the reports of the problems.
    pub fn schema(&self) -> Result<Schema, Stop> {
        match Schema::parse(self.alloc, self.text.as_str()) {
            Ok(schema) => Ok(schema),
            Err(SchemaError::Notation(_)) => Err(Stop::call(self.reports())),
            Err(SchemaError::Memory) => Err(Stop::Memory),
        }
    }

    /// Returns the reports of the problems, one after another.
    fn reports(&self) -> Result<String, AllocError> {
        let problems = problems_of(self.alloc, self.text.as_str())?;
        let mut text = String::new(self.alloc);
        for problem in problems.as_slice() {
            if !text.is_empty() {
                text.push('\n')?;
            }
            let report = self.report(*problem)?;
            text.push_str(report.as_str())?;
        }
        if MAX_PROBLEMS <= problems.len() {
            text.push_str("\nthe problems after these are not shown")?;
        }
        Ok(text)
    }

    /// Returns why default values have no encodings.
    pub fn of_default(&self, error: DefaultError) -> Stop {
        match error {
            DefaultError::Unsupported { at, kind } => Stop::call(self.report(NotationError {
                problem: Problem::Unsupported(kind),
                at,
            })),
            DefaultError::Memory => Stop::Memory,
        }
    }
}
