//! From JSON to octets.

use crate::codec::Target;
use crate::encode::{EncodeError, Encoder};
use crate::places::line_and_column;
use crate::reasons::{Reason, is_long};
use crate::stop::Stop;
use asn1_json::{Draft, JsonProblem, Tree, TreeError, parse_value_at, path_of};
use json::Scratch;
use std::alloc::{AllocError, Global};
use std::{fmt, str};

/// How deep open types may be nested in the contents of others.
const MAX_OPEN: usize = 50;

/// A text of JSON and its items.
#[derive(Clone, Copy)]
struct Json<'a, 't> {
    /// The allocator.
    alloc: Global,
    /// The name of the input.
    name: &'a str,
    /// The text.
    text: &'a str,
    /// Its items.
    tree: &'a Tree<'t>,
}

impl<'a, 't> Json<'a, 't> {
    /// Returns an error at an item: its line and column, the path to it, and the problem.
    fn error_at<P: fmt::Display + Drop>(&self, item: usize, problem: P) -> Stop {
        Stop::input(self.words_at(item, problem))
    }

    /// Returns the words of an error at an item.
    fn words_at<P: fmt::Display + Drop>(
        &self,
        item: usize,
        problem: P,
    ) -> Result<String, AllocError> {
        let at = self.tree.item(item).map_or(0, |found| found.at);
        let path = path_of(self.alloc, self.tree, item)?;
        let (line, column) = line_and_column(self.text.as_bytes(), at);
        let name = self.name;
        format!(in self.alloc; "{name}:{line}:{column}: {path}: {problem}")
    }

    /// Makes the parts of the value of an item.
    ///
    /// # Errors
    ///
    /// Returns the first item that does not fit the type.
    fn draft(&self, encoder: &Encoder<'_>, item: usize) -> Result<Draft, Stop> {
        let target = encoder.target;
        match parse_value_at(
            self.alloc,
            encoder.schema,
            self.tree,
            target.depth,
            target.node,
            item,
        ) {
            Ok(draft) => Ok(draft),
            Err(error) if error.problem == JsonProblem::Memory => Err(Stop::Memory),
            Err(error) => Err(self.error_at(error.item, error.problem)),
        }
    }

    /// Encodes the value.
    ///
    /// # Errors
    ///
    /// Returns the first item that does not fit the type.
    fn encode(&self, encoder: &Encoder<'_>) -> Result<Vec<u8>, Stop> {
        self.encode_item(encoder, 0, MAX_OPEN)
    }

    /// Encodes the value of an item. Open types may be nested less deep than `depth`.
    ///
    /// # Errors
    ///
    /// Returns the first item that does not fit the type.
    fn encode_item(
        &self,
        encoder: &Encoder<'_>,
        item: usize,
        depth: usize,
    ) -> Result<Vec<u8>, Stop> {
        if depth == 0 {
            return Err(self.error_at(item, JsonProblem::TooDeep));
        }
        let mut draft = self.draft(encoder, item)?;
        let pending = Vec::from_slice(self.alloc, draft.pending())?;
        for open in pending.as_slice() {
            let inner = Encoder {
                target: Target {
                    node: open.node,
                    ..encoder.target
                },
                ..*encoder
            };
            let octets = self.encode_item(&inner, open.item, depth - 1)?;
            draft.set_octets(open.part, octets.as_slice())?;
        }
        match encoder.encode(&mut draft) {
            Ok(octets) => Ok(octets),
            Err(EncodeError::Memory) => Err(Stop::Memory),
            Err(EncodeError::Misfit(misfit)) => {
                let part = draft.parts().get(misfit.part).copied();
                let reason = Reason {
                    rejection: misfit.reason,
                    is_long: part.is_some_and(is_long),
                };
                Err(self.error_at(draft.item_of(misfit.part), reason))
            }
        }
    }
}

/// Encodes the value that an input has as JSON.
///
/// # Errors
///
/// Returns the first problem, with its line and column and the path to the value.
pub fn encode_json<'x>(
    encoder: &Encoder<'_>,
    name: &'x str,
    input: &'x [u8],
) -> Result<Vec<u8>, Stop> {
    let alloc = encoder.alloc;
    let text = match str::from_utf8(input) {
        Ok(text) => text,
        Err(error) => {
            let (line, column) = line_and_column(input, error.valid_up_to());
            let text = format!(in alloc; "{name}:{line}:{column}: the text is not UTF-8");
            return Err(Stop::input(text));
        }
    };
    let mut scratch = Scratch::new(alloc);
    let tree = match Tree::parse(alloc, text, &mut scratch) {
        Ok(tree) => tree,
        Err(TreeError::Memory) => return Err(Stop::Memory),
        Err(TreeError::Invalid(at)) => {
            let (line, column) = line_and_column(input, at);
            let text = format!(in alloc; "{name}:{line}:{column}: invalid JSON");
            return Err(Stop::input(text));
        }
    };
    let json = Json {
        alloc,
        name,
        text,
        tree: &tree,
    };
    json.encode(encoder)
}
