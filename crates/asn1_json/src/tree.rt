//! JSON as a list of items.

use json::{Reader, Scratch, Token};
use std::alloc::{AllocError, AllocFailed, Global};
use thiserror::Error;

/// What an item is.
#[derive(Clone, Copy, Debug)]
pub enum Kind<'t> {
    /// An object: its keys follow, each with its value after it.
    Object,
    /// An array: its items follow.
    Array,
    /// A key of an object.
    Key(&'t str),
    /// A string.
    Text(&'t str),
    /// A number, as it is written.
    Number(&'t str),
    /// `true` or `false`.
    Truth(bool),
    /// `null`.
    Null,
}

/// An item of a text.
#[derive(Clone, Copy, Debug)]
pub struct Item<'t> {
    /// What it is.
    pub kind: Kind<'t>,
    /// The index of its first octet in the text.
    pub at: usize,
    /// The index of the item after it and all that is inside it. A key ends with its value.
    pub end: usize,
}

/// Why a text is no JSON value.
#[derive(Clone, Copy, Debug, PartialEq, Eq, Drop, Error)]
pub enum TreeError {
    /// The octet at this index begins nothing that JSON permits there.
    #[error("invalid JSON")]
    Invalid(usize),
    /// Out of memory.
    #[error("out of memory")]
    Memory,
}

impl From<AllocError> for TreeError {
    fn from(_error: AllocError) -> TreeError {
        TreeError::Memory
    }
}

impl<T: Drop> From<AllocFailed<T>> for TreeError {
    fn from(_error: AllocFailed<T>) -> TreeError {
        TreeError::Memory
    }
}

/// A JSON value: an item, followed by those inside it.
#[derive(Drop)]
pub struct Tree<'t> {
    items: Vec<Item<'t>>,
    /// The objects, arrays and keys that have not ended.
    open: Vec<usize>,
}

impl<'t> Tree<'t> {
    /// Reads a text that is one JSON value (RFC 8259). `scratch` receives the strings that have
    /// escapes.
    ///
    /// # Errors
    ///
    /// Returns [`TreeError::Invalid`] with the index of the first octet that JSON does not permit,
    /// or [`TreeError::Memory`] if out of memory.
    pub fn parse(
        alloc: Global,
        text: &'t str,
        scratch: &'t mut Scratch,
    ) -> Result<Tree<'t>, TreeError> {
        let mut tree = Tree {
            items: Vec::new(alloc),
            open: Vec::new(alloc),
        };
        let mut reader = Reader::new(text, scratch)?;
        for _ in 0..u64::MAX {
            let at = reader.offset();
            match reader.next() {
                Some(token) => tree.take(token, at)?,
                None => break,
            }
        }
        if tree.items.is_empty() || !tree.open.is_empty() {
            return Err(TreeError::Invalid(text.len()));
        }
        Ok(tree)
    }

    /// Returns the item at an index. `None` if there is none.
    pub fn item(&self, index: usize) -> Option<Item<'t>> {
        self.items.as_slice().get(index).copied()
    }

    /// Returns how many items there are.
    pub fn len(&self) -> usize {
        self.items.len()
    }

    /// Returns what the last item is that has not ended.
    fn inside(&self) -> Option<Kind<'t>> {
        let last = self.open.as_slice().last()?;
        Some(self.item(*last)?.kind)
    }

    fn take(&mut self, token: Token<'t>, at: usize) -> Result<(), TreeError> {
        match token {
            Token::Bad => Err(TreeError::Invalid(at)),
            Token::BeginObject => self.begin(Kind::Object, at),
            Token::BeginArray => self.begin(Kind::Array, at),
            Token::EndObject => self.end(true, at),
            Token::EndArray => self.end(false, at),
            Token::Key(name) => self.key(name, at),
            Token::String(text) => self.leaf(Kind::Text(text), at),
            Token::Number(text) => self.leaf(Kind::Number(text), at),
            Token::Bool(truth) => self.leaf(Kind::Truth(truth), at),
            Token::Null => self.leaf(Kind::Null, at),
        }
    }

    /// Returns an error if no value may begin here.
    fn check_value(&self, at: usize) -> Result<(), TreeError> {
        let is_permitted = match self.inside() {
            None => self.items.is_empty(),
            Some(Kind::Array | Kind::Key(_)) => true,
            Some(_) => false,
        };
        if is_permitted {
            return Ok(());
        }
        Err(TreeError::Invalid(at))
    }

    fn push(&mut self, kind: Kind<'t>, at: usize) -> Result<usize, TreeError> {
        let index = self.items.len();
        let end = index.saturating_add(1);
        self.items.push(Item { kind, at, end })?;
        Ok(index)
    }

    fn begin(&mut self, kind: Kind<'t>, at: usize) -> Result<(), TreeError> {
        self.check_value(at)?;
        let index = self.push(kind, at)?;
        self.open.push(index)?;
        Ok(())
    }

    fn leaf(&mut self, kind: Kind<'t>, at: usize) -> Result<(), TreeError> {
        self.check_value(at)?;
        self.push(kind, at)?;
        self.end_key();
        Ok(())
    }

    fn key(&mut self, name: &'t str, at: usize) -> Result<(), TreeError> {
        let Some(Kind::Object) = self.inside() else {
            return Err(TreeError::Invalid(at));
        };
        let index = self.push(Kind::Key(name), at)?;
        self.open.push(index)?;
        Ok(())
    }

    /// Ends the last item that has not ended.
    fn end_last(&mut self) {
        let end = self.items.len();
        if let Some(index) = self.open.pop()
            && let Some(item) = self.items.as_mut_slice().get_mut(index)
        {
            item.end = end;
        }
    }

    /// Ends a key, where its value has ended.
    fn end_key(&mut self) {
        if let Some(Kind::Key(_)) = self.inside() {
            self.end_last();
        }
    }

    fn end(&mut self, is_object: bool, at: usize) -> Result<(), TreeError> {
        match self.inside() {
            Some(Kind::Object) if is_object => {}
            Some(Kind::Array) if !is_object => {}
            _ => return Err(TreeError::Invalid(at)),
        }
        self.end_last();
        self.end_key();
        Ok(())
    }
}
