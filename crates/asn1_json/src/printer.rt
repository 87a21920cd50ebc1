//! What prints a value.

ghost use Rattle.std.specs.Str.{IsUtf8};

use crate::hexadecimal::hex_in;
use crate::identifiers::append_short_dotted;
use crate::notation::Notation;
use crate::opens::Contents;
use crate::print::PrintError;
use asn1_resolve::Schema;
use asn1_schema::{Member, Node, Part};
use json::{Pretty, Token, is_number};
use std::alloc::Global;
use std::str;

/// A message that is printed.
#[derive(Drop)]
pub(crate) struct Printer<'a> {
    pub(crate) alloc: Global,
    pub(crate) schema: &'a Schema,
    pub(crate) message: &'a [u8],
    pub(crate) parts: &'a [Part],
    /// The contents of open types, and those whose parts these are: 0 for the message.
    contents: &'a [Contents],
    pub(crate) inside: usize,
    out: Pretty,
    /// The value notation, if that is printed and not JSON.
    notation: Option<Notation>,
    /// Room for hexadecimal digits.
    digits: Vec<u8>,
    /// Room for the arcs of an identifier.
    arcs: Vec<u8>,
}

/// The name of the member that has the contents of an open type.
pub(crate) const CONTAINING: &str = "containing";

/// The error of parts that are no value of the type.
pub(crate) const NO_VALUE: PrintError = PrintError::NoValue;

impl<'a> Printer<'a> {
    pub(crate) fn new(
        alloc: Global,
        schema: &'a Schema,
        message: &'a [u8],
        parts: &'a [Part],
        contents: &'a [Contents],
    ) -> Printer<'a> {
        Printer {
            alloc,
            schema,
            message,
            parts,
            contents,
            inside: 0,
            out: Pretty::new(alloc),
            notation: None,
            digits: Vec::new(alloc),
            arcs: Vec::new(alloc),
        }
    }

    /// Returns the printer for the value notation.
    pub(crate) fn in_notation(self) -> Printer<'a> {
        let notation = Some(Notation::new(self.alloc));
        Printer { notation, ..self }
    }

    /// Returns the text of JSON.
    pub(crate) fn into_octets(self) -> Vec<u8>
        ensures { IsUtf8 result.items }
    {
        let Printer { out, .. } = self;
        out.into_inner()
    }

    /// Returns the text of the value notation. It is empty if JSON is printed.
    pub(crate) fn into_text(self) -> String {
        let Printer {
            notation,
            alloc,
            ..
        } = self;
        match notation {
            Some(notation) => notation.into_text(),
            None => String::new(alloc),
        }
    }

    /// Returns what writes the value notation. `None` if JSON is printed.
    pub(crate) fn notation(&mut self) -> Option<&mut Notation> {
        self.notation.as_mut()
    }

    /// Returns the contents of the open type at a part, and their index. `None` if the part is of another
    /// type, or the contents are not decoded.
    pub(crate) fn contents_at(&self, at: usize) -> Option<(usize, &'a Contents)> {
        if self.contents.is_empty() {
            return None;
        }
        let inside = self.inside;
        let contents = self.contents;
        let key = (inside, at);
        let index = contents.binary_search_by_key(&key, |row| (row.inside, row.value.part));
        let index = index.ok()?;
        Some((index, contents.get(index)?))
    }

    /// Returns the part at an index.
    pub(crate) fn part(&self, at: usize) -> Result<Part, PrintError> {
        self.parts.get(at).copied().ok_or(NO_VALUE)
    }

    /// Returns the type at a node.
    pub(crate) fn node(&self, node: usize) -> Result<Node, PrintError> {
        self.schema
            .tables()
            .nodes
            .get(node)
            .copied()
            .ok_or(NO_VALUE)
    }

    /// Returns the member in a row.
    pub(crate) fn member(&self, row: usize) -> Result<Member, PrintError> {
        self.schema
            .tables()
            .members
            .get(row)
            .copied()
            .ok_or(NO_VALUE)
    }

    /// Prints the name of a component as a key, and returns whether it has one. An addition group has none.
    pub(crate) fn member_key(&mut self, row: usize) -> Result<bool, PrintError> {
        let name = self.schema.names().of_member(row).unwrap_or(&[]);
        if name.is_empty() {
            return Ok(false);
        }
        self.key(str::from_utf8(name).map_err(|_| NO_VALUE)?)?;
        Ok(true)
    }

    /// Prints the name of a component.
    pub(crate) fn key(&mut self, name: &str) -> Result<(), PrintError> {
        if let Some(out) = self.notation() {
            out.begin_item()?;
            out.push(name)?;
            out.push(" ")?;
            return Ok(());
        }
        self.out.token(Token::Key(name))?;
        Ok(())
    }

    pub(crate) fn begin_object(&mut self) -> Result<(), PrintError> {
        if let Some(out) = self.notation() {
            out.open()?;
            return Ok(());
        }
        self.out.token(Token::BeginObject)?;
        Ok(())
    }

    pub(crate) fn end_object(&mut self) -> Result<(), PrintError> {
        if let Some(out) = self.notation() {
            out.close()?;
            return Ok(());
        }
        self.out.token(Token::EndObject)?;
        Ok(())
    }

    /// Prints what precedes the value of an alternative.
    pub(crate) fn begin_alternative(&mut self, name: &str) -> Result<(), PrintError> {
        if let Some(out) = self.notation() {
            out.push(name)?;
            out.push(" : ")?;
            return Ok(());
        }
        self.out.token(Token::BeginObject)?;
        self.out.token(Token::Key(name))?;
        Ok(())
    }

    /// Prints what precedes the value of an alternative in a row.
    pub(crate) fn begin_member(&mut self, row: usize) -> Result<(), PrintError> {
        let name = self.schema.names().of_member(row).ok_or(NO_VALUE)?;
        let name = str::from_utf8(name).map_err(|_| NO_VALUE)?;
        self.begin_alternative(name)
    }

    /// Prints what follows the value of an alternative.
    pub(crate) fn end_alternative(&mut self) -> Result<(), PrintError> {
        if self.notation.is_none() {
            self.out.token(Token::EndObject)?;
        }
        Ok(())
    }

    /// Prints what precedes the contents of an open type (X.681 14.6), or of an OCTET STRING with
    /// CONTAINING (X.680 23.3), whose type is at a node.
    pub(crate) fn begin_contents(
        &mut self,
        node: usize,
        is_containing: bool,
    ) -> Result<(), PrintError> {
        let name = self.schema.names().of_node(node).unwrap_or(&[]);
        let name = str::from_utf8(name).unwrap_or("");
        if let Some(out) = self.notation() {
            if is_containing {
                out.push("CONTAINING ")?;
            } else if !name.is_empty() {
                out.push(name)?;
                out.push(" : ")?;
            }
            return Ok(());
        }
        self.out.token(Token::BeginObject)?;
        self.out.token(Token::Key(CONTAINING))?;
        Ok(())
    }

    pub(crate) fn begin_array(&mut self) -> Result<(), PrintError> {
        if let Some(out) = self.notation() {
            out.open()?;
            return Ok(());
        }
        self.out.token(Token::BeginArray)?;
        Ok(())
    }

    /// Prints what precedes an item.
    pub(crate) fn begin_item(&mut self) -> Result<(), PrintError> {
        if let Some(out) = self.notation() {
            out.begin_item()?;
        }
        Ok(())
    }

    pub(crate) fn end_array(&mut self) -> Result<(), PrintError> {
        if let Some(out) = self.notation() {
            out.close()?;
            return Ok(());
        }
        self.out.token(Token::EndArray)?;
        Ok(())
    }

    pub(crate) fn null(&mut self) -> Result<(), PrintError> {
        if let Some(out) = self.notation() {
            out.push("NULL")?;
            return Ok(());
        }
        self.out.token(Token::Null)?;
        Ok(())
    }

    pub(crate) fn truth(&mut self, truth: bool) -> Result<(), PrintError> {
        if let Some(out) = self.notation() {
            out.push(if truth { "TRUE" } else { "FALSE" })?;
            return Ok(());
        }
        self.out.token(Token::Bool(truth))?;
        Ok(())
    }

    /// Prints a string of characters.
    pub(crate) fn string(&mut self, text: &str) -> Result<(), PrintError> {
        if let Some(out) = self.notation() {
            out.quote(text)?;
            return Ok(());
        }
        self.out.token(Token::String(text))?;
        Ok(())
    }

    /// Prints the name of a value of an ENUMERATED.
    pub(crate) fn word(&mut self, text: &str) -> Result<(), PrintError> {
        if let Some(out) = self.notation() {
            out.push(text)?;
            return Ok(());
        }
        self.out.token(Token::String(text))?;
        Ok(())
    }

    /// Prints octets as hexadecimal digits.
    pub(crate) fn hex(&mut self, octets: &[u8]) -> Result<(), PrintError> {
        let digits = hex_in(octets, &mut self.digits)?;
        let text = str::from_utf8(digits).map_err(|_| NO_VALUE)?;
        if let Some(out) = &mut self.notation {
            out.push("'")?;
            out.push(text)?;
            out.push("'H")?;
            return Ok(());
        }
        self.out.token(Token::String(text))?;
        Ok(())
    }

    /// Prints an OBJECT IDENTIFIER by its contents octets, if each subidentifier has at most four. Returns whether it is
    /// printed.
    pub(crate) fn short_identifier(&mut self, contents: &[u8]) -> Result<bool, PrintError> {
        self.arcs.clear();
        if !append_short_dotted(contents, &mut self.arcs)? {
            return Ok(false);
        }
        let text = str::from_utf8(self.arcs.as_slice()).map_err(|_| NO_VALUE)?;
        match &mut self.notation {
            Some(out) => out.arcs(text)?,
            None => self.out.token(Token::String(text))?,
        }
        Ok(true)
    }

    /// Prints an identifier, whose arcs full stops join.
    pub(crate) fn identifier(&mut self, text: &str) -> Result<(), PrintError> {
        if let Some(out) = self.notation() {
            out.arcs(text)?;
            return Ok(());
        }
        self.out.token(Token::String(text))?;
        Ok(())
    }

    /// Prints a whole number in decimal.
    pub(crate) fn number(&mut self, text: &str) -> Result<(), PrintError> {
        if !is_number(text) {
            return Err(NO_VALUE);
        }
        if let Some(out) = self.notation() {
            out.push(text)?;
            return Ok(());
        }
        self.out.token(Token::Number(text))?;
        Ok(())
    }
}
