//! Values of one part.

use crate::governed::{Governed, Types};
use crate::strings::{bits_of_digits, characters_of};
use crate::values::Values;
use asn1_definitions::Place;
use asn1_notation::{Item, Word};
use asn1_schema::{Characters, Codes, Node, Part, Span};
use std::alloc::AllocError;

impl Values {
    /// Returns the part of a value of one part. `None` if it is not read, or is none of its type.
    pub(crate) fn leaf(
        &mut self,
        types: Types<'_>,
        governed: Governed,
        node: Node,
    ) -> Result<Option<Part>, AllocError> {
        let entry = types.scope.entry(governed.value.index);
        match node {
            Node::Null if entry.word == Some(Word::Null) => Ok(Some(Part::Null)),
            Node::Boolean if entry.word == Some(Word::True) => Ok(Some(Part::Truth(true))),
            Node::Boolean if entry.word == Some(Word::False) => Ok(Some(Part::Truth(false))),
            Node::Integer | Node::IntegerAtLeast { .. } | Node::IntegerBetween { .. } => {
                let number = types.number(governed.of, governed.value);
                Ok(number.map(Part::Integer))
            }
            Node::Enumerated { .. } => {
                let index = types.enumeral(governed.node, governed.value);
                Ok(index.map(Part::Enumerated))
            }
            Node::Real => self.real(types, governed),
            Node::BitString { .. } => self.bit_string(types, governed),
            Node::OctetString { .. } => self.octet_string(types, governed),
            Node::ObjectIdentifier if entry.item == Item::Braces => {
                match types.identifier(self.alloc, governed.value)? {
                    None => Ok(None),
                    Some(contents) => Ok(Some(Part::Octets(self.add_octets(contents.as_slice())?))),
                }
            }
            Node::RelativeIdentifier if entry.item == Item::Braces => {
                match types.relative_identifier(self.alloc, governed.value)? {
                    None => Ok(None),
                    Some(contents) => Ok(Some(Part::Octets(self.add_octets(contents.as_slice())?))),
                }
            }
            Node::Text { .. } | Node::Utf8String if entry.item == Item::Braces => {
                match types.listed_characters(self.alloc, governed.value)? {
                    None => Ok(None),
                    Some(characters) => self.text(characters.as_str(), node),
                }
            }
            Node::Text { .. } | Node::Utf8String | Node::Time { .. } if entry.item == Item::Text =>
                {
                    match characters_of(self.alloc, types.scope.text_of(entry))? {
                        None => Ok(None),
                        Some(characters) => self.text(characters.as_str(), node),
                    }
                }
            _ => Ok(None),
        }
    }

    /// Returns the bits that a binary or hexadecimal string is.
    fn digits(
        &self,
        types: Types<'_>,
        value: Place,
    ) -> Result<Option<(Vec<u8>, usize)>, AllocError> {
        let entry = types.scope.entry(value.index);
        let width = match entry.item {
            Item::Bits => 1,
            Item::Hex => 4,
            _ => return Ok(None),
        };
        bits_of_digits(self.alloc, types.scope.text_of(entry), width)
    }

    /// Returns the part of a BIT STRING.
    fn bit_string(
        &mut self,
        types: Types<'_>,
        governed: Governed,
    ) -> Result<Option<Part>, AllocError> {
        let found = if types.scope.item(governed.value) == Item::Braces {
            types.named_bits(self.alloc, governed.of, governed.value)?
        } else {
            self.digits(types, governed.value)?
        };
        match found {
            None => Ok(None),
            Some((octets, count)) => {
                let at = self.add_octets(octets.as_slice())?.at;
                Ok(Some(Part::Bits(Span { at, count })))
            }
        }
    }

    /// Returns the part of an OCTET STRING. ANY has no value here.
    fn octet_string(
        &mut self,
        types: Types<'_>,
        governed: Governed,
    ) -> Result<Option<Part>, AllocError> {
        if types.scope.item(governed.of) != Item::OctetString {
            return Ok(None);
        }
        match self.digits(types, governed.value)? {
            None => Ok(None),
            Some((octets, _)) => Ok(Some(Part::Octets(self.add_octets(octets.as_slice())?))),
        }
    }

    /// Returns the part of a string of characters.
    fn text(&mut self, characters: &str, node: Node) -> Result<Option<Part>, AllocError> {
        if let Node::Utf8String = node {
            return Ok(Some(Part::Octets(self.add_octets(characters.as_bytes())?)));
        }
        let at = self.octets.len().saturating_mul(8);
        let mut count = 0usize;
        for character in characters.chars() {
            let number: u32 = character.into();
            self.add_octets(number.to_be_bytes().as_slice())?;
            count = count.saturating_add(1);
        }
        Ok(Some(Part::Text(Characters {
            at,
            count,
            width: 32,
            codes: Codes::Numbers,
        })))
    }
}
