//! Strings in the value notation (X.680 12.10 to 12.14, 22, 32).

use crate::governed::Types;
use crate::pieces::Pieces;
use asn1_definitions::{MAX_STEPS, Place};
use asn1_notation::Item;
use asn1_oid::ObjectIdentifier;
use std::alloc::{AllocError, Global};
use std::str;

/// The characters that end a line (X.680 12.1.6), and those with spaces and tabs.
const LINE_ENDS: [char; 4] = ['\n', '\r', '\u{b}', '\u{c}'];

const WHITE_SPACE: [char; 6] = [' ', '\t', '\n', '\r', '\u{b}', '\u{c}'];

/// How deep the names of identifiers may be nested.
const MAX_NESTING: usize = 50;

/// The most bits of a BIT STRING that is written by names.
const MAX_NAMED: i128 = 1 << 16;

/// Returns the bits of the digits of a binary or hexadecimal string, with white space between them:
/// their octets, the last one filled with zeros, and how many bits there are. `None` if a digit is
/// none.
pub(crate) fn bits_of_digits(
    alloc: Global,
    digits: &[u8],
    width: usize,
) -> Result<Option<(Vec<u8>, usize)>, AllocError> {
    let base = if width == 1 { 2 } else { 16 };
    let mut octets = Vec::new(alloc);
    let mut octet = 0u32;
    let mut count = 0usize;
    for digit in digits {
        if digit.is_ascii_whitespace() {
            continue;
        }
        let Some(value) = char::from(*digit).to_digit(base) else {
            return Ok(None);
        };
        octet = octet.saturating_mul(base).saturating_add(value) % 256;
        count = count.saturating_add(width);
        if count % 8 == 0 {
            octets.push((octet % 256) as u8)?;
            octet = 0;
        }
    }
    if count % 8 != 0 {
        for _ in count % 8..8 {
            octet = octet.saturating_mul(2) % 256;
        }
        octets.push((octet % 256) as u8)?;
    }
    Ok(Some((octets, count)))
}

/// Returns the characters between the quotes of a string (X.680 12.14). The end of a line, and the white
/// space before and after it, are no characters of the string. `None` if the text is no UTF-8.
pub(crate) fn characters_of(alloc: Global, inside: &[u8]) -> Result<Option<String>, AllocError> {
    let Ok(inside) = str::from_utf8(inside) else {
        return Ok(None);
    };
    let mut characters = String::new(alloc);
    let mut rest = inside;
    for _ in 0..inside.len() {
        let Some(end) = rest.find(LINE_ENDS) else {
            break;
        };
        let line = rest.get(..end).unwrap_or("");
        push_unquoted(&mut characters, line.trim_end_matches([' ', '\t']))?;
        rest = rest
            .get(end..)
            .unwrap_or("")
            .trim_start_matches(WHITE_SPACE);
    }
    push_unquoted(&mut characters, rest)?;
    Ok(Some(characters))
}

/// Appends characters, of which two quotes are one.
fn push_unquoted(characters: &mut String, line: &str) -> Result<(), AllocError> {
    let mut is_quote = false;
    for character in line.chars() {
        let is_second = character == '"' && is_quote;
        if !is_second {
            characters.push(character)?;
        }
        is_quote = character == '"' && !is_second;
    }
    Ok(())
}

/// Appends the character with a number. Returns whether there is one.
fn push_character(characters: &mut String, number: Option<u32>) -> Result<bool, AllocError> {
    match number.and_then(char::from_u32) {
        Some(character) => {
            characters.push(character)?;
            Ok(true)
        }
        None => Ok(false),
    }
}

/// Returns the number of an arc by its name, at a level below the root and an arc (X.660 A.2 to A.5).
fn arc_named(name: &[u8], level: usize, first: u64) -> Option<u64> {
    let names: &[&[u8]] = match (level, first) {
        (0, _) => &[
            b"itu-t",
            b"iso",
            b"joint-iso-itu-t",
            b"ccitt",
            b"joint-iso-ccitt",
        ],
        (1, 0) => &[
            b"recommendation",
            b"question",
            b"administration",
            b"network-operator",
            b"identified-organization",
        ],
        (1, 1) => &[
            b"standard",
            b"registration-authority",
            b"member-body",
            b"identified-organization",
        ],
        _ => return None,
    };
    let index = names.iter().position(|known| *known == name)?;
    match (level, index) {
        (0, 3) => Some(0),
        (0, 4) => Some(2),
        _ => u64::try_from(index).ok(),
    }
}

impl<'r> Types<'r> {
    /// Returns the characters of a value in braces: a tuple or a quadruple, or a list of these and of strings
    /// (X.680 41.8). `None` if the braces have anything else, or a number is that of no character.
    pub(crate) fn listed_characters(
        self,
        alloc: Global,
        braces: Place,
    ) -> Result<Option<String>, AllocError> {
        let mut characters = String::new(alloc);
        let number = self.scope.character_of(braces);
        if number.is_some() {
            let is_one = push_character(&mut characters, number)?;
            return Ok(if is_one { Some(characters) } else { None });
        }
        let Some(count) = self.count_of_values(braces) else {
            return Ok(None);
        };
        let mut pieces = Pieces::new(self, braces);
        for _ in 0..count {
            let piece = pieces.next(self).unwrap_or(braces);
            if !self.append_characters(&mut characters, alloc, piece)? {
                return Ok(None);
            }
            pieces.next(self);
        }
        Ok(Some(characters))
    }

    /// Appends the characters of a string, or the one that a tuple or a quadruple is. Returns whether the value
    /// is one of them.
    fn append_characters(
        self,
        characters: &mut String,
        alloc: Global,
        piece: Place,
    ) -> Result<bool, AllocError> {
        let Ok(value) = self.scope.text_value(piece) else {
            return Ok(false);
        };
        if self.scope.item(value) != Item::Text {
            let number = self.scope.character_of(value);
            return push_character(characters, number);
        }
        let inside = self.scope.text_of(self.scope.entry(value.index));
        let Some(text) = characters_of(alloc, inside)? else {
            return Ok(false);
        };
        characters.push_str(text.as_str())?;
        Ok(true)
    }

    /// Returns the octets of a BIT STRING that is written by the names of its bits, up to the last one,
    /// and how many bits they are. `None` if a name is none of a bit.
    pub(crate) fn named_bits(
        self,
        alloc: Global,
        of: Place,
        braces: Place,
    ) -> Result<Option<(Vec<u8>, usize)>, AllocError> {
        let mut octets: Vec<u8> = Vec::new(alloc);
        let mut count = 0usize;
        let mut pieces = Pieces::new(self, braces);
        for _ in 0..self.scope.most() {
            let Some(name) = pieces.next(self) else {
                return Ok(Some((octets, count)));
            };
            if self.scope.item(name) == Item::Comma {
                continue;
            }
            let Some(bit) = self.number(of, name) else {
                return Ok(None);
            };
            if bit < 0 || MAX_NAMED < bit {
                return Ok(None);
            }
            let bit = (bit % (MAX_NAMED + 1)) as usize;
            if octets.len() <= bit / 8 {
                octets.resize(bit / 8 + 1, 0)?;
            }
            if let Some(octet) = octets.as_mut_slice().get_mut(bit / 8) {
                *octet |= 128 >> (bit % 8);
            }
            count = count.max(bit + 1);
        }
        Ok(None)
    }

    /// Returns the arc that an entry in braces is, at a level. `None` if it is none.
    fn arc(self, piece: Place, level: usize, first: u64) -> Option<u64> {
        let number = match self.scope.item(piece) {
            Item::Number => self.scope.number(piece, None).ok(),
            Item::PieceName => match self.scope.value_in(piece) {
                Some(number) => self.scope.number(number, None).ok(),
                None => {
                    let name = self.scope.text_of(self.scope.entry(piece.index));
                    if let Some(arc) = arc_named(name, level, first) {
                        return Some(arc);
                    }
                    self.scope.number(piece, None).ok()
                }
            },
            _ => None,
        };
        u64::try_from(number?).ok()
    }

    /// Appends the arcs of an identifier in braces to a text, joined by full stops. A value that is named
    /// first has the first arcs (X.680 32.3, 33.3). Returns whether each arc has a number or a name of X.660.
    fn append_arcs(
        self,
        text: &mut String,
        braces: Place,
        is_relative: bool,
        depth: usize,
    ) -> Result<bool, AllocError> {
        if depth == 0 {
            return Ok(false);
        }
        let mut pieces = Pieces::new(self, braces);
        let mut first = 0u64;
        for number in 0..self.scope.most() {
            let Some(piece) = pieces.next(self) else {
                break;
            };
            // The names of X.660 are those of the first arcs of an OBJECT IDENTIFIER.
            let level = if is_relative { 2 } else { number };
            if let Some(arc) = self.arc(piece, level, first) {
                if number == 0 {
                    first = arc;
                }
                if !text.is_empty() {
                    text.push('.')?;
                }
                write!(text, "{arc}")?;
                continue;
            }
            let Some(inner) = self.named_braces(piece) else {
                return Ok(false);
            };
            if !self.append_arcs(text, inner, is_relative, depth - 1)? {
                return Ok(false);
            }
        }
        Ok(true)
    }

    /// Returns the braces of the value that a name in braces is. `None` if it is none.
    fn named_braces(self, piece: Place) -> Option<Place> {
        let mut found = piece;
        for _ in 0..MAX_STEPS {
            match self.scope.item(found) {
                Item::Braces => return Some(found),
                Item::PieceName | Item::ValueReference | Item::ExternalValue => {
                    let (value, _) = self.scope.named_value(found).ok()?;
                    found = value;
                }
                _ => return None,
            }
        }
        None
    }

    /// Returns the contents octets of an OBJECT IDENTIFIER in braces (X.690 8.19). `None` if an arc has
    /// neither a number nor a name of X.660.
    pub(crate) fn identifier(
        self,
        alloc: Global,
        braces: Place,
    ) -> Result<Option<Vec<u8>>, AllocError> {
        let mut text = String::new(alloc);
        if !self.append_arcs(&mut text, braces, false, MAX_NESTING)? {
            return Ok(None);
        }
        let identifier = match ObjectIdentifier::parse(alloc, text.as_str()) {
            Ok(identifier) => identifier,
            Err(asn1_oid::DottedTextError::Memory) => return Err(AllocError),
            Err(_) => return Ok(None),
        };
        let mut octets = Vec::new(alloc);
        match identifier.as_oid().contents() {
            None => Ok(None),
            Some(contents) => {
                contents.append_to(&mut octets)?;
                Ok(Some(octets))
            }
        }
    }

    /// Returns the contents octets of a RELATIVE-OID in braces (X.690 8.20). `None` if an arc has no
    /// number.
    pub(crate) fn relative_identifier(
        self,
        alloc: Global,
        braces: Place,
    ) -> Result<Option<Vec<u8>>, AllocError> {
        let mut text = String::new(alloc);
        if !self.append_arcs(&mut text, braces, true, MAX_NESTING)? {
            return Ok(None);
        }
        let mut octets = Vec::new(alloc);
        for arc in text.as_str().split('.') {
            let Ok(arc) = arc.parse::<u64>() else {
                return Ok(None);
            };
            push_arc(&mut octets, arc)?;
        }
        Ok(Some(octets))
    }
}

/// Appends the subidentifier of an arc (X.690 8.20.2): seven bits an octet, of which all but the last one
/// begin with 1.
fn push_arc(octets: &mut Vec<u8>, arc: u64) -> Result<(), AllocError> {
    let mut has_begun = false;
    for index in 0..10u32 {
        let shift = 63 - 7 * index;
        let digit = ((arc >> shift) % 128) as u8;
        has_begun = has_begun || digit != 0 || shift == 0;
        if has_begun {
            octets.push(if shift == 0 { digit } else { digit | 128 })?;
        }
    }
    Ok(())
}
