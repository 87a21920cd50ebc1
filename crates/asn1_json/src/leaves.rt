//! Prints values of one part.

use crate::bits::{number_of, octets_in, octets_of, size_in, unsigned_octets_of, whole_octets};
use crate::decimal::decimal_of;
use crate::identifiers::{dotted_of, relative_of};
use crate::print::PrintError;
use crate::printer::{NO_VALUE, Printer};
use crate::strings::{ascii_of, text_of};
use asn1_schema::{Length, Natural, Node, Part, Span};
use std::str;

const LARGE_ARC: PrintError = PrintError::Unsupported(
    "an identifier with an arc that is too large",
);

const NO_CHARACTER: PrintError = PrintError::Unsupported(
    "a string with a code that is no character of Unicode",
);

impl<'a> Printer<'a> {
    /// Prints a value of one part, of the type at a node.
    pub(crate) fn leaf(&mut self, node: usize, of: &Node, at: usize) -> Result<(), PrintError> {
        match *self.parts.get(at).ok_or(NO_VALUE)? {
            Part::Null => self.null(),
            Part::Truth(truth) => self.truth(truth),
            Part::Integer(number) => self.number(format!(in self.alloc; "{number}")?.as_str()),
            Part::Above { least, at, count } => self.above(
                least,
                Span {
                    at,
                    count: count as usize,
                },
            ),
            Part::Signed(span) => self.signed(span),
            Part::Enumerated(index) => self.enumeral(node, index),
            Part::UnknownEnumerated(index) => self.unknown_enumeral(index),
            Part::Unknown(_) if matches!(of, Node::Enumerated { .. }) => self.other_enumeral(at),
            Part::Bits(span) => {
                let message = self.message;
                if let Some(octets) = whole_octets(message, span) {
                    return self.bit_string(of, octets, span.count);
                }
                let octets = octets_of(self.alloc, message, span)?.ok_or(NO_VALUE)?;
                self.bit_string(of, octets.as_slice(), span.count)
            }
            Part::BitsInFragments(fragments) => {
                let octets = octets_in(self.alloc, self.message, 1, fragments)?.ok_or(NO_VALUE)?;
                let count = size_in(1, fragments).ok_or(NO_VALUE)?;
                self.bit_string(of, octets.as_slice(), count)
            }
            Part::Octets(span) => {
                let message = self.message;
                if let Some(octets) = whole_octets(message, span) {
                    return self.octets(of, octets);
                }
                let octets = octets_of(self.alloc, message, span)?.ok_or(NO_VALUE)?;
                self.octets(of, octets.as_slice())
            }
            Part::OctetsInFragments(fragments) => {
                let octets = octets_in(self.alloc, self.message, 8, fragments)?.ok_or(NO_VALUE)?;
                self.octets(of, octets.as_slice())
            }
            Part::Text(characters) => {
                let message = self.message;
                if let Some(text) = ascii_of(message, characters) {
                    return self.string(text);
                }
                let ranges = self.schema.tables().ranges;
                let text = text_of(self.alloc, message, ranges, characters)?;
                self.string(text.ok_or(NO_CHARACTER)?.as_str())
            }
            _ => Err(NO_VALUE),
        }
    }

    /// Prints an INTEGER in octets of two's complement.
    fn signed(&mut self, span: Span) -> Result<(), PrintError> {
        let message = self.message;
        if let Some(octets) = whole_octets(message, span) {
            return self.number(decimal_of(self.alloc, octets)?.as_str());
        }
        let octets = octets_of(self.alloc, message, span)?.ok_or(NO_VALUE)?;
        self.number(decimal_of(self.alloc, octets.as_slice())?.as_str())
    }

    /// Prints an INTEGER by its distance from the least value.
    fn above(&mut self, least: i128, span: Span) -> Result<(), PrintError> {
        if let Some(distance) = number_of(self.message, span)
            && let Some(number) = least.checked_add_unsigned(distance)
        {
            return self.number(format!(in self.alloc; "{number}")?.as_str());
        }
        if least != 0 {
            return Err(PrintError::Unsupported(
                "an INTEGER of more than 127 bits above a least value other than 0",
            ));
        }
        self.natural(Natural::Large(span))
    }

    /// Prints a number from 0 on.
    fn natural(&mut self, number: Natural) -> Result<(), PrintError> {
        match number {
            Natural::Small(number) => self.number(format!(in self.alloc; "{number}")?.as_str()),
            Natural::Large(span) => {
                let octets = unsigned_octets_of(self.alloc, self.message, span)?.ok_or(NO_VALUE)?;
                self.number(decimal_of(self.alloc, octets.as_slice())?.as_str())
            }
        }
    }

    /// Prints the name of a value of an ENUMERATED.
    fn enumeral(&mut self, node: usize, index: usize) -> Result<(), PrintError> {
        let schema = self.schema;
        let enumeral = schema.enumerals(node).get(index).ok_or(NO_VALUE)?;
        let name = str::from_utf8(schema.text_of(enumeral.name)).map_err(|_| NO_VALUE)?;
        self.word(name)
    }

    /// Prints a value of an ENUMERATED that the schema does not know, by its index among the
    /// additions.
    fn unknown_enumeral(&mut self, index: Natural) -> Result<(), PrintError> {
        if let Some(out) = self.notation() {
            return Ok(out.comment("an unknown value")?);
        }
        self.begin_object()?;
        self.key("unknown")?;
        self.natural(index)?;
        self.end_object()
    }

    /// Prints a value of an ENUMERATED that the schema does not know, by its contents octets.
    fn other_enumeral(&mut self, at: usize) -> Result<(), PrintError> {
        if let Some(out) = self.notation() {
            return Ok(out.comment("an unknown value")?);
        }
        self.begin_object()?;
        self.key("unknown")?;
        self.unknown(at)?;
        self.end_object()
    }

    /// Prints a BIT STRING of `count` bits: the hexadecimal digits if its size is fixed, otherwise an object that
    /// also has the number of bits.
    fn bit_string(&mut self, of: &Node, octets: &[u8], count: usize) -> Result<(), PrintError> {
        if let Some(out) = self.notation() {
            return Ok(out.bits(octets, count)?);
        }
        if is_fixed(*of) {
            return self.hex(octets);
        }
        self.begin_object()?;
        self.key("value")?;
        self.hex(octets)?;
        self.key("length")?;
        self.natural(Natural::Small(count as u64))?;
        self.end_object()
    }

    /// Prints octets, by what their type is.
    fn octets(&mut self, of: &Node, octets: &[u8]) -> Result<(), PrintError> {
        match of {
            Node::OctetString { .. } => self.hex(octets),
            Node::ObjectIdentifier => {
                if self.short_identifier(octets)? {
                    return Ok(());
                }
                let text = dotted_of(self.alloc, octets)?.ok_or(LARGE_ARC)?;
                self.identifier(text.as_str())
            }
            Node::RelativeIdentifier => {
                let text = relative_of(self.alloc, octets)?.ok_or(LARGE_ARC)?;
                self.identifier(text.as_str())
            }
            Node::Real => return self.real(octets),
            Node::Utf8String => {
                let text = str::from_utf8(octets).map_err(|_| NO_CHARACTER)?;
                self.string(text)
            }
            _ => Err(NO_VALUE),
        }
    }

    /// Prints the octets of a value that the schema does not know.
    pub(crate) fn unknown(&mut self, at: usize) -> Result<(), PrintError> {
        let Part::Unknown(span) = self.part(at)? else {
            return Err(NO_VALUE);
        };
        let octets = octets_of(self.alloc, self.message, span)?.ok_or(NO_VALUE)?;
        self.hex(octets.as_slice())
    }

    /// Prints the octets of an addition that the schema does not know, or `null` if it is absent.
    pub(crate) fn unknown_or_absent(&mut self, at: usize) -> Result<(), PrintError> {
        match self.part(at)? {
            Part::Absent => self.null(),
            _ => self.unknown(at),
        }
    }

    /// Prints an alternative that the schema does not know: its index among the additions, and its
    /// octets.
    pub(crate) fn unknown_alternative(
        &mut self,
        index: Natural,
        at: usize,
    ) -> Result<(), PrintError> {
        if let Some(out) = self.notation() {
            return Ok(out.comment("an unknown alternative")?);
        }
        self.begin_alternative("...")?;
        self.begin_array()?;
        self.natural(index)?;
        self.unknown(at)?;
        self.end_array()?;
        self.end_alternative()
    }

    /// Prints an alternative that the schema does not know, by its octets.
    pub(crate) fn other_alternative(&mut self, at: usize) -> Result<(), PrintError> {
        if let Some(out) = self.notation() {
            return Ok(out.comment("an unknown alternative")?);
        }
        self.begin_alternative("...")?;
        self.unknown(at)?;
        self.end_alternative()
    }

    /// Prints `count` additions that the schema does not know, from a part on.
    pub(crate) fn unknown_additions(
        &mut self,
        from: usize,
        count: usize,
    ) -> Result<(), PrintError> {
        if let Some(out) = self.notation() {
            return Ok(out.comment("unknown additions")?);
        }
        self.key("...")?;
        self.begin_array()?;
        for index in from..from.saturating_add(count) {
            self.unknown_or_absent(index)?;
        }
        self.end_array()
    }
}

/// Returns whether a BIT STRING has one size, without an extension marker.
pub(crate) fn is_fixed(of: Node) -> bool {
    matches!(
        of,
        Node::BitString {
            length: Length::Between { range: 0, .. },
            is_extensible: false,
            has_names: false,
        }
    )
}
