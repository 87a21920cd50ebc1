//! Values of one part from JSON.

ghost use Rattle.std.specs.Prelude.{◌≡◌, ◌≤◌, ◌==◌, ◌||◌, ◌&&◌, nat_le};
ghost use Rattle.std.specs.List.{list_all};

use crate::decimal::{minimal_of, octets_of_decimal};
use crate::hexadecimal::octets_of_hex;
use crate::identifiers::{append_dotted, append_relative};
use crate::leaves::is_fixed;
use crate::parse::{JsonError, JsonProblem, Maker, at_item, expected};
use crate::tree::Kind;
use asn1_schema::{Characters, Codes, Length, Natural, Node, Part, Span};

/// The most digits of a number.
const MAX_DIGITS: usize = 40_000;

impl<'a, 's, 't> Maker<'a, 's, 't> {
    /// Appends the part of a value of the type at a node.
    pub(crate) fn leaf(&mut self, node: usize, of: Node, item: usize) -> Result<(), JsonError<'s>> {
        let part = match of {
            Node::Null => match self.item(item)?.kind {
                Kind::Null => Part::Null,
                _ => return Err(expected(item, "null")),
            },
            Node::Boolean => match self.item(item)?.kind {
                Kind::Truth(truth) => Part::Truth(truth),
                _ => return Err(expected(item, "true or false")),
            },
            Node::Integer | Node::IntegerAtLeast { .. } | Node::IntegerBetween { .. } => {
                self.integer(of, item)?
            }
            Node::Enumerated { .. } => self.enumerated(node, item)?,
            Node::BitString { .. } => {
                if self.containing(node, item, true)? {
                    return Ok(());
                }
                self.bit_string(of, item)?
            }
            Node::OctetString { .. } => {
                if self.containing(node, item, false)? {
                    return Ok(());
                }
                let octets = self.octets(item)?;
                Part::Octets(self.draft.add(octets.as_slice())?)
            }
            Node::Text { .. } | Node::Time { .. } => self.characters(item)?,
            Node::Real => self.real(item)?,
            Node::Utf8String => {
                let text = self.text(item)?;
                Part::Octets(self.draft.add(text.as_bytes())?)
            }
            Node::ObjectIdentifier | Node::RelativeIdentifier => self.identifier(of, item)?,
            _ => return Err(at_item(item, JsonProblem::NoNode)),
        };
        self.push(part, item)
    }

    /// Returns the text of a whole number.
    fn digits(&self, item: usize) -> Result<&'t str, JsonError<'s>> {
        match self.item(item)?.kind {
            Kind::Number(text) if is_whole(text) => Ok(text),
            _ => Err(expected(item, "a whole number")),
        }
    }

    /// Returns a number from 0 on, below 2^64.
    pub(crate) fn small(&self, item: usize) -> Result<u64, JsonError<'s>> {
        match self.digits(item)?.parse::<u64>() {
            Ok(number) => Ok(number),
            Err(_) => Err(expected(item, "a whole number from 0 on")),
        }
    }

    /// Returns the part of an INTEGER. One of more than 127 bits is kept in its octets.
    fn integer(&mut self, of: Node, item: usize) -> Result<Part, JsonError<'s>> {
        let text = self.digits(item)?;
        if let Ok(number) = text.parse::<i128>() {
            return Ok(Part::Integer(number));
        }
        if text.len() > MAX_DIGITS {
            return Err(at_item(item, JsonProblem::TooLarge));
        }
        let Some(octets) = octets_of_decimal(self.alloc, text)? else {
            return Err(expected(item, "a whole number"));
        };
        let span = self.draft.add(minimal_of(octets.as_slice()))?;
        match of {
            Node::Integer => Ok(Part::Signed(span)),
            Node::IntegerAtLeast { bound, .. } if bound.least == 0 && !text.starts_with('-') => {
                let count = match u32::try_from(span.count) {
                    Ok(count) => count,
                    Err(_) => return Err(at_item(item, JsonProblem::TooLarge)),
                };
                Ok(Part::Above {
                    least: 0,
                    at: span.at,
                    count,
                })
            }
            _ => Err(at_item(item, JsonProblem::TooLarge)),
        }
    }

    /// Returns the part of an ENUMERATED: the name of a value, or an object with the index of one that
    /// the schema does not know.
    fn enumerated(&mut self, node: usize, item: usize) -> Result<Part, JsonError<'s>> {
        if let Kind::Object = self.item(item)?.kind {
            return match self.tree.member(item, "unknown") {
                Some(index) if self.tree.count_in(item) == 1 => {
                    let index = self.small(index)?;
                    Ok(Part::UnknownEnumerated(Natural::Small(index)))
                }
                _ => Err(expected(item, "a string, or an object with `unknown`")),
            };
        }
        let name = self.text(item)?;
        for (index, enumeral) in self.schema.enumerals(node).iter().enumerate() {
            if self.schema.text_of(enumeral.name) == name.as_bytes() {
                return Ok(Part::Enumerated(index));
            }
        }
        Err(at_item(item, JsonProblem::UnknownName))
    }

    /// Returns the octets of a string of hexadecimal digits.
    fn octets(&self, item: usize) -> Result<Vec<u8>, JsonError<'s>> {
        match octets_of_hex(self.alloc, self.text(item)?)? {
            Some(octets) => Ok(octets),
            None => Err(expected(item, "an even number of hexadecimal digits")),
        }
    }

    /// Returns the part of a BIT STRING.
    fn bit_string(&mut self, of: Node, item: usize) -> Result<Part, JsonError<'s>> {
        let Node::BitString {
            length,
            has_names,
            ..
        } = of
        else {
            return Err(at_item(item, JsonProblem::NoNode));
        };
        let (digits, count) = if is_fixed(of) {
            (item, least_of(length))
        } else {
            self.bits_of_object(item)?
        };
        let octets = self.octets(digits)?;
        let span = self.draft.add(octets.as_slice())?;
        if count > span.count || span.count - count > 7 {
            return Err(expected(digits, "as many digits as the bits take"));
        }
        let count = if has_names {
            without_zeros(octets.as_slice(), count, least_of(length))
        } else {
            count
        };
        Ok(Part::Bits(Span { at: span.at, count }))
    }

    /// Returns the item with the digits of a BIT STRING, and how many bits it has, by an object.
    fn bits_of_object(&self, item: usize) -> Result<(usize, usize), JsonError<'s>> {
        if self.tree.count_in(item) == 2
            && let Some(value) = self.tree.member(item, "value")
            && let Some(length) = self.tree.member(item, "length")
        {
            let Ok(count) = usize::try_from(self.small(length)?) else {
                return Err(at_item(length, JsonProblem::TooLarge));
            };
            return Ok((value, count));
        }
        Err(expected(item, "an object with `value` and `length`"))
    }

    /// Returns the part of a string of characters of a known alphabet.
    fn characters(&mut self, item: usize) -> Result<Part, JsonError<'s>> {
        let text = self.text(item)?;
        let mut octets = Vec::new(self.alloc);
        let mut count = 0usize;
        for character in text.chars() {
            let number: u32 = character.into();
            octets.extend_from_slice(number.to_be_bytes().as_slice())?;
            count = count.saturating_add(1);
        }
        let span = self.draft.add(octets.as_slice())?;
        Ok(Part::Text(Characters {
            at: span.at,
            count,
            width: 32,
            codes: Codes::Numbers,
        }))
    }

    /// Returns the part of an OBJECT IDENTIFIER or a RELATIVE-OID.
    fn identifier(&mut self, of: Node, item: usize) -> Result<Part, JsonError<'s>> {
        let text = self.text(item)?;
        let mut octets = Vec::new(self.alloc);
        let is_one = match of {
            Node::ObjectIdentifier => append_dotted(self.alloc, text, &mut octets)?,
            _ => append_relative(text, &mut octets)?,
        };
        if !is_one {
            return Err(expected(item, "arcs in decimal, joined by full stops"));
        }
        Ok(Part::Octets(self.draft.add(octets.as_slice())?))
    }

    /// Appends the octets of a value that the schema does not know.
    pub(crate) fn unknown(&mut self, item: usize) -> Result<(), JsonError<'s>> {
        let octets = self.octets(item)?;
        let span = self.draft.add(octets.as_slice())?;
        self.push(Part::Unknown(span), item)
    }
}

/// Returns whether a text has digits and signs alone, so that a number has no fraction and no exponent.
fn is_whole(text: &str) -> bool
    ensures { result
        ≡ list_all (λ octet. (octet == 45) || (nat_le 48 octet && nat_le octet 57)) text.now }
{
    text.as_bytes()
        .iter()
        .all(|octet| *octet == b'-' || (48 <= *octet && *octet <= 57))
}

/// Returns the least length of a string.
fn least_of(length: Length) -> usize {
    match length {
        Length::AtLeast { least } => least,
        Length::Between { least, .. } => least as usize,
    }
}

/// Returns whether a bit of octets is 1.
fn is_one(octets: &[u8], index: usize) -> bool {
    match octets.get(index / 8) {
        Some(octet) => *octet & (128 >> (index % 8)) != 0,
        None => false,
    }
}

/// Returns how many bits are left without the zeros at the end, and at least `least`.
fn without_zeros(octets: &[u8], count: usize, least: usize) -> usize
    ensures most { result ≤ count }
    ensures least { least ≤ count → least ≤ result }
{
    let mut left = count;
    while left > least && !is_one(octets, left - 1) {
        left -= 1;
    }
    left
}
