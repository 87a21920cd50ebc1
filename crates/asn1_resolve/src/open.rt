//! What the contents of open types are (X.682 10).

use asn1_schema::{Characters, Part, Rows, Span};

/// An open type whose contents depend on other components.
#[derive(Clone, Copy, Debug, PartialEq, Eq)]
pub struct OpenType {
    /// The node of the open type.
    pub node: usize,
    /// The paths of the components.
    pub(crate) paths: Rows,
    /// Its objects: a row for each path of each object.
    pub(crate) objects: Rows,
}

/// The path of a component that the contents of an open type depend on.
#[derive(Clone, Copy, Debug, PartialEq, Eq)]
pub struct OpenPath {
    /// How many of the SEQUENCE, SET and CHOICE types around the open type are inside the one in which the
    /// path begins: 0 if it is the innermost one.
    pub levels: usize,
    /// The names of the components that the path leads through, among those of all paths.
    pub(crate) names: Rows,
    /// The node of the component's type.
    pub node: usize,
}

/// An object of an open type.
#[derive(Clone, Copy, Debug, PartialEq, Eq)]
pub struct OpenObject {
    /// The parts of a component's value.
    pub(crate) key: Rows,
    /// The node of the contents' type.
    pub node: usize,
}

/// A value, as its parts and the octets in which they have their bits.
#[derive(Clone, Copy, Debug)]
pub struct Key<'s> {
    /// The parts.
    pub parts: &'s [Part],
    /// The octets.
    pub octets: &'s [u8],
}

/// Returns a bit of octets: 0 or 1. `None` after the last one.
fn bit_at(octets: &[u8], at: usize) -> Option<u8> {
    let octet = *octets.get(at / 8)?;
    Some((octet >> (7 - at % 8)) & 1)
}

/// The most bits of a number that is compared.
const MAX_NUMBER: usize = 126;

/// Returns the bits of characters.
fn bits_of(characters: Characters) -> Span {
    Span {
        at: characters.at,
        count: characters.count.saturating_mul(characters.width as usize),
    }
}

impl<'s> Key<'s> {
    /// Returns the number that a part is. `None` if it is no number, or a larger one.
    fn number_of(self, part: Part) -> Option<i128> {
        let (least, at, count, is_signed) = match part {
            Part::Integer(number) => return Some(number),
            Part::Above { least, at, count } => (least, at, count as usize, false),
            Part::Signed(span) => (0, span.at, span.count, true),
            _ => return None,
        };
        if MAX_NUMBER < count {
            return None;
        }
        let mut number = 0i128;
        for index in 0..count {
            let bit = i128::from(bit_at(self.octets, at.saturating_add(index))?);
            let digit = if is_signed && index == 0 {
                bit.saturating_neg()
            } else {
                bit
            };
            number = number.saturating_mul(2).saturating_add(digit);
        }
        Some(least.saturating_add(number))
    }

    /// Returns whether two spans of two values have the same bits.
    fn has_same_bits(self, span: Span, other: Key<'_>, other_span: Span) -> bool {
        if span.count != other_span.count {
            return false;
        }
        for index in 0..span.count {
            let one = bit_at(self.octets, span.at.saturating_add(index));
            let two = bit_at(other.octets, other_span.at.saturating_add(index));
            if one.is_none() || one != two {
                return false;
            }
        }
        true
    }

    /// Returns whether two parts of two values are equal. Those of strings of characters are compared as
    /// the value notation has them: by 32 bits a character.
    fn has_same_part(self, part: Part, other: Key<'_>, other_part: Part) -> bool {
        match (part, other_part) {
            (Part::Octets(one), Part::Octets(two)) | (Part::Bits(one), Part::Bits(two)) => {
                self.has_same_bits(one, other, two)
            }
            (Part::Text(one), Part::Text(two)) => {
                one.width == 32
                    && two.width == 32
                    && one.count == two.count
                    && self.has_same_bits(bits_of(one), other, bits_of(two))
            }
            _ => match (self.number_of(part), other.number_of(other_part)) {
                (Some(one), Some(two)) => one == two,
                _ => part == other_part,
            },
        }
    }

    /// Returns a number that equal values share.
    pub(crate) fn digest(self) -> u64 {
        let mut found = 0u64;
        for part in self.parts {
            let (at, end) = match part {
                Part::Octets(span) | Part::Bits(span) => (
                    span.at,
                    span.at.saturating_add(span.count),
                ),
                Part::Text(characters) => {
                    let span = bits_of(*characters);
                    (span.at, span.at.saturating_add(span.count))
                }
                _ => (0, 0),
            };
            for octet in self.octets.get(at / 8..end / 8).unwrap_or(&[]) {
                found = found.wrapping_mul(31).wrapping_add(u64::from(*octet));
            }
            if let Some(number) = self.number_of(*part) {
                let low = u64::try_from(number.unsigned_abs() % (1 << 64)).unwrap_or(0);
                found = found.wrapping_mul(31).wrapping_add(low);
            }
        }
        found
    }

    /// Returns whether a value begins with the parts of another.
    pub(crate) fn begins_with(self, other: Key<'_>) -> bool {
        if self.parts.len() < other.parts.len() {
            return false;
        }
        for (part, other_part) in self.parts.iter().zip(other.parts.iter()) {
            if !self.has_same_part(*part, other, *other_part) {
                return false;
            }
        }
        true
    }
}
