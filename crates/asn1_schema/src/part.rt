//! The parts of a value.

ghost use Rattle.std.specs.Prelude.{◌≡◌, ◌+◌, ◌*◌, ◌<◌, ◌^◌, Some, None, IfSome, IsSome};

use crate::tables::Rows;

/// Bits of a message.
#[derive(Clone, Copy, Debug, PartialEq, Eq)]
pub struct Span {
    /// The index of the first bit.
    pub at: usize,
    /// How many bits there are.
    pub count: usize,
}

/// A whole number from 0 on.
#[derive(Clone, Copy, Debug, PartialEq, Eq)]
pub enum Natural {
    /// The number.
    Small(u64),
    /// The bits of the message that are its binary digits.
    Large(Span),
}

/// Units of a string in fragments (X.691 11.9.3.8): each of the first ones has 65,536 units, and
/// follows the one before it after a length octet.
#[derive(Clone, Copy, Debug, PartialEq, Eq)]
pub struct Fragments {
    /// The index of the first bit of the first fragment.
    pub at: usize,
    /// How many fragments of 65,536 units there are.
    pub whole: usize,
    /// The bits of a fragment of 16,384, 32,768 or 49,152 units; no bits if there is none.
    pub middle: Span,
    /// The bits of the units after the fragments, fewer than 16,384 units.
    pub last: Span,
}

impl Fragments {
    /// Returns the bits of the fragment at an index, where a unit has `unit` bits: first those of 65,536 units,
    /// then `middle` and `last`. `None` after these, or if the index of a bit exceeds `usize`.
    pub fn span(&self, unit: usize, index: usize) -> Option<Span>
        ensures whole { index < self.now.whole → IfSome result (λ s. (s.at ≡ self.now.at + index * (65536 * unit + 8)) × (s.count ≡ 65536 * unit)) }
        ensures some { index < self.now.whole → 65536 * unit + 8 < 2 ^ 64 → self.now.at + index * (65536 * unit + 8) < 2 ^ 64 → IsSome result }
        ensures middle { index ≡ self.now.whole → result ≡ Some self.now.middle }
        ensures last { index ≡ self.now.whole + 1 → result ≡ Some self.now.last }
        ensures none { self.now.whole + 1 < index → result ≡ None }
    {
        match index.checked_sub(self.whole) {
            None => {
                let count = unit.checked_mul(65536)?;
                let before = index.checked_mul(count.checked_add(8)?)?;
                Some(Span {
                    at: self.at.checked_add(before)?,
                    count,
                })
            }
            Some(0) => Some(self.middle),
            Some(1) => Some(self.last),
            Some(_) => None,
        }
    }
}

/// What the codes of characters mean.
#[derive(Clone, Copy, Debug, PartialEq, Eq)]
pub enum Codes {
    /// A code is the number of a character.
    Numbers,
    /// A code is the index of a character among those of these ranges, in ascending order.
    Indices(Rows),
}

/// Characters of a message, one after another.
#[derive(Clone, Copy, Debug, PartialEq, Eq)]
pub struct Characters {
    /// The index of the first bit.
    pub at: usize,
    /// How many characters there are.
    pub count: usize,
    /// How many bits the code of each has.
    pub width: usize,
    /// What their codes mean.
    pub codes: Codes,
}

/// A part of a value. A value is a list of parts in the order of the type's text: each component of
/// a SEQUENCE, each item of a list and the alternative of a CHOICE follow their own part.
#[derive(Clone, Copy, Debug, PartialEq, Eq)]
pub enum Part {
    /// An optional component that is absent, or an addition.
    Absent,
    /// NULL.
    Null,
    /// BOOLEAN.
    Truth(bool),
    /// INTEGER: the value.
    Integer(i128),
    /// INTEGER: a number in the message, above the least value.
    Above {
        /// The least value.
        least: i128,
        /// The index of the number's first bit.
        at: usize,
        /// How many bits it has.
        count: u32,
    },
    /// INTEGER: octets of two's complement.
    Signed(Span),
    /// ENUMERATED: the index of the value in the type's table.
    Enumerated(usize),
    /// ENUMERATED: the index of an unknown value among the additions.
    UnknownEnumerated(Natural),
    /// BIT STRING.
    Bits(Span),
    /// BIT STRING, in fragments.
    BitsInFragments(Fragments),
    /// OCTET STRING, or another type whose value is its contents octets.
    Octets(Span),
    /// OCTET STRING, in fragments.
    OctetsInFragments(Fragments),
    /// A string of characters whose alphabet is known.
    Text(Characters),
    /// SEQUENCE or SET.
    Sequence {
        /// How many components of the root follow.
        count: usize,
        /// Whether additions follow them.
        is_extended: bool,
    },
    /// How many additions follow.
    Additions(usize),
    /// SEQUENCE OF or SET OF: how many items follow.
    Count(usize),
    /// CHOICE: the index of the alternative that follows.
    Chosen(usize),
    /// CHOICE: the index of an unknown alternative among the additions. Its octets follow.
    UnknownChosen(Natural),
    /// The octets of a value that the schema does not know.
    Unknown(Span),
}
