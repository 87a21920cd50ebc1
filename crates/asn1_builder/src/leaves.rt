//! Values of one part.

ghost use Rattle.std.specs.Prelude.{◌≡◌, length};
ghost use Rattle.asn1_schema.specs.declared.part.Part.TheVariants as part;
ghost use Rattle.asn1_builder.specs.declared.kind.Kind.TheVariants as kind;
ghost use Rattle.asn1_builder.specs.Drafts.{draft_of, expected_type};
ghost use Rattle.asn1_builder.specs.Steps.{IsStep, are_few, bit_string, expected_of, leaf, octet_string, span_after, string as string_of, string_part as part_in};

use crate::append::MOST_OCTETS;
use crate::builder::Builder;
use crate::error::BuildError;
use crate::kind::{Kind, is_of_kind};
use asn1_schema::{Part, Span};

/// Returns the part of a value that is in octets of its own.
fn string_part(kind: Kind, span: Span) -> Part
    ensures { result ≡ part_in kind span }
{
    match kind {
        Kind::Unbounded => Part::Signed(span),
        Kind::Bits => Part::Bits(span),
        _ => Part::Octets(span),
    }
}

impl<'s> Builder<'s> {
    /// Returns an error unless the next value is of a type of a kind.
    pub(crate) fn expect(&self, kind: Kind) -> Result<(), BuildError>
        ensures { result ≡ expected_of kind (expected_type (draft_of self.now)) }
    {
        let node = self.expected()?;
        if is_of_kind(kind, &node) {
            Ok(())
        } else {
            Err(BuildError::OtherType)
        }
    }

    /// Returns the span that `bits` bits have in octets that are appended.
    pub(crate) fn span_of(&self, bits: usize) -> Span
        ensures { result ≡ span_after (draft_of self.now) bits }
    {
        Span {
            at: 8 * self.octets.len(),
            count: bits,
        }
    }

    /// Returns whether there is room for `more` octets.
    pub(crate) fn has_room(&self, more: usize) -> bool
        ensures { result ≡ are_few (draft_of self.now) more }
    {
        more <= MOST_OCTETS - self.octets.len()
    }

    /// Appends a value of one part.
    fn leaf(&mut self, kind: Kind, part: Part) -> Result<(), BuildError>
        ensures { IsStep (leaf kind part (draft_of self.old)) result (draft_of self.old) (draft_of self.new) }
    {
        self.expect(kind)?;
        self.put(part, &[])
    }

    /// Appends the first `bits` bits of octets.
    fn string(&mut self, kind: Kind, bits: usize, octets: &[u8]) -> Result<(), BuildError>
        ensures { IsStep (string_of kind bits octets.now (draft_of self.old)) result
            (draft_of self.old) (draft_of self.new) }
    {
        self.expect(kind)?;
        if !self.has_room(octets.len()) {
            return Err(BuildError::TooLong);
        }
        let span = self.span_of(bits);
        self.put(string_part(kind, span), octets)
    }

    /// Appends a value of whole octets.
    pub(crate) fn octet_string(&mut self, kind: Kind, octets: &[u8]) -> Result<(), BuildError>
        ensures { IsStep (octet_string kind octets.now (draft_of self.old)) result
            (draft_of self.old) (draft_of self.new) }
    {
        self.string(kind, octets.len().saturating_mul(8), octets)
    }

    /// Appends NULL.
    ///
    /// # Errors
    ///
    /// Returns [`BuildError::NoValue`] if no value may come next, [`BuildError::NoNode`] if the tables do not
    /// have its type, [`BuildError::OtherType`] if the next value is no NULL, or [`BuildError::Memory`] if out
    /// of memory. Nothing has changed then.
    pub fn null(&mut self) -> Result<(), BuildError>
        ensures { IsStep (leaf kind.Null part.Null (draft_of self.old)) result
            (draft_of self.old) (draft_of self.new) }
    {
        self.leaf(Kind::Null, Part::Null)
    }

    /// Appends a BOOLEAN.
    ///
    /// # Errors
    ///
    /// Returns [`BuildError::NoValue`] if no value may come next, [`BuildError::NoNode`] if the tables do not
    /// have its type, [`BuildError::OtherType`] if the next value is no BOOLEAN, or [`BuildError::Memory`] if
    /// out of memory. Nothing has changed then.
    pub fn boolean(&mut self, value: bool) -> Result<(), BuildError>
        ensures { IsStep (leaf kind.Boolean (part.Truth value) (draft_of self.old)) result
            (draft_of self.old) (draft_of self.new) }
    {
        self.leaf(Kind::Boolean, Part::Truth(value))
    }

    /// Appends an INTEGER.
    ///
    /// # Errors
    ///
    /// Returns [`BuildError::NoValue`] if no value may come next, [`BuildError::NoNode`] if the tables do not
    /// have its type, [`BuildError::OtherType`] if the next value is no INTEGER, or [`BuildError::Memory`] if
    /// out of memory. Nothing has changed then.
    pub fn integer(&mut self, value: i128) -> Result<(), BuildError>
        ensures { IsStep (leaf kind.Integer (part.Integer value) (draft_of self.old)) result
            (draft_of self.old) (draft_of self.new) }
    {
        self.leaf(Kind::Integer, Part::Integer(value))
    }

    /// Appends a value of an ENUMERATED, by its index in the type's table: the values of its root in ascending
    /// order of their numbers, and then its additions.
    ///
    /// # Errors
    ///
    /// Returns [`BuildError::NoValue`] if no value may come next, [`BuildError::NoNode`] if the tables do not
    /// have its type, [`BuildError::OtherType`] if the next value is no ENUMERATED, or [`BuildError::Memory`]
    /// if out of memory. Nothing has changed then.
    pub fn enumerated(&mut self, index: usize) -> Result<(), BuildError>
        ensures { IsStep (leaf kind.Enumerated (part.Enumerated index) (draft_of self.old)) result
            (draft_of self.old) (draft_of self.new) }
    {
        self.leaf(Kind::Enumerated, Part::Enumerated(index))
    }

    /// Appends an OCTET STRING. The value of an open type that depends on other components is one too: an
    /// encoding of its contents.
    ///
    /// # Errors
    ///
    /// Returns [`BuildError::NoValue`] if no value may come next, [`BuildError::NoNode`] if the tables do not
    /// have its type, [`BuildError::OtherType`] if the next value is no OCTET STRING, [`BuildError::TooLong`]
    /// if the whole value would have 2^61 octets or more, or [`BuildError::Memory`] if out of memory. Nothing
    /// has changed then.
    pub fn octets(&mut self, octets: &[u8]) -> Result<(), BuildError>
        ensures { IsStep (octet_string kind.Octets octets.now (draft_of self.old)) result
            (draft_of self.old) (draft_of self.new) }
    {
        self.octet_string(Kind::Octets, octets)
    }

    /// Appends an OBJECT IDENTIFIER by its contents octets (X.690 8.19).
    ///
    /// # Errors
    ///
    /// Returns [`BuildError::NoValue`] if no value may come next, [`BuildError::NoNode`] if the tables do not
    /// have its type, [`BuildError::OtherType`] if the next value is no OBJECT IDENTIFIER,
    /// [`BuildError::TooLong`] if the whole value would have 2^61 octets or more, or [`BuildError::Memory`] if
    /// out of memory. Nothing has changed then.
    pub fn object_identifier(&mut self, octets: &[u8]) -> Result<(), BuildError>
        ensures { IsStep (octet_string kind.ObjectIdentifier octets.now (draft_of self.old)) result
            (draft_of self.old) (draft_of self.new) }
    {
        self.octet_string(Kind::ObjectIdentifier, octets)
    }

    /// Appends a RELATIVE-OID by its contents octets (X.690 8.20).
    ///
    /// # Errors
    ///
    /// Returns [`BuildError::NoValue`] if no value may come next, [`BuildError::NoNode`] if the tables do not
    /// have its type, [`BuildError::OtherType`] if the next value is no RELATIVE-OID, [`BuildError::TooLong`]
    /// if the whole value would have 2^61 octets or more, or [`BuildError::Memory`] if out of memory. Nothing
    /// has changed then.
    pub fn relative_identifier(&mut self, octets: &[u8]) -> Result<(), BuildError>
        ensures { IsStep (octet_string kind.RelativeIdentifier octets.now (draft_of self.old)) result
            (draft_of self.old) (draft_of self.new) }
    {
        self.octet_string(Kind::RelativeIdentifier, octets)
    }

    /// Appends a REAL by its contents octets in canonical form (X.690 8.5, 11.3).
    ///
    /// # Errors
    ///
    /// Returns [`BuildError::NoValue`] if no value may come next, [`BuildError::NoNode`] if the tables do not
    /// have its type, [`BuildError::OtherType`] if the next value is no REAL, [`BuildError::TooLong`] if the
    /// whole value would have 2^61 octets or more, or [`BuildError::Memory`] if out of memory. Nothing has
    /// changed then.
    pub fn real(&mut self, octets: &[u8]) -> Result<(), BuildError>
        ensures { IsStep (octet_string kind.Real octets.now (draft_of self.old)) result
            (draft_of self.old) (draft_of self.new) }
    {
        self.octet_string(Kind::Real, octets)
    }

    /// Appends an INTEGER of a type without a lower bound, by the octets of its two's complement (X.690 8.3).
    ///
    /// # Errors
    ///
    /// Returns [`BuildError::NoValue`] if no value may come next, [`BuildError::NoNode`] if the tables do not
    /// have its type, [`BuildError::OtherType`] if the next value is no such INTEGER, [`BuildError::TooLong`]
    /// if the whole value would have 2^61 octets or more, or [`BuildError::Memory`] if out of memory. Nothing
    /// has changed then.
    pub fn signed_octets(&mut self, octets: &[u8]) -> Result<(), BuildError>
        ensures { IsStep (octet_string kind.Unbounded octets.now (draft_of self.old)) result
            (draft_of self.old) (draft_of self.new) }
    {
        self.octet_string(Kind::Unbounded, octets)
    }

    /// Appends a BIT STRING: the first `count` bits of octets.
    ///
    /// If the bits of the type have names, an encoder rejects zeros at the end that the size of the type does
    /// not require.
    ///
    /// # Errors
    ///
    /// Returns [`BuildError::TooShort`] if the octets have fewer than `count` bits, [`BuildError::NoValue`] if
    /// no value may come next, [`BuildError::NoNode`] if the tables do not have its type,
    /// [`BuildError::OtherType`] if the next value is no BIT STRING, [`BuildError::TooLong`] if the whole
    /// value would have 2^61 octets or more, or [`BuildError::Memory`] if out of memory. Nothing has changed
    /// then.
    pub fn bits(&mut self, octets: &[u8], count: usize) -> Result<(), BuildError>
        ensures { IsStep (bit_string count octets.now (draft_of self.old)) result
            (draft_of self.old) (draft_of self.new) }
    {
        if count as u128 > 8 * octets.len() as u128 {
            return Err(BuildError::TooShort);
        }
        self.string(Kind::Bits, count, octets)
    }
}
