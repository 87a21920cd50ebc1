//! Values without components: what their part says.

ghost use Rattle.std.specs.Prelude.{◌≡◌, ◌+◌, ◌*◌, ◌<◌, List, ℕ, length, MatchOption, Option, Some};
ghost use Rattle.asn1_schema.specs.declared.part.Span.{Span};
ghost use Rattle.asn1_bits.specs.BitStr.{view_of};
ghost use Rattle.asn1_schema_values.specs.Leaves.{is_absent_part, truth_in, integer_in, enumerated_in, bits_in, octets_in, signed_in};
ghost use Rattle.asn1_schema_values.specs.Values.{part_of};

use crate::value::Value;
use asn1_bits::BitStr;
use asn1_schema::{Part, Span};

impl<'v> Value<'v> {
    /// Returns whether the value is an absent component.
    pub fn is_absent(&self) -> bool
        ensures { result ≡ is_absent_part (part_of self.now) }
    {
        match self.message.parts.get(self.at) {
            Some(Part::Absent) => true,
            _ => false,
        }
    }

    /// Returns a BOOLEAN. `None` for another value.
    pub fn as_bool(&self) -> Option<bool>
        ensures { result ≡ truth_in (part_of self.now) }
    {
        match *self.message.parts.get(self.at)? {
            Part::Truth(value) => Some(value),
            _ => None,
        }
    }

    /// Returns the number of an INTEGER that is a [`Part::Integer`](asn1_schema::Part::Integer).
    /// `None` for another part, also for an INTEGER whose digits are bits of the message.
    pub fn as_i128(&self) -> Option<i128>
        ensures { result ≡ integer_in (part_of self.now) }
    {
        match *self.message.parts.get(self.at)? {
            Part::Integer(value) => Some(value),
            _ => None,
        }
    }

    /// Returns the index of the value of an ENUMERATED in its type's table. `None` for another
    /// value.
    pub fn as_enumerated(&self) -> Option<usize>
        ensures { result ≡ enumerated_in (part_of self.now) }
    {
        match *self.message.parts.get(self.at)? {
            Part::Enumerated(index) => Some(index),
            _ => None,
        }
    }

    /// Returns the bits of a BIT STRING. `None` for another value, or if they are not in the octets
    /// of the message.
    pub fn as_bits(&self) -> Option<BitStr<'v>>
        ensures { MatchOption result
            ((s : Span) → bits_in (part_of self.now) ≡ Some s
            → 8 * length self.now.message.now.octets.now < s.at + s.count)
            (λ b. (s : Span) × (bits_in (part_of self.now) ≡ Some s)
            × (view_of b ≡ record {
              storage = self.now.message.now.octets.now;
              first = s.at;
              len = s.count;
            })) }
    {
        match *self.message.parts.get(self.at)? {
            Part::Bits(span) => self.bits_of(span),
            _ => None,
        }
    }

    /// Returns the bits of an OCTET STRING, or of the contents octets of an OBJECT IDENTIFIER, a
    /// RELATIVE-OID or a UTF8String. `None` for another value, for octets in fragments, or if they
    /// are not in the octets of the message.
    pub fn as_octets(&self) -> Option<BitStr<'v>>
        ensures { MatchOption result
            ((s : Span) → octets_in (part_of self.now) ≡ Some s
            → 8 * length self.now.message.now.octets.now < s.at + s.count)
            (λ b. (s : Span) × (octets_in (part_of self.now) ≡ Some s)
            × (view_of b ≡ record {
              storage = self.now.message.now.octets.now;
              first = s.at;
              len = s.count;
            })) }
    {
        match *self.message.parts.get(self.at)? {
            Part::Octets(span) => self.bits_of(span),
            _ => None,
        }
    }

    /// Returns the octets of the two's complement of an INTEGER whose type has no lower bound.
    /// `None` for another value, or if they are not in the octets of the message.
    pub fn as_signed_octets(&self) -> Option<BitStr<'v>>
        ensures { MatchOption result
            ((s : Span) → signed_in (part_of self.now) ≡ Some s
            → 8 * length self.now.message.now.octets.now < s.at + s.count)
            (λ b. (s : Span) × (signed_in (part_of self.now) ≡ Some s)
            × (view_of b ≡ record {
              storage = self.now.message.now.octets.now;
              first = s.at;
              len = s.count;
            })) }
    {
        match *self.message.parts.get(self.at)? {
            Part::Signed(span) => self.bits_of(span),
            _ => None,
        }
    }

    fn bits_of(&self, span: Span) -> Option<BitStr<'v>>
        ensures { MatchOption result (8 * length self.now.message.now.octets.now < span.at + span.count)
            (λ b. view_of b ≡ record {
              storage = self.now.message.now.octets.now;
              first = span.at;
              len = span.count;
            }) }
    {
        BitStr::new(self.message.octets, span.at, span.count)
    }
}
