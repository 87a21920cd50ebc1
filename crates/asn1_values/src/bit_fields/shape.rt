//! Shapes of fields.

ghost use Rattle.std.specs.Prelude.{◌≡◌, Bool, List, length, IfSome};
ghost use Rattle.asn1_values.specs.Fields as plain;
ghost use Rattle.asn1_values.specs.Fields.{IsOfShape, IsSpelledBy, HasShape, need};
ghost use Rattle.asn1_values.specs.Plain.{plain_field, plain_shape};

use super::field::Field;
use asn1_alphabets::CharacterAlphabet;

/// What a reader must know of a field: its kind, and its width, count or alphabet.
#[derive(Clone, Copy, Debug)]
pub enum Shape<'s> {
    /// A number of `width` bits.
    Number { width: usize },
    /// `count` octets.
    Octets { count: usize },
    /// `length` bits.
    Bits { length: usize },
    /// An integer of `octets` octets, the shortest of the number.
    Integer { octets: usize },
    /// A character of the alphabet.
    Character { alphabet: CharacterAlphabet<'s> },
    /// An integer after an octet that counts its octets.
    CountedInteger,
    /// An identifier whose contents have `octets` octets.
    Oid { octets: usize },
}

/// Returns the shape of the field.
///
/// The number of octets of an identifier's contents must fit `usize`.
pub fn shape_of<'s>(field: &Field<'_, 's>) -> Shape<'s>
    // The octets of an identifier's contents are so few that their number fits `usize`.
    requires { HasShape (plain_field field.now) }
    ensures shape { IsOfShape (plain_field field.now) (plain_shape result) }
    // If `need` of the shape is `Some n`, every encoding of the field has exactly n bits.
    ensures need { IfSome (need (plain_shape result)) (λ n. (field : plain.Field) (list : List Bool)
        → IsOfShape field (plain_shape result) → IsSpelledBy field list → length list ≡ n) }
{
    match field {
        Field::Number { width, .. } => Shape::Number { width: *width },
        Field::Octets(octets) => Shape::Octets {
            count: octets.as_ref().len(),
        },
        Field::Bits(bits) => Shape::Bits { length: bits.len() },
        Field::Integer(number) => Shape::Integer {
            octets: number.signed_len(),
        },
        Field::Character { alphabet, .. } => Shape::Character {
            alphabet: *alphabet,
        },
        Field::CountedInteger(_) => Shape::CountedInteger,
        Field::Oid(oid) => Shape::Oid {
            octets: oid.as_oid().contents_len().unwrap_or(0) as usize,
        },
    }
}
