//! What exports return.

ghost use Rattle.std.specs.Prelude.{◌≡◌};
ghost use Rattle.asn1_c.specs.Codes.{order_number};

use std::cmp::Ordering;

/// It is done.
pub const DONE: u32 = 0;

/// Bits do not all lie in their octets.
pub const OUTSIDE: u32 = 1;

/// A width is over what the call reads.
pub const WIDTH: u32 = 2;

/// The caller's room is too small.
pub const ROOM: u32 = 3;

/// There are no octets.
pub const EMPTY: u32 = 4;

/// The number does not fit.
pub const OVERFLOW: u32 = 5;

/// The octets are the contents of no identifier, however large its arcs.
pub const MALFORMED: u32 = 6;

/// The octets are the contents of an identifier, one of whose arcs exceeds 32 bits.
pub const ARC_TOO_LARGE: u32 = 7;

/// The arcs are not those of an identifier (X.660).
pub const ARCS: u32 = 8;

/// There is one arc, which has no contents.
pub const ARC_COUNT: u32 = 9;

/// The number names none of the eight strings (X.680 41).
pub const KIND: u32 = 10;

/// The octets are not whole characters.
pub const ODD: u32 = 11;

/// A character is not in the set.
pub const CHARACTER: u32 = 12;

/// The permitted set has more than 2 to the power of 32 characters.
pub const SET: u32 = 13;

/// The number is the code of no character.
pub const CODE: u32 = 14;

/// The octets end before a field or an element does.
pub const SHORT: u32 = 15;

/// The octets are not the dotted text of an identifier whose arcs all fit 32 bits.
pub const TEXT: u32 = 16;

/// A field is not as long as its shape says.
pub const LENGTH: u32 = 17;

/// There are not as many fields as shapes.
pub const COUNT: u32 = 18;

/// The octets are not the shortest of a number (X.690 8.3.2).
pub const NOT_SHORTEST: u32 = 19;

/// A counted integer has no octets, or more than 127.
pub const OCTET_COUNT: u32 = 20;

/// A shape's kind is unknown, or there is no alphabet at the index that it has.
pub const SHAPE: u32 = 21;

/// A struct is no alphabet as `asn1v_alphabet_new` fills it.
pub const ALPHABET: u32 = 22;

/// There are more bits, or more octets, than `usize` counts.
pub const TOO_MANY: u32 = 23;

/// The octets are not the decimal text of a number.
pub const DECIMAL: u32 = 24;

/// The characters of the string are not those of Unicode.
pub const NO_UNICODE: u32 = 25;

/// A character is a surrogate, which UTF-8 has no octets for.
pub const SURROGATE: u32 = 26;

/// The octets are not UTF-8.
pub const NOT_UTF8: u32 = 27;

/// The number of a tag or a length has more octets than it needs (X.690 8.1.2.4.2, 10.1).
pub const NOT_MINIMAL: u32 = 28;

/// A length is indefinite, which DER does not allow (X.690 10.1).
pub const INDEFINITE: u32 = 29;

/// The first octet of a length is reserved (X.690 8.1.3.5).
pub const RESERVED: u32 = 30;

/// The number of a tag does not fit 64 bits.
pub const TAG_LARGE: u32 = 31;

/// The contents octets encode no value of the type.
pub const CONTENTS: u32 = 32;

/// Returns below, equal and above as -1, 0 and 1.
pub(crate) fn number_of_order(order: Ordering) -> i32
    ensures { result ≡ order_number order }
{
    match order {
        Ordering::Less => -1,
        Ordering::Equal => 0,
        Ordering::Greater => 1,
    }
}
