//! Why a value is not encoded, in words.

use asn1_schema::{MisfitKind, Part};
use asn1_x691_writers::Rejection;
use std::fmt;

/// Why a part is not encoded. Its `Display` says so in words.
#[derive(Clone, Copy, Debug)]
pub struct Reason {
    /// Why.
    pub rejection: Rejection,
    /// Whether the part is so long that its length would be in fragments (X.691 11.9.3.8), which are
    /// not encoded for each type.
    pub is_long: bool,
}

/// From this length on, a length without an upper bound is in fragments (X.691 11.9.3.8).
const FRAGMENT: usize = 16_384;

/// Returns whether a part has enough items, characters, octets or bits for a length in fragments.
pub fn is_long(part: Part) -> bool {
    match part {
        Part::Count(count) => count >= FRAGMENT,
        Part::Bits(span) => span.count >= FRAGMENT,
        Part::Octets(span) => span.count / 8 >= FRAGMENT,
        Part::Text(characters) => characters.count >= FRAGMENT,
        _ => false,
    }
}

/// Returns what does not fit, in words.
fn words_of<'a>(kind: MisfitKind) -> &'a str {
    match kind {
        MisfitKind::NoPart => "the value is incomplete",
        MisfitKind::OtherPart => "the value is of another type",
        MisfitKind::NoEncoding => "the value is not permitted by its type",
        MisfitKind::NoAddition => "no addition is present",
        MisfitKind::DefaultValue => "the default value is present",
        MisfitKind::NotAscending => "the items of a SET OF are not in ascending order",
        MisfitKind::Unsupported => "the value exceeds a limit of the encoder",
        MisfitKind::NoNode => "the schema has no such type",
        MisfitKind::TooDeep => "the value is nested too deep",
    }
}

impl fmt::Display for Reason {
    fn fmt<W: fmt::Write>(&self, f: &mut fmt::Formatter<W>) -> fmt::Result {
        match self.rejection {
            Rejection::Misfit(MisfitKind::NoEncoding) if self.is_long => {
                f.write_str("the value is not permitted by its type, or is too long to be encoded")
            }
            Rejection::Misfit(kind) => f.write_str(words_of(kind)),
            Rejection::Unsupported => f.write_str("the value is not supported yet"),
            Rejection::NoRoom => f.write_str("the value exceeds the room of the encoder"),
        }
    }
}
