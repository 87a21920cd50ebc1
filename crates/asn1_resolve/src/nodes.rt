//! The node of each type.

use crate::alphabet::{push_ranges, whole_alphabet, within};
use crate::builder::{Builder, NO_ROWS};
use asn1_definitions::{Hull, Permitted, Place, Scope, permitted_by};
use asn1_notation::{Item, NotationError, Problem, Word};
use asn1_schema::{Bounds, Length, LowerBound, Node, Rows, TimeKind};

/// Sizes without a constraint.
const ANY_LENGTH: Length = Length::AtLeast { least: 0 };

/// Octets of any count.
const UNBOUNDED_OCTETS: Node = Node::OctetString {
    length: ANY_LENGTH,
    is_extensible: false,
};

/// Returns the bounds of two numbers. `None` if there is no number from the first to the second one.
fn bounds_of(least: i128, greatest: i128) -> Option<Bounds> {
    if greatest < least {
        return None;
    }
    let range = greatest.abs_diff(least);
    Some(Bounds { least, range })
}

/// Returns the effective size constraint of sizes (X.691 10.3), and whether it has an extension
/// marker. `None` if no size is permitted, or the least one is too large.
fn length_of(sizes: Option<Hull>) -> Option<(Length, bool)> {
    let Some(sizes) = sizes else {
        return Some((ANY_LENGTH, false));
    };
    let least = sizes.least.unwrap_or(0).max(0);
    if let Some(greatest) = sizes.greatest
        && greatest < 65_536
    {
        let least = u32::try_from(least).ok()?;
        let greatest = u32::try_from(greatest).ok()?;
        if greatest < least {
            return None;
        }
        let range = greatest - least;
        return Some((Length::Between { least, range }, sizes.is_extensible));
    }
    let least = usize::try_from(least).ok()?;
    Some((Length::AtLeast { least }, sizes.is_extensible))
}

/// Returns the name of a type that is not supported, of those that are one word.
fn unsupported(word: Option<Word>) -> &'static str {
    match word {
        Some(Word::External) => "EXTERNAL (X.680 37)",
        Some(Word::Embedded) => "EMBEDDED PDV (X.680 36)",
        Some(Word::Character) => "CHARACTER STRING (X.680 44)",
        Some(Word::Instance) => "INSTANCE OF (X.681 C)",
        Some(Word::Time) => "TIME (X.680 38)",
        Some(Word::Date) => "DATE (X.680 38)",
        Some(Word::TimeOfDay) => "TIME-OF-DAY (X.680 38)",
        Some(Word::DateTime) => "DATE-TIME (X.680 38)",
        Some(Word::Duration) => "DURATION (X.680 38)",
        _ => "this type",
    }
}

/// Returns the node of an INTEGER. `None` if its constraint has an extension marker and no lower
/// bound, or permits no value.
fn integer_of(values: Option<Hull>) -> Option<Node> {
    let Some(values) = values else {
        return Some(Node::Integer);
    };
    let is_extensible = values.is_extensible;
    match (values.least, values.greatest) {
        (Some(least), Some(greatest)) => Some(Node::IntegerBetween {
            bounds: bounds_of(least, greatest)?,
            is_extensible,
        }),
        (Some(least), None) => Some(Node::IntegerAtLeast {
            bound: LowerBound { least },
            is_extensible,
        }),
        _ if is_extensible => None,
        _ => Some(Node::Integer),
    }
}

impl<'m> Builder<'m> {
    /// Adds the node of a type that has one, and returns it with the rows of its values, if it is an
    /// ENUMERATED.
    pub(crate) fn node(
        &mut self,
        scope: Scope<'_>,
        place: Place,
    ) -> Result<(Node, Rows), NotationError> {
        let base = scope.base(place)?;
        let node = match scope.item(base) {
            Item::Enumerated => return self.enumerated(scope, base),
            Item::Sequence | Item::Set | Item::Choice => self.components(scope, base)?,
            Item::ObjectIdentifier => Node::ObjectIdentifier,
            // PER encodes an open type as the octets of its value (X.691 11.2.1).
            Item::FieldType if scope.is_open(base) => UNBOUNDED_OCTETS,
            Item::FieldType => Node::ObjectIdentifier,
            Item::Broken => Node::Null,
            Item::Class | Item::Braces => return Err(scope.error(Problem::NotA("a type"), place)),
            Item::Plain => self.one_word(scope, place, base)?,
            _ => self.constrained(scope, place, base)?,
        };
        Ok((node, NO_ROWS))
    }

    /// Returns the node of an INTEGER, a string of bits or octets, or a list.
    fn constrained(
        &mut self,
        scope: Scope<'_>,
        place: Place,
        base: Place,
    ) -> Result<Node, NotationError> {
        let permitted = permitted_by(scope, place)?;
        if scope.item(base) == Item::Integer {
            let feature = "an extension marker without a lower bound of an INTEGER (X.691 13.1)";
            return integer_of(permitted.values).ok_or(scope.error(
                Problem::Unsupported(feature),
                place,
            ));
        }
        let Some((length, is_extensible)) = length_of(permitted.sizes) else {
            return Err(scope.error(Problem::Empty, place));
        };
        Ok(match scope.item(base) {
            Item::BitString => Node::BitString {
                length,
                is_extensible,
                has_names: scope.find_in(base, Item::Name).is_some(),
            },
            Item::SequenceOf => Node::SequenceOf {
                length,
                is_extensible,
                item: self.used_node(scope, scope.type_in(base), None, false)?,
            },
            Item::SetOf => Node::SetOf {
                length,
                is_extensible,
                item: self.used_node(scope, scope.type_in(base), None, false)?,
            },
            _ => Node::OctetString {
                length,
                is_extensible,
            },
        })
    }

    /// Returns the node of a type that is one word.
    fn one_word(
        &mut self,
        scope: Scope<'_>,
        place: Place,
        base: Place,
    ) -> Result<Node, NotationError> {
        let word = scope.entry(base.index).word;
        Ok(match word {
            Some(Word::Null) => Node::Null,
            Some(Word::Boolean) => Node::Boolean,
            Some(Word::RelativeOid) => Node::RelativeIdentifier,
            // Both are encoded as the UTF8String of their text (X.690 8.21, 8.22, X.691 26, 27).
            Some(Word::Utf8String | Word::OidIri | Word::RelativeOidIri) => Node::Utf8String,
            Some(Word::Real) => Node::Real,
            Some(Word::UtcTime) => Node::Time {
                kind: TimeKind::Utc,
            },
            Some(Word::GeneralizedTime) => Node::Time {
                kind: TimeKind::Generalized,
            },
            Some(
                Word::TeletexString
                | Word::T61String
                | Word::VideotexString
                | Word::GraphicString
                | Word::GeneralString
                | Word::ObjectDescriptor,
            ) => UNBOUNDED_OCTETS,
            // PER encodes an open type as the octets of its value (X.691 11.2.1).
            Some(Word::Any) => UNBOUNDED_OCTETS,
            _ => {
                let Some(whole) = word.and_then(whole_alphabet) else {
                    return Err(scope.error(Problem::Unsupported(unsupported(word)), place));
                };
                let permitted = permitted_by(scope, place)?;
                return self.text(scope, place, whole, permitted);
            }
        })
    }

    /// Returns the node of a string of characters, and adds the ranges of its alphabet.
    fn text(
        &mut self,
        scope: Scope<'_>,
        place: Place,
        whole: Rows,
        permitted: Permitted,
    ) -> Result<Node, NotationError> {
        let Some((length, is_extensible)) = length_of(permitted.sizes) else {
            return Err(scope.error(Problem::Empty, place));
        };
        let alphabet = match permitted.alphabet {
            None => whole,
            Some(characters) => {
                let characters = within(characters, whole);
                if characters.is_empty() {
                    return Err(scope.error(Problem::Empty, place));
                }
                push_ranges(&mut self.ranges, characters)
            }
        };
        Ok(Node::Text {
            length,
            is_extensible,
            alphabet,
            whole,
        })
    }
}
