//! Tags (X.680 8), and those that the encoding of a type can begin with.

use crate::scope::{Place, Scope};
use asn1_notation::{Item, NotationError, Problem, Word};

/// A tag. Tags are in the canonical order of X.680 8.6.
#[derive(Clone, Copy, PartialEq, Eq)]
pub struct Tag {
    /// The order of its class: universal, application, context-specific, private.
    class: u8,
    /// Its number.
    number: u32,
}

/// Returns a tag of the class universal.
fn universal(number: u32) -> Tag {
    Tag { class: 0, number }
}

/// Returns a tag of the class context-specific with a number.
pub fn context(number: u32) -> Tag {
    Tag { class: 2, number }
}

impl Tag {
    /// Returns a number that is greater for a later tag in the canonical order (X.680 8.6).
    pub fn order(self) -> u64 {
        (u64::from(self.class) << 32) | u64::from(self.number)
    }
}

/// Returns the tag of a type that is one word (X.680 8.4). `None` if there is none.
fn tag_of_word(word: Word) -> Option<Tag> {
    Some(universal(match word {
        Word::Boolean => 1,
        Word::Null => 5,
        Word::ObjectDescriptor => 7,
        Word::External => 8,
        Word::Real => 9,
        Word::Utf8String => 12,
        Word::RelativeOid => 13,
        Word::Time => 14,
        Word::NumericString => 18,
        Word::PrintableString => 19,
        Word::TeletexString | Word::T61String => 20,
        Word::VideotexString => 21,
        Word::Ia5String => 22,
        Word::UtcTime => 23,
        Word::GeneralizedTime => 24,
        Word::GraphicString => 25,
        Word::VisibleString | Word::Iso646String => 26,
        Word::GeneralString => 27,
        Word::UniversalString => 28,
        Word::BmpString => 30,
        Word::Date => 31,
        Word::TimeOfDay => 32,
        Word::DateTime => 33,
        Word::Duration => 34,
        Word::OidIri => 35,
        Word::RelativeOidIri => 36,
        _ => return None,
    }))
}

impl<'r> Scope<'r> {
    /// Returns the tag of a type that is no name and no CHOICE. `None` if it has none.
    ///
    /// # Errors
    ///
    /// Returns [`Problem::Expected`] if the type has a tag without a number, the errors of
    /// [`Self::number`] for its number, or [`Problem::TooLarge`] if 32 bits do not hold the number.
    pub fn tag_of(self, place: Place) -> Result<Option<Tag>, NotationError> {
        let entry = self.entry(place.index);
        Ok(match entry.item {
            Item::Tagged => Some(self.written_tag(place)?),
            Item::Plain => match entry.word {
                Some(word) => tag_of_word(word),
                None => None,
            },
            Item::Integer => Some(universal(2)),
            Item::BitString => Some(universal(3)),
            Item::OctetString => Some(universal(4)),
            Item::ObjectIdentifier => Some(universal(6)),
            Item::FieldType if !self.is_open(place) => Some(universal(6)),
            Item::Enumerated => Some(universal(10)),
            Item::Sequence | Item::SequenceOf => Some(universal(16)),
            Item::Set | Item::SetOf => Some(universal(17)),
            _ => None,
        })
    }

    /// Returns the tag that is written before a type.
    fn written_tag(self, place: Place) -> Result<Tag, NotationError> {
        let class = match self.entry(place.index).word {
            Some(Word::Universal) => 0,
            Some(Word::Application) => 1,
            Some(Word::Private) => 3,
            _ => 2,
        };
        let Some(value) = self.value_in(place) else {
            return Err(self.error(Problem::Expected("a number"), place));
        };
        match u32::try_from(self.number(value, None)?) {
            Ok(number) => Ok(Tag { class, number }),
            Err(_) => Err(self.error(Problem::TooLarge, value)),
        }
    }

    /// Returns whether the components of a type have automatic tags: its module has AUTOMATIC TAGS,
    /// and no component is written with a tag (X.680 25.3, 29.2).
    pub fn is_automatic(self, place: Place) -> bool {
        if self.entry(place.module).word != Some(Word::Automatic) {
            return false;
        }
        let mut inside = self.inside(place);
        for _ in 0..self.most() {
            let Some(index) = inside.next_in_groups(self.tape) else {
                break;
            };
            let component = Place { index, ..place };
            if self.item(component) == Item::Component
                && self.item(self.type_in(component)) == Item::Tagged
            {
                return false;
            }
        }
        true
    }

    /// Returns whether the components of a type have an extension marker: one is written, or its
    /// module implies it (X.680 13.4).
    pub fn is_extensible(self, place: Place) -> bool {
        self.find_in(place, Item::Ellipsis).is_some() || self.implies_extensions(place)
    }

    /// Returns whether the module of an entry has EXTENSIBILITY IMPLIED, which is its first entry.
    fn implies_extensions(self, place: Place) -> bool {
        self.entry(place.module.saturating_add(1)).item == Item::ExtensibilityImplied
    }
}
