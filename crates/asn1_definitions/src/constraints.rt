//! What the constraints of a type permit, as the packed encoding rules see them (X.691 10.3).

use crate::characters::{CharacterSet, NO_CHARACTERS};
use crate::names::MAX_STEPS;
use crate::permitted::{ALL_NUMBERS, EVERYTHING, Hull, Permitted};
use crate::scope::{Place, Scope};
use asn1_notation::{Item, NotationError, Problem, Word};
use std::str;

/// How many steps the constraints of one type may take.
const MAX_WORK: usize = 1 << 20;

/// What the values of a constraint are.
#[derive(Clone, Copy, PartialEq, Eq)]
pub(crate) enum Role {
    /// Values of an INTEGER, whose names of numbers they can use, or sizes.
    Numbers(Option<Place>),
    /// Characters, up to the greatest of their type.
    Characters { greatest: u32 },
    /// Values of another type. No encoding depends on them. Its characters, if it has any, have a greatest.
    Others { greatest: u32 },
}

/// Returns the role of the values of a type without a name.
fn role_of(scope: Scope<'_>, base: Place) -> Role {
    match scope.item(base) {
        Item::Integer => Role::Numbers(Some(base)),
        _ => Role::Others {
            greatest: match scope.entry(base.index).word {
                Some(Word::BmpString) => 0xFFFF,
                Some(Word::UniversalString) => u32::MAX,
                _ => 127,
            },
        },
    }
}

/// The steps that are left.
#[derive(Drop)]
pub(crate) struct Work {
    pub(crate) left: usize,
}

/// Returns what the constraints of a type permit (X.691 10.3), with those of the types that it refers
/// to.
///
/// # Errors
///
/// Returns the first error: that of a name or a number, [`Problem::Expected`] for a value of another
/// kind, [`Problem::Empty`] for a constraint that permits nothing, [`Problem::Circular`] if the
/// definitions do not end, or [`Problem::Unsupported`] for a FROM with more than 16 ranges of characters
/// outside of ASCII.
pub fn permitted_by(scope: Scope<'_>, place: Place) -> Result<Permitted, NotationError> {
    let mut work = Work { left: MAX_WORK };
    let permitted = scope.permitted(place, &mut work, MAX_STEPS)?;
    match permitted.alphabet {
        Some(characters) if characters.is_too_large() => {
            let feature =
                "FROM with more than 16 ranges of characters outside of ASCII (X.680 51.7)";
            Err(scope.error(Problem::Unsupported(feature), place))
        }
        _ => Ok(permitted),
    }
}

impl<'r> Scope<'r> {
    /// Returns one end of a range. `None` is MIN or MAX.
    fn range_end(
        self,
        place: Place,
        governor: Option<Place>,
    ) -> Result<Option<i128>, NotationError> {
        match self.entry(place.index).word {
            Some(Word::Min | Word::Max) => Ok(None),
            _ => Ok(Some(self.number(place, governor)?)),
        }
    }

    /// Returns the numbers of a value or a range.
    pub(crate) fn numbers(
        self,
        place: Place,
        governor: Option<Place>,
    ) -> Result<Hull, NotationError> {
        let (first, last) = self.ends(place);
        let Some(last) = last else {
            let number = self.number(first, governor)?;
            return Ok(Hull {
                least: Some(number),
                greatest: Some(number),
                is_extensible: false,
            });
        };
        let mut found = Hull {
            least: self.range_end(first, governor)?,
            greatest: self.range_end(last, governor)?,
            ..ALL_NUMBERS
        };
        if self.find_in(place, Item::Above).is_some() {
            found.least = found.least.map(|n| n.saturating_add(1));
        }
        if self.find_in(place, Item::Below).is_some() {
            found.greatest = found.greatest.map(|n| n.saturating_sub(1));
        }
        Ok(found)
    }

    /// Returns the first value of a range, and the last one. `None` if there is one value alone.
    fn ends(self, place: Place) -> (Place, Option<Place>) {
        let mut first = None;
        let mut inside = self.inside(place);
        for _ in 0..self.most() {
            let Some(index) = inside.next(self.tape) else {
                break;
            };
            let value = Place { index, ..place };
            if !self.item(value).is_value() {
                continue;
            }
            match first {
                None => first = Some(value),
                Some(first) => return (first, Some(value)),
            }
        }
        (first.unwrap_or(place), None)
    }

    /// Returns the characters of a string or of a range of characters.
    fn characters(self, place: Place, greatest: u32) -> Result<CharacterSet, NotationError> {
        let (first, last) = self.ends(place);
        let Some(last) = last else {
            return self.characters_in(first);
        };
        let least = match self.entry(first.index).word {
            Some(Word::Min) => 0,
            _ => self.character(first)?,
        };
        let greatest = match self.entry(last.index).word {
            Some(Word::Max) => greatest,
            _ => self.character(last)?,
        };
        Ok(CharacterSet::between(least, greatest))
    }

    /// Returns the characters of a value: a string, a character by its number, or a list of these.
    fn characters_in(self, place: Place) -> Result<CharacterSet, NotationError> {
        let value = self.text_value(place)?;
        if self.item(value) == Item::Text || self.character_of(value).is_some() {
            return self.characters_of_one(value);
        }
        let mut found = NO_CHARACTERS;
        let mut inside = self.inside(value);
        for _ in 0..self.most() {
            let Some(index) = inside.next(self.tape) else {
                break;
            };
            let piece = Place { index, ..value };
            if self.item(piece) != Item::Comma {
                found = found.or(self.characters_of_one(self.text_value(piece)?)?);
            }
        }
        Ok(found)
    }

    /// Returns the text of a string.
    fn str_of(self, value: Place) -> Result<&'r str, NotationError> {
        match str::from_utf8(self.text_of(self.entry(value.index))) {
            Ok(text) => Ok(text),
            Err(_) => Err(self.error(Problem::Expected("a string in UTF-8"), value)),
        }
    }

    /// Returns the characters of a string, or the one that a tuple or a quadruple is.
    fn characters_of_one(self, value: Place) -> Result<CharacterSet, NotationError> {
        if self.item(value) == Item::Text {
            return Ok(CharacterSet::of(self.str_of(value)?));
        }
        let number = self.number_of_character(value)?;
        Ok(CharacterSet::between(number, number))
    }

    /// Returns the number of the character that a tuple or a quadruple is.
    fn number_of_character(self, value: Place) -> Result<u32, NotationError> {
        let expected = "a character by two or four numbers (X.680 41.8)";
        self.character_of(value)
            .ok_or(self.error(Problem::Expected(expected), value))
    }

    /// Returns the number of the character that a value of one character has.
    fn character(self, place: Place) -> Result<u32, NotationError> {
        let value = self.text_value(place)?;
        if self.item(value) != Item::Text {
            return self.number_of_character(value);
        }
        let mut characters = self.str_of(value)?.chars();
        match (characters.next(), characters.next()) {
            (Some(one), None) => Ok(u32::from(one)),
            _ => Err(self.error(Problem::Expected("one character"), value)),
        }
    }

    /// Returns what a value or a range permits.
    fn of_values(self, place: Place, role: Role) -> Result<Permitted, NotationError> {
        Ok(match role {
            Role::Numbers(governor) => Permitted {
                values: Some(self.numbers(place, governor)?),
                ..EVERYTHING
            },
            Role::Characters { greatest } => Permitted {
                alphabet: Some(self.characters(place, greatest)?),
                ..EVERYTHING
            },
            Role::Others { .. } => EVERYTHING,
        })
    }

    /// Returns the one element that a constraint, a union or an intersection has, if there is only one, through
    /// any number of them. Otherwise returns its argument.
    pub(crate) fn only_element(self, place: Place) -> Place {
        let mut only = place;
        for _ in 0..self.most() {
            match self.item(only) {
                Item::Constraint | Item::Union | Item::Intersection => {}
                _ => break,
            }
            let first = Place {
                index: only.index.saturating_add(1),
                ..only
            };
            let is_last = self.entry(first.index).end == self.entry(only.index).end;
            match self.item(first) {
                Item::Ellipsis | Item::Except => break,
                _ if is_last => only = first,
                _ => break,
            }
        }
        only
    }

    /// Returns an error at an element if nothing is permitted.
    fn check_some(self, permitted: &Permitted, place: Place) -> Result<(), NotationError> {
        if permitted.is_empty() {
            Err(self.error(Problem::Empty, place))
        } else {
            Ok(())
        }
    }

    /// Returns what an element permits.
    #[cycle(permits)]
    fn of_element(
        self,
        place: Place,
        role: Role,
        work: &mut Work,
        steps: usize,
    ) -> Result<Permitted, NotationError> {
        if steps == 0 || work.left == 0 {
            return Err(self.error(Problem::Circular, place));
        }
        work.left -= 1;
        let first = Place {
            index: place.index.saturating_add(1),
            ..place
        };
        match self.item(place) {
            Item::Values => self.of_values(place, role),
            Item::Size => {
                let inner = self.of_element(first, Role::Numbers(None), work, steps - 1)?;
                Ok(Permitted {
                    sizes: Some(inner.values.unwrap_or(ALL_NUMBERS)),
                    ..EVERYTHING
                })
            }
            Item::From => {
                let greatest = match role {
                    Role::Others { greatest } | Role::Characters { greatest } => greatest,
                    Role::Numbers(_) => 127,
                };
                self.of_element(first, Role::Characters { greatest }, work, steps - 1)
            }
            Item::Contained => {
                let inner = self.permitted(first, work, steps - 1)?;
                Ok(inner.without_marker())
            }
            Item::Union | Item::Intersection | Item::Constraint => {
                self.of_set(place, role, work, steps - 1)
            }
            _ => Ok(EVERYTHING),
        }
    }

    /// Returns what a union, an intersection or a constraint permits. What EXCEPT excludes is ignored
    /// (X.691 10.3), as are the additions after an extension marker.
    #[cycle(permits)]
    fn of_set(
        self,
        place: Place,
        role: Role,
        work: &mut Work,
        steps: usize,
    ) -> Result<Permitted, NotationError> {
        let mut found = EVERYTHING;
        let mut is_first = true;
        let mut inside = self.inside(place);
        for _ in 0..self.most() {
            let Some(index) = inside.next(self.tape) else {
                break;
            };
            let part = Place { index, ..place };
            if self.item(part) == Item::Ellipsis {
                found = found.with_marker();
                break;
            }
            if self.item(part) == Item::Except {
                continue;
            }
            let only = self.only_element(part);
            let inner = self.of_element(only, role, work, steps)?;
            self.check_some(&inner, only)?;
            found = if is_first {
                inner
            } else if self.item(place) == Item::Union {
                found.or(inner)
            } else {
                found.and(inner)
            };
            is_first = false;
            self.check_some(&found, part)?;
        }
        Ok(found)
    }

    /// Returns what the constraints of a type permit, after those of the type that it names.
    #[cycle(permits)]
    fn permitted(
        self,
        place: Place,
        work: &mut Work,
        steps: usize,
    ) -> Result<Permitted, NotationError> {
        if steps == 0 || work.left == 0 {
            return Err(self.error(Problem::Circular, place));
        }
        work.left -= 1;
        let mut found = match self.inner(place)? {
            Some(inner) => self.permitted(inner, work, steps - 1)?,
            None => EVERYTHING,
        };
        let base = self.base(place)?;
        let role = role_of(self, base);
        if let Role::Numbers(_) = role
            && let Some(values) = self.numbers_of_set(place)?
        {
            found = found.followed_by(Permitted {
                values: Some(values),
                ..EVERYTHING
            });
        }
        let mut inside = self.inside(place);
        for _ in 0..self.most() {
            let Some(index) = inside.next(self.tape) else {
                break;
            };
            let part = Place { index, ..place };
            if self.item(part) != Item::Constraint {
                continue;
            }
            let only = self.only_element(part);
            if self.limit(&mut found, only, role, work, steps)? {
                self.check_some(&found, part)?;
                continue;
            }
            let last = self.of_element(only, role, work, steps - 1)?;
            self.check_some(&last, only)?;
            found = found.followed_by(last);
            self.check_some(&found, part)?;
        }
        Ok(found)
    }
}
