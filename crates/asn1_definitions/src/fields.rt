//! The fields of classes, and the settings of objects (X.681).

use crate::names::MAX_STEPS;
use crate::scope::{Inside, Place, Scope};
use asn1_notation::{Entry, Item, NotationError, Problem, Word, wide};

/// What a field of a class is as a type (X.681 14).
#[derive(Clone, Copy, Debug, PartialEq, Eq)]
pub enum Field {
    /// A field of types: an open type.
    Open,
    /// The identifier of TYPE-IDENTIFIER.
    Identifier,
    /// A field of values, objects or sets, with their type or class.
    Type(Place),
}

/// What was expected where an object is not as the notation of its class.
const OTHER_NOTATION: Problem = Problem::Expected("what the notation of the class has here");

impl<'r> Scope<'r> {
    /// Returns the class of a name of a class or of a field of a class, through names. The class of a set of
    /// objects is that of its objects (X.681 15).
    ///
    /// # Errors
    ///
    /// Returns [`Problem::Consequence`] if the definition of the class has an error, [`Problem::NotA`] if
    /// the name is not that of a class, the error of a name on the way, or [`Problem::Circular`] if the
    /// names do not end.
    pub fn class_of(self, place: Place) -> Result<Place, NotationError> {
        let mut found = place;
        for _ in 0..MAX_STEPS {
            if let Some((of, _)) = self.set_named(found) {
                found = of;
                continue;
            }
            match self.item(found) {
                Item::Class => return Ok(found),
                Item::FieldType | Item::Reference | Item::ExternalReference | Item::Literal =>
                    found = self.target(found)?,
                Item::Broken => return Err(self.error(Problem::Consequence, place)),
                _ => return Err(self.error(Problem::NotA("a class"), place)),
            }
        }
        Err(self.error(Problem::Circular, place))
    }

    /// Returns what a field of TYPE-IDENTIFIER is (X.681 A).
    fn builtin_field(self, name: Place) -> Result<Field, NotationError> {
        match self.text_of(self.entry(name.index)) {
            b"id" => Ok(Field::Identifier),
            b"Type" => Ok(Field::Open),
            _ => Err(self.error(Problem::Undefined, name)),
        }
    }

    /// Returns the name of the field of a type that is a field of a class.
    pub fn field_name(self, place: Place) -> Place {
        self.find_in(place, Item::FieldName).unwrap_or(place)
    }

    /// Returns the name of the field after another one inside a type, as `&b` in `CLASS.&a.&b`. `None` if
    /// there is none.
    pub fn next_field_name(self, place: Place, name: Place) -> Option<Place> {
        let index = wide(self.entry(name.index).end);
        let next = Place { index, ..place };
        if index < wide(self.entry(place.index).end) && self.item(next) == Item::FieldName {
            Some(next)
        } else {
            None
        }
    }

    /// Returns the field of a class with a name.
    fn field_in(self, class: Place, name: Place) -> Result<Place, NotationError> {
        let entry = self.entry(name.index);
        self.named_in(class, Item::Field, entry)
            .ok_or(self.error(Problem::Undefined, name))
    }

    /// Returns what the field of a class is as a type.
    ///
    /// # Errors
    ///
    /// Returns the errors of [`Self::class_of`], [`Problem::Undefined`] if the class has no field with this
    /// name, or [`Problem::Unsupported`] if the type of the field is another field (X.681 9.8).
    pub fn field_of(self, place: Place) -> Result<Field, NotationError> {
        let mut name = self.field_name(place);
        if self.is_builtin(place) {
            return self.builtin_field(name);
        }
        let mut class = self.class_of(place)?;
        for _ in 0..self.most() {
            let Some(next) = self.next_field_name(place, name) else {
                break;
            };
            class = self.class_of(self.type_in(self.field_in(class, name)?))?;
            name = next;
        }
        if self.is_builtin(class) {
            return self.builtin_field(name);
        }
        let field = self.field_in(class, name)?;
        if self.find_in(field, Item::FieldName).is_some() {
            let feature = "a field whose type is another field (X.681 9.8)";
            return Err(self.error(Problem::Unsupported(feature), name));
        }
        let of = self.type_in(field);
        if self.item(of).is_type() {
            Ok(Field::Type(of))
        } else {
            Ok(Field::Open)
        }
    }

    /// Returns whether a type is a field of a class that is UNIQUE (X.681 9.8).
    ///
    /// # Errors
    ///
    /// Returns the errors of [`Self::class_of`], or [`Problem::Undefined`] if the class has no field with
    /// this name.
    pub fn is_unique(self, place: Place) -> Result<bool, NotationError> {
        if self.is_builtin(place) {
            return Ok(true);
        }
        let class = self.class_of(place)?;
        if self.is_builtin(class) {
            return Ok(true);
        }
        let field = self.field_in(class, self.field_name(place))?;
        Ok(self.find_in(field, Item::Unique).is_some())
    }

    /// Returns whether a class, or the class of a field, is TYPE-IDENTIFIER.
    fn is_builtin(self, place: Place) -> bool {
        self.entry(place.index).word == Some(Word::TypeIdentifier)
    }

    /// Returns whether a type is a field of types, and so an open type.
    pub fn is_open(self, place: Place) -> bool {
        self.item(place) == Item::FieldType && self.field_of(place) == Ok(Field::Open)
    }

    /// Returns the next entry inside another.
    fn next_in(self, inside: &mut Inside, place: Place) -> Option<Place> {
        let index = inside.next(self.tape)?;
        Some(Place { index, ..place })
    }

    /// Returns whether two entries are the same word or both a comma.
    fn is_same_word(self, one: usize, other: Option<Place>) -> bool {
        let Some(other) = other else {
            return false;
        };
        let one = self.entry(one);
        let other = self.entry(other.index);
        match one.item {
            Item::Literal | Item::Comma => one.item == other.item && self.is_same(one, other),
            _ => false,
        }
    }

    /// Returns the index after the group of optional words that begins after an index.
    fn after_group(self, from: usize, end: usize) -> usize {
        let mut open = 1usize;
        for index in from..end {
            match self.entry(index).item {
                Item::OpenOptional => open = open.saturating_add(1),
                Item::CloseOptional => open = open.saturating_sub(1),
                _ => {}
            }
            if open == 0 {
                return index.saturating_add(1);
            }
        }
        end
    }

    /// Returns whether an object has a group of optional words, by the first part of the group and the
    /// next one of the object (X.681 10.12).
    fn has_group(self, from: usize, end: usize, next: Option<Place>) -> bool {
        let Some(given) = next else {
            return false;
        };
        for index in from..end {
            match self.entry(index).item {
                Item::OpenOptional => {}
                Item::FieldName => {
                    let after = self.after_group(from, end);
                    return self.item(given) != Item::Comma && !self.is_same_word(after, next);
                }
                _ => return self.is_same_word(index, next),
            }
        }
        false
    }

    /// Returns what an object says of a field, by the notation of its class. `None` if it says nothing.
    fn setting_by_syntax(
        self,
        syntax: Place,
        object: Place,
        field: Option<Entry>,
    ) -> Result<Option<Place>, NotationError> {
        let end = wide(self.entry(syntax.index).end);
        let mut at = syntax.index.saturating_add(1);
        let mut inside = self.inside(object);
        let mut next = self.next_in(&mut inside, object);
        let mut found = None;
        for _ in 0..self.most() {
            if end <= at {
                break;
            }
            let part = self.entry(at);
            let after = at.saturating_add(1);
            match part.item {
                Item::OpenOptional if !self.has_group(after, end, next) => {
                    at = self.after_group(after, end);
                    continue;
                }
                Item::OpenOptional | Item::CloseOptional => {}
                Item::FieldName if next.is_some() => {
                    if let Some(field) = field
                        && self.is_same(part, field)
                    {
                        found = next;
                    }
                    next = self.next_in(&mut inside, object);
                }
                _ if self.is_same_word(at, next) => next = self.next_in(&mut inside, object),
                _ => return Err(self.error(OTHER_NOTATION, next.unwrap_or(object))),
            }
            at = after;
        }
        match next {
            Some(left) => Err(self.error(Problem::Expected("`}`"), left)),
            None => Ok(found),
        }
    }

    /// Returns what an object says of a field after the name of the field (X.681 11.4).
    fn setting_by_name(
        self,
        object: Place,
        field: Option<Entry>,
    ) -> Result<Option<Place>, NotationError> {
        let mut found = None;
        let mut inside = self.inside(object);
        for _ in 0..self.most() {
            let Some(name) = self.next_in(&mut inside, object) else {
                break;
            };
            if self.item(name) != Item::FieldName {
                return Err(self.error(Problem::Expected("`&` and the name of a field"), name));
            }
            let setting = self.next_in(&mut inside, object);
            if let Some(field) = field
                && self.is_same(self.entry(name.index), field)
            {
                found = setting;
            }
            match self.next_in(&mut inside, object) {
                Some(comma) if self.item(comma) != Item::Comma => {
                    return Err(self.error(Problem::Expected("`,` or `}`"), comma));
                }
                _ => {}
            }
        }
        Ok(found)
    }

    /// Returns what an object of TYPE-IDENTIFIER says of a field: `Type IDENTIFIED BY id` (X.681 A).
    fn builtin_setting(self, object: Place, field: Entry) -> Option<Place> {
        let mut inside = self.inside(object);
        let of = self.next_in(&mut inside, object)?;
        self.next_in(&mut inside, object)?;
        self.next_in(&mut inside, object)?;
        let identifier = self.next_in(&mut inside, object)?;
        match self.text_of(field) {
            b"id" => Some(identifier),
            b"Type" => Some(of),
            _ => None,
        }
    }

    /// Returns the entry of a field in an object of a class: its value, type, object or set. `None` if the
    /// object does not set the field, and the field has no DEFAULT.
    ///
    /// # Errors
    ///
    /// Returns [`Problem::Expected`] if the object does not have the notation of its class.
    pub fn setting(
        self,
        class: Place,
        object: Place,
        name: Entry,
    ) -> Result<Option<Place>, NotationError> {
        if self.is_builtin(class) {
            return Ok(self.builtin_setting(object, name));
        }
        let found = match self.find_in(class, Item::Syntax) {
            Some(syntax) => self.setting_by_syntax(syntax, object, Some(name))?,
            None => self.setting_by_name(object, Some(name))?,
        };
        if found.is_some() {
            return Ok(found);
        }
        let Some(field) = self.named_in(class, Item::Field, name) else {
            return Ok(None);
        };
        match self.find_in(field, Item::Default) {
            Some(default) => Ok(self.next_in(&mut self.inside(default), default)),
            None => Ok(None),
        }
    }

    /// Checks that an object has the notation of its class.
    ///
    /// # Errors
    ///
    /// Returns [`Problem::Expected`] if the object does not have the notation of its class.
    pub fn check_object(self, class: Place, object: Place) -> Result<(), NotationError> {
        if self.is_builtin(class) {
            return Ok(());
        }
        match self.find_in(class, Item::Syntax) {
            Some(syntax) => self.setting_by_syntax(syntax, object, None)?,
            None => self.setting_by_name(object, None)?,
        };
        Ok(())
    }

    /// Returns the braces of an object or of a set of objects, through names and fields of objects.
    ///
    /// # Errors
    ///
    /// Returns [`Problem::Consequence`] if the definition has an error, [`Problem::NotA`] if a name is not
    /// that of an object or a set, the error of a name or of a field on the way, or [`Problem::Circular`] if
    /// the names do not end.
    pub fn braces_of(self, place: Place) -> Result<Place, NotationError> {
        let mut found = place;
        for _ in 0..MAX_STEPS {
            found = self.named_braces(found)?;
            match self.item(found) {
                Item::FromObject => found = self.from_object(found)?,
                _ => return Ok(found),
            }
        }
        Err(self.error(Problem::Circular, place))
    }

    /// Returns the braces of an object or of a set of objects, or the field of an object that it is, through
    /// names.
    pub(crate) fn named_braces(self, place: Place) -> Result<Place, NotationError> {
        let mut found = place;
        for _ in 0..MAX_STEPS {
            match self.item(found) {
                Item::Braces | Item::FromObject => return Ok(found),
                Item::Broken => return Err(self.error(Problem::Consequence, place)),
                _ => {}
            }
            if let Some((_, argument)) = self.argument(found) {
                found = argument;
                continue;
            }
            let mut definition = self.definition(found)?;
            if self.item(definition) == Item::SetDefinition {
                definition = self.instantiated(found, definition)?;
            }
            match self.find_in(definition, Item::Braces) {
                Some(braces) => return Ok(braces),
                None => match self.value_in(definition) {
                    Some(value) => found = value,
                    None => return Err(self.error(Problem::NotA("an object or a set"), place)),
                },
            }
        }
        Err(self.error(Problem::Circular, place))
    }
}
