//! What fields of objects and of sets of objects are (X.681 15).

use crate::object_sets::Objects;
use crate::permitted::Hull;
use crate::scope::{Place, Scope};
use asn1_notation::{Item, NotationError, Problem};

/// How many objects a set may have.
const MAX_OBJECTS: usize = 1 << 16;

impl<'r> Scope<'r> {
    /// Returns the class of the object that an entry is named by, and the entry of the object.
    fn named_object(self, place: Place) -> Result<(Place, Place), NotationError> {
        if let Some((parameter, argument)) = self.argument(place) {
            return Ok((self.class_of(self.type_in(parameter))?, argument));
        }
        let definition = self.definition(place)?;
        if self.item(definition) != Item::ValueDefinition {
            return Err(self.error(Problem::NotA("an object"), place));
        }
        let class = self.class_of(self.type_in(definition))?;
        match self.value_in(definition) {
            Some(object) => Ok((class, object)),
            None => Err(self.error(Problem::NotA("an object"), place)),
        }
    }

    /// Returns the entry of a field of an object: its type, value, object or set (X.681 15). Each field but the
    /// last one must be an object.
    ///
    /// # Errors
    ///
    /// Returns [`Problem::NotA`] if the name is not that of an object, the error of its class or of a name on
    /// the way, [`Problem::Expected`] if an object does not have the notation of its class, or
    /// [`Problem::Undefined`] if an object does not set the field.
    pub fn from_object(self, place: Place) -> Result<Place, NotationError> {
        let (mut class, mut found) = self.named_object(place)?;
        let mut inside = self.inside(place);
        let mut field: Option<Place> = None;
        for _ in 0..self.most() {
            let Some(index) = inside.next(self.tape) else {
                break;
            };
            let name = self.entry(index);
            if name.item != Item::FieldName {
                break;
            }
            let at = Place { index, ..place };
            if let Some(field) = field {
                class = self.class_of(self.type_in(field))?;
            }
            field = self.named_in(class, Item::Field, name);
            let object = self.named_braces(found)?;
            let setting = self.setting(class, object, name)?;
            found = setting.ok_or(self.error(Problem::Undefined, at))?;
        }
        Ok(found)
    }

    /// Returns the entry of the class of the set of objects that a field is one of, and an entry that names the
    /// set or is it. `None` if the field is one of a class.
    pub(crate) fn set_named(self, place: Place) -> Option<(Place, Place)> {
        if self.item(place) != Item::FieldType {
            return None;
        }
        if let Some((parameter, argument)) = self.argument(place) {
            let of = self.type_in(parameter);
            return if self.item(of).is_type() {
                Some((of, argument))
            } else {
                None
            };
        }
        let definition = self.definition(place).ok()?;
        if self.item(definition) != Item::SetDefinition {
            return None;
        }
        Some((self.type_in(definition), place))
    }

    /// Returns whether a type is a field of a set of objects (X.681 15).
    pub fn is_from_set(self, place: Place) -> bool {
        self.set_named(place).is_some()
    }

    /// Returns the numbers that the objects of a set have in a field, as their least and greatest one. `None`
    /// if the type is no field of a set of objects, or no object has the field.
    pub(crate) fn numbers_of_set(self, place: Place) -> Result<Option<Hull>, NotationError> {
        match self.set_named(place) {
            Some((of, set)) => self.numbers_in(place, of, set),
            None => Ok(None),
        }
    }

    /// Returns the numbers that the objects of a set have in a field, for
    /// [`numbers_of_set`](Scope::numbers_of_set). It is a function of its own since its list of objects takes
    /// much of the stack.
    #[inline(never)]
    fn numbers_in(
        self,
        place: Place,
        of: Place,
        set: Place,
    ) -> Result<Option<Hull>, NotationError> {
        let class = self.class_of(of)?;
        let name = self.field_name(place);
        if self.find_in(self.braces_of(set)?, Item::Ellipsis).is_some() {
            let feature = "a field of a set of objects with an extension marker (X.681 15)";
            return Err(self.error(Problem::Unsupported(feature), place));
        }
        if let Some(next) = self.next_field_name(place, name) {
            let feature = "a field of the objects in a field of a set of objects (X.681 15)";
            return Err(self.error(Problem::Unsupported(feature), next));
        }
        let mut found: Option<Hull> = None;
        let mut objects = Objects::new(self, set)?;
        for _ in 0..MAX_OBJECTS {
            let Some(object) = objects.next(self)? else {
                return Ok(found);
            };
            let Some(value) = self.setting(class, object, self.entry(name.index))? else {
                continue;
            };
            let number = Some(self.number(value, None)?);
            let own = Hull {
                least: number,
                greatest: number,
                is_extensible: false,
            };
            found = Some(match found {
                Some(others) => others.or(own),
                None => own,
            });
        }
        Err(self.error(Problem::TooMuchWork, place))
    }

    /// Returns the type that a field of an object is.
    pub(crate) fn type_from_object(self, place: Place) -> Result<Place, NotationError> {
        let found = self.from_object(place)?;
        match self.item(found) {
            Item::Literal => Ok(found),
            item if item.is_type() => Ok(found),
            _ => Err(self.error(Problem::NotA("a type"), place)),
        }
    }
}
