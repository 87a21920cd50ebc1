//! What the names of a text refer to.

use crate::fields::Field;
use crate::hash::list_of;
use crate::scope::{Place, Scope};
use asn1_notation::{Entry, Item, NotationError, Problem, wide};

/// The most names that may refer to names, one after another.
pub const MAX_STEPS: usize = 400;

impl<'r> Scope<'r> {
    /// Returns the definition of a name in a module itself. `None` if there is none.
    pub fn defined_in(self, module: usize, name: Entry) -> Option<usize> {
        self.listed_in(list_of(self.text_of(name)), module, name, false)
    }

    /// Returns the definition or the import of a name in a module, by the index of its list, if there is one.
    pub(crate) fn listed_in(
        self,
        list: usize,
        module: usize,
        name: Entry,
        is_import: bool,
    ) -> Option<usize> {
        let end = wide(self.entry(module).end);
        let mut next = *self.lists.get(list)?;
        for _ in 0..self.most() {
            if next == 0 {
                return None;
            }
            let index = wide(next - 1);
            let entry = self.entry(index);
            if module < index
                && index < end
                && is_import == (entry.item == Item::Import)
                && self.is_same(entry, name)
            {
                return Some(index);
            }
            next = entry.link;
        }
        None
    }

    /// Returns the module with a name. `None` if there is none.
    pub fn module_named(self, name: Entry) -> Option<usize> {
        let mut next = 0usize;
        for _ in 0..self.most() {
            let entry = *self.tape.get(next)?;
            if self.is_same(entry, name) {
                return Some(next);
            }
            next = wide(entry.end);
        }
        None
    }

    /// Returns the definition of a name, which may be imported, or have the name of its module before it.
    ///
    /// # Errors
    ///
    /// Returns `UnknownModule`, `Undefined`, or `Consequence` if the import of the name has an error.
    pub fn definition(self, place: Place) -> Result<Place, NotationError> {
        let entry = self.entry(place.index);
        if !self.has_module(place) {
            return self.definition_here(place, entry);
        }
        let Some(module) = self.module_named(entry) else {
            return Err(self.error(Problem::UnknownModule, place));
        };
        let name = self.entry(place.index.saturating_add(1));
        match self.defined_in(module, name) {
            Some(index) => Ok(Place {
                module,
                index,
                instance: 0,
            }),
            None => Err(self.error(Problem::Undefined, place)),
        }
    }

    /// Returns whether a name has the name of its module before it.
    fn has_module(self, place: Place) -> bool {
        match self.item(place) {
            Item::ExternalReference | Item::ExternalValue => true,
            Item::FieldType => {
                self.entry(place.index.saturating_add(1)).item == Item::ExternalName
            }
            _ => false,
        }
    }

    /// Returns the definition of a name in its module itself, or in one that it is imported from.
    fn definition_here(self, place: Place, name: Entry) -> Result<Place, NotationError> {
        let list = list_of(self.text_of(name));
        if let Some(index) = self.listed_in(list, place.module, name, false) {
            return Ok(Place {
                index,
                instance: 0,
                ..place
            });
        }
        match self.imported(list, place.module, name) {
            Some(found) => Ok(found),
            None => Err(self.undefined(place)),
        }
    }

    /// Returns the alternative's type that a selection type is (X.680 30).
    fn selected(self, place: Place) -> Result<Place, NotationError> {
        let choice = self.type_in(place);
        let mut found = choice;
        for _ in 0..MAX_STEPS {
            match self.item(found) {
                Item::Reference | Item::ExternalReference => found = self.target(found)?,
                Item::Broken => return Err(self.error(Problem::Consequence, choice)),
                Item::Tagged => found = self.type_in(found),
                _ => break,
            }
        }
        if self.item(found) != Item::Choice {
            return Err(self.error(Problem::NotA("a CHOICE"), choice));
        }
        match self.named_in(found, Item::Component, self.entry(place.index)) {
            Some(alternative) => Ok(self.type_in(alternative)),
            None => Err(self.error(Problem::Undefined, place)),
        }
    }

    /// Returns the type, the class or the braces of the set of objects that a name refers to.
    pub(crate) fn target(self, place: Place) -> Result<Place, NotationError> {
        if let Some((_, argument)) = self.argument(place) {
            return Ok(argument);
        }
        let found = self.definition(place)?;
        match self.item(found) {
            Item::TypeDefinition => Ok(self.type_in(self.instantiated(place, found)?)),
            Item::SetDefinition => {
                let found = self.instantiated(place, found)?;
                match self.find_in(found, Item::Braces) {
                    Some(braces) => Ok(braces),
                    None => Err(self.error(Problem::Consequence, place)),
                }
            }
            _ => Err(self.error(Problem::NotA("a type"), place)),
        }
    }

    /// Returns the value that a name refers to, and its type.
    ///
    /// # Errors
    ///
    /// Returns the errors of [`Self::definition`], `NotA` for no value, or `Unsupported` for parameters.
    pub fn named_value(self, place: Place) -> Result<(Place, Place), NotationError> {
        if let Some((parameter, argument)) = self.argument(place) {
            return Ok((argument, self.type_in(parameter)));
        }
        let found = self.definition(place)?;
        if self.item(found) != Item::ValueDefinition {
            return Err(self.error(Problem::NotA("a value"), place));
        }
        if self.is_parameterized(found) {
            let feature = "a parameterized value (X.683 8.2)";
            return Err(self.error(Problem::Unsupported(feature), place));
        }
        match self.value_in(found) {
            Some(value) => Ok((value, self.type_in(found))),
            None => Err(self.error(Problem::NotA("a value"), place)),
        }
    }

    /// Returns the type that a name, a selection type, a field or a tag is of. `None` if it is none of them.
    ///
    /// # Errors
    ///
    /// Returns the errors of names, classes and objects, `NotA` for another definition, or `Arguments`.
    pub fn inner(self, place: Place) -> Result<Option<Place>, NotationError> {
        Ok(match self.item(place) {
            Item::Reference | Item::ExternalReference | Item::Literal => Some(self.target(place)?),
            Item::FieldType => match self.field_of(place)? {
                Field::Type(of) => Some(of),
                Field::Open | Field::Identifier => None,
            },
            Item::TypeFromObject => Some(self.type_from_object(place)?),
            Item::Selection => Some(self.selected(place)?),
            Item::Tagged => Some(self.type_in(place)),
            _ => None,
        })
    }

    /// Returns the type that is no name and has no tag, through names and tags.
    ///
    /// # Errors
    ///
    /// Returns the errors of [`Self::inner`], or [`Problem::Circular`] if the names do not end.
    pub fn base(self, place: Place) -> Result<Place, NotationError> {
        let mut found = place;
        for _ in 0..MAX_STEPS {
            match self.inner(found)? {
                Some(inner) => found = inner,
                None => return Ok(found),
            }
        }
        Err(self.error(Problem::Circular, place))
    }

    /// Returns the type that is no name, through names.
    ///
    /// # Errors
    ///
    /// Returns the errors of [`Self::base`].
    pub fn named_type(self, place: Place) -> Result<Place, NotationError> {
        let mut found = place;
        for _ in 0..MAX_STEPS {
            if self.item(found) == Item::Tagged {
                return Ok(found);
            }
            match self.inner(found)? {
                Some(inner) => found = inner,
                None => return Ok(found),
            }
        }
        Err(self.error(Problem::Circular, place))
    }

    /// Returns the node that a type has of its own. `None` if it has none.
    pub fn own_node(self, place: Place) -> Option<usize> {
        let link = self.entry(place.index).link;
        if link == 0 {
            return None;
        }
        let first = self.instance(place.instance).first_node;
        Some(first.saturating_add(wide(link - 1)))
    }

    /// Returns the node of a type, or of the type that it refers to.
    ///
    /// # Errors
    ///
    /// Returns the errors of [`Self::base`], or [`Problem::NotA`] if the type has no node.
    pub fn node_of(self, place: Place) -> Result<usize, NotationError> {
        let mut found = place;
        for _ in 0..MAX_STEPS {
            if let Some(node) = self.own_node(found) {
                return Ok(node);
            }
            match self.inner(found)? {
                Some(inner) => found = inner,
                None => return Err(self.error(Problem::NotA("a type"), place)),
            }
        }
        Err(self.error(Problem::Circular, place))
    }
}
