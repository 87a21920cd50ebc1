//! Names that a module imports (X.680 13.1).

use crate::scope::{Place, Scope};
use asn1_notation::{Entry, Item, NotationError, Problem, wide};

impl<'r> Scope<'r> {
    /// Returns the definition that a module imports under a name, by the index of the name's list. `None` if
    /// there is none.
    pub(crate) fn imported(self, list: usize, module: usize, name: Entry) -> Option<Place> {
        let import = self.listed_in(list, module, name, true)?;
        let from = self.module_after(import)?;
        let module = self.module_named(self.entry(from))?;
        let index = self.listed_in(list, module, name, false)?;
        Some(Place {
            module,
            index,
            instance: 0,
        })
    }

    /// Returns the entry of the module that a name is imported from: the first one after the names.
    fn module_after(self, import: usize) -> Option<usize> {
        let mut index = import;
        for _ in 0..self.most() {
            let entry = *self.tape.get(index)?;
            match entry.item {
                Item::ImportModule => return Some(index),
                Item::Import => index = wide(entry.end),
                _ => return None,
            }
        }
        None
    }

    /// Returns why a name has no definition: it is not defined, or its import has an error.
    pub(crate) fn undefined(self, place: Place) -> NotationError {
        let module = Place {
            index: place.module,
            ..place
        };
        let name = self.entry(place.index);
        if self.named_in_broken_imports(module, name) {
            return self.error(Problem::Consequence, place);
        }
        self.error(Problem::Undefined, place)
    }

    /// Returns whether an import of a name has an error.
    fn named_in_broken_imports(self, module: Place, name: Entry) -> bool {
        let mut inside = self.inside(module);
        for _ in 0..self.most() {
            let Some(index) = inside.next(self.tape) else {
                break;
            };
            let group = Place { index, ..module };
            if self.item(group) == Item::Imports
                && (self.named_in(group, Item::Broken, name).is_some()
                    || self.find_in(group, Item::ImportModule).is_none()
                        && self.named_in(group, Item::Import, name).is_some())
            {
                return true;
            }
        }
        false
    }
}
