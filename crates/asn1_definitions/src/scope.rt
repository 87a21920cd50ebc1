//! A text, its entries, and what is inside each of them.

use crate::instances::Instance;
use asn1_notation::{Entry, Item, NO_ENTRY, NotationError, Problem, error_at, part_of, wide};

/// An entry, in its module.
#[derive(Clone, Copy, Debug, PartialEq, Eq)]
pub struct Place {
    /// The index of the module's entry.
    pub module: usize,
    /// The index of the entry.
    pub index: usize,
    /// The instance that it is in.
    pub instance: usize,
}

/// The entries inside another, one after another.
#[derive(Clone, Copy)]
pub struct Inside {
    at: usize,
    end: usize,
}

impl Inside {
    /// Returns the index of the next entry. `None` if there is none.
    pub fn next(&mut self, tape: &[Entry]) -> Option<usize> {
        if self.end <= self.at {
            return None;
        }
        let at = self.at;
        self.at = wide(tape.get(at)?.end);
        Some(at)
    }

    /// Returns the index of the next entry. After an addition group it returns those in the group.
    pub fn next_in_groups(&mut self, tape: &[Entry]) -> Option<usize> {
        let at = self.next(tape)?;
        if tape.get(at)?.item == Item::Group {
            self.at = at.saturating_add(1);
        }
        Some(at)
    }
}

/// A text, its entries, and its definitions and imports in lists by the hash of their names.
///
/// A list, or a link of an entry in it, is one more than the index of the next definition or import, or 0.
/// The link of a type is one more than its node in its instance, or 0 if it has none.
#[derive(Clone, Copy, Drop)]
pub struct Scope<'r> {
    /// The text.
    pub text: &'r [u8],
    /// Its entries.
    pub tape: &'r [Entry],
    /// The first definition of each list.
    pub lists: &'r [u32],
    /// The instances of parameterized types.
    pub instances: &'r [Instance],
}

impl<'r> Scope<'r> {
    /// Returns the entry at an index.
    pub fn entry(self, index: usize) -> Entry {
        match self.tape.get(index) {
            Some(entry) => *entry,
            None => NO_ENTRY,
        }
    }

    /// Returns what an entry is.
    pub fn item(self, place: Place) -> Item {
        self.entry(place.index).item
    }

    /// Returns the index of the octet of the text at which an entry begins, with its quote if it has one.
    pub fn at(self, place: Place) -> usize {
        let entry = self.entry(place.index);
        match entry.item {
            Item::Text | Item::Bits | Item::Hex => wide(entry.from).saturating_sub(1),
            _ => wide(entry.from),
        }
    }

    /// Returns an error at an entry.
    pub fn error(self, problem: Problem, place: Place) -> NotationError {
        error_at(problem, self.at(place))
    }

    /// Returns the text of an entry.
    pub fn text_of(self, entry: Entry) -> &'r [u8] {
        part_of(self.text, wide(entry.from), wide(entry.count))
    }

    /// Returns the entries inside another.
    pub fn inside(self, place: Place) -> Inside {
        Inside {
            at: place.index.saturating_add(1),
            end: wide(self.entry(place.index).end),
        }
    }

    /// Returns a number that no count of entries inside another exceeds.
    pub fn most(self) -> usize {
        self.tape.len()
    }

    /// Returns the first entry inside another that is a type.
    pub fn type_in(self, place: Place) -> Place {
        let mut inside = self.inside(place);
        for _ in 0..self.most() {
            match inside.next(self.tape) {
                Some(index) if self.entry(index).item.is_type() => return Place { index, ..place },
                Some(_) => {}
                None => break,
            }
        }
        Place {
            index: self.most(),
            ..place
        }
    }

    /// Returns the first entry inside another that is a value. `None` if there is none.
    pub fn value_in(self, place: Place) -> Option<Place> {
        let mut inside = self.inside(place);
        for _ in 0..self.most() {
            let index = inside.next(self.tape)?;
            if self.entry(index).item.is_value() {
                return Some(Place { index, ..place });
            }
        }
        None
    }

    /// Returns the first entry inside another with an item. `None` if there is none.
    pub fn find_in(self, place: Place, item: Item) -> Option<Place> {
        let mut inside = self.inside(place);
        for _ in 0..self.most() {
            let index = inside.next(self.tape)?;
            if self.entry(index).item == item {
                return Some(Place { index, ..place });
            }
        }
        None
    }

    /// Returns the first entry with an item and a name inside another or its addition groups, if any.
    pub fn named_in(self, place: Place, item: Item, name: Entry) -> Option<Place> {
        let mut inside = self.inside(place);
        for _ in 0..self.most() {
            let index = inside.next_in_groups(self.tape)?;
            let entry = self.entry(index);
            if entry.item == item && self.is_same(entry, name) {
                return Some(Place { index, ..place });
            }
        }
        None
    }

    /// Returns whether two entries have the same text.
    pub fn is_same(self, one: Entry, other: Entry) -> bool {
        one.count == other.count && self.text_of(one) == self.text_of(other)
    }
}
