//! Values in braces (X.680 25 to 28).

use crate::governed::Types;
use asn1_definitions::{Inside, Place};
use asn1_notation::Item;
use asn1_schema::Rows;

/// The entries in braces, one after another.
#[derive(Clone, Copy)]
pub(crate) struct Pieces {
    inside: Inside,
    braces: Place,
}

impl Pieces {
    /// Begins with the first entry in braces.
    pub(crate) fn new(types: Types<'_>, braces: Place) -> Pieces {
        Pieces {
            inside: types.scope.inside(braces),
            braces,
        }
    }

    /// Returns the next entry. `None` at the end.
    pub(crate) fn next(&mut self, types: Types<'_>) -> Option<Place> {
        let index = self.inside.next(types.scope.tape)?;
        Some(Place {
            index,
            ..self.braces
        })
    }
}

impl<'r> Types<'r> {
    /// Returns whether an entry in braces is one.
    fn is_item(self, place: Option<Place>, item: Item) -> bool {
        match place {
            Some(place) => self.scope.item(place) == item,
            None => false,
        }
    }

    /// Returns how many values there are in braces, with a comma between each two. `None` if they are
    /// written otherwise.
    pub(crate) fn count_of_values(self, braces: Place) -> Option<usize> {
        let mut pieces = Pieces::new(self, braces);
        let mut count = 0usize;
        for _ in 0..self.scope.most() {
            let next = pieces.next(self);
            if next.is_none() && count == 0 {
                return Some(0);
            }
            if next.is_none() || self.is_item(next, Item::Comma) {
                return None;
            }
            count = count.saturating_add(1);
            let after = pieces.next(self);
            if after.is_none() {
                return Some(count);
            }
            if !self.is_item(after, Item::Comma) {
                return None;
            }
        }
        None
    }

    /// Returns how many components there are in braces, each with a name and a value, and a comma
    /// between each two. `None` if they are written otherwise, or no member of the rows has a name.
    pub(crate) fn count_of_components(self, braces: Place, rows: Rows) -> Option<usize> {
        let mut pieces = Pieces::new(self, braces);
        let mut count = 0usize;
        for _ in 0..self.scope.most() {
            let Some(name) = pieces.next(self) else {
                return if count == 0 { Some(0) } else { None };
            };
            self.row_of(rows, name)?;
            let value = pieces.next(self)?;
            if self.scope.item(name) != Item::PieceName || self.scope.item(value) == Item::Comma {
                return None;
            }
            count = count.saturating_add(1);
            let after = pieces.next(self);
            if after.is_none() {
                return Some(count);
            }
            if !self.is_item(after, Item::Comma) {
                return None;
            }
        }
        None
    }

    /// Returns the name of a member in braces, and its value. `None` if the member is not written.
    pub(crate) fn piece_of(self, braces: Place, row: usize) -> Option<(Place, Place)> {
        let mut pieces = Pieces::new(self, braces);
        for _ in 0..self.scope.most() {
            let name = pieces.next(self)?;
            let value = pieces.next(self)?;
            if self.is_member(row, name) {
                return Some((name, value));
            }
            pieces.next(self)?;
        }
        None
    }
}
