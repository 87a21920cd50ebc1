//! What values are of: a type, as its definition and its tables say it.

use crate::builder::{DefaultText, Enumeral};
use asn1_definitions::{MAX_STEPS, Place, Scope};
use asn1_notation::{Item, part_of};
use asn1_schema::{Member, Node, Rows};
use asn1_schema_values::NameSpan;

/// A text's definitions, and the tables of its types.
#[derive(Clone, Copy, Drop)]
pub(crate) struct Types<'r> {
    pub(crate) scope: Scope<'r>,
    pub(crate) nodes: &'r [Node],
    pub(crate) node_enumerals: &'r [Rows],
    pub(crate) members: &'r [Member],
    pub(crate) member_names: &'r [NameSpan],
    pub(crate) enumerals: &'r [Enumeral],
    pub(crate) defaults: &'r [DefaultText],
}

/// A value: its entry, the entry of its type, and the node of its type.
#[derive(Clone, Copy)]
pub(crate) struct Governed {
    pub(crate) value: Place,
    pub(crate) of: Place,
    pub(crate) node: usize,
}

impl<'r> Types<'r> {
    /// Returns the text of a span.
    fn text_of(self, span: NameSpan) -> &'r [u8] {
        part_of(self.scope.text, span.from, span.count)
    }

    /// Returns whether an entry has a text.
    fn has_text(self, place: Place, span: NameSpan) -> bool {
        self.scope.text_of(self.scope.entry(place.index)) == self.text_of(span)
    }

    /// Returns whether a value is a name that its type assigns to a number, a bit or a value.
    fn is_named(self, of: Place, value: Place) -> bool {
        let name = self.scope.entry(value.index);
        self.scope.named_in(of, Item::Name, name).is_some()
    }

    /// Returns the value that a value is through names of values, and its type. `None` if a name has no
    /// definition.
    pub(crate) fn through_names(self, governed: Governed) -> Option<Governed> {
        let mut of = self.scope.base(governed.of).ok()?;
        let mut value = governed.value;
        for _ in 0..MAX_STEPS {
            let is_name = match self.scope.item(value) {
                Item::ValueReference | Item::PieceName => !self.is_named(of, value),
                Item::ExternalValue => true,
                Item::FromObject => {
                    value = self.scope.from_object(value).ok()?;
                    continue;
                }
                _ => false,
            };
            if !is_name {
                let node = governed.node;
                return Some(Governed { value, of, node });
            }
            let (named, named_of) = self.scope.named_value(value).ok()?;
            of = self.scope.base(named_of).ok()?;
            value = named;
        }
        None
    }

    /// Returns the number that the value of a type is, or that the type assigns to this name.
    pub(crate) fn number(self, of: Place, value: Place) -> Option<i128> {
        let name = self.scope.entry(value.index);
        match self.scope.named_in(of, Item::Name, name) {
            Some(named) => {
                let number = self.scope.value_in(named)?;
                self.scope.number(number, None).ok()
            }
            None => self.scope.number(value, None).ok(),
        }
    }

    /// Returns the index of a value of an ENUMERATED by its name. `None` if there is none.
    pub(crate) fn enumeral(self, node: usize, value: Place) -> Option<usize> {
        let Some(rows) = self.node_enumerals.get(node) else {
            return None;
        };
        let end = rows.from.saturating_add(rows.count as usize);
        let enumerals = self.enumerals.get(rows.from..end)?;
        for (index, enumeral) in enumerals.iter().enumerate() {
            if self.has_text(value, enumeral.name) {
                return Some(index);
            }
        }
        None
    }

    /// Returns the member of a row. `None` if there is none.
    pub(crate) fn member(self, row: usize) -> Option<Member> {
        self.members.get(row).copied()
    }

    /// Returns whether a member has the name of an entry.
    pub(crate) fn is_member(self, row: usize, place: Place) -> bool {
        match self.member_names.get(row) {
            Some(name) => self.has_text(place, *name),
            None => false,
        }
    }

    /// Returns the first row with the name of an entry, and its index among them. `None` if there is
    /// none.
    pub(crate) fn row_of(self, rows: Rows, place: Place) -> Option<(usize, usize)> {
        for index in 0..rows.count as usize {
            let row = rows.from.saturating_add(index);
            if self.is_member(row, place) {
                return Some((row, index));
            }
        }
        None
    }

    /// Returns the entry of the type of a component or an alternative, by the name of an entry. `None`
    /// if the definition does not write it.
    pub(crate) fn component(self, of: Place, place: Place) -> Option<Place> {
        let name = self.scope.entry(place.index);
        let component = self.scope.named_in(of, Item::Component, name)?;
        Some(self.scope.type_in(component))
    }
}
