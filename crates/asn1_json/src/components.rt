//! SEQUENCE, SET, CHOICE and lists from JSON.

use crate::opens::group_in;
use crate::parse::{JsonError, JsonProblem, Maker, at_item, expected};
use crate::tree::Kind;
use asn1_schema::{Natural, Node, Part, Presence, Rows};

/// The components of a SEQUENCE or a SET.
#[derive(Clone, Copy)]
pub(crate) struct Components {
    pub(crate) root: Rows,
    pub(crate) is_extensible: bool,
    pub(crate) additions: Rows,
}

/// The name of the member that has what a schema does not know.
pub(crate) const UNKNOWN: &str = "...";

impl<'a, 's, 't> Maker<'a, 's, 't> {
    /// Appends the parts of a value of the type at a node.
    #[cycle(making)]
    pub(crate) fn value(
        &mut self,
        depth: usize,
        node: usize,
        item: usize,
    ) -> Result<(), JsonError<'s>> {
        if depth == 0 {
            return Err(at_item(item, JsonProblem::TooDeep));
        }
        match self.node(node, item)? {
            Node::Sequence {
                root,
                is_extensible,
                additions,
            } => {
                let components = Components {
                    root,
                    is_extensible,
                    additions,
                };
                self.around.push(item)?;
                self.sequence(depth - 1, components, item)?;
                self.around.pop();
                Ok(())
            }
            Node::SequenceOf { item: of, .. } | Node::SetOf { item: of, .. } => {
                self.list(depth - 1, of, item)
            }
            Node::Choice {
                alternatives,
                is_extensible,
                additions,
            } => {
                let components = Components {
                    root: alternatives,
                    is_extensible,
                    additions,
                };
                self.choice(depth - 1, components, item)
            }
            Node::Open { inner } => self.value(depth - 1, inner, item),
            leaf => {
                if let Node::OctetString { .. } = leaf
                    && self.open(depth - 1, node, item)?
                {
                    return Ok(());
                }
                self.leaf(node, leaf, item)
            }
        }
    }

    /// Appends the parts of a SEQUENCE or a SET.
    #[cycle(making)]
    fn sequence(
        &mut self,
        depth: usize,
        components: Components,
        object: usize,
    ) -> Result<(), JsonError<'s>> {
        let Kind::Object = self.item(object)?.kind else {
            return Err(expected(object, "an object"));
        };
        let is_extended = components.is_extensible && self.has_addition(components, object);
        self.push(
            Part::Sequence {
                count: components.root.count as usize,
                is_extended,
            },
            object,
        )?;
        let mut used = self.components(depth, components.root, object)?;
        if is_extended {
            let added = self.additions(depth, components, object)?;
            used = used.saturating_add(added);
        }
        if used < self.tree.count_in(object) {
            return Err(self.wrong_key(components, object));
        }
        Ok(())
    }

    /// Appends the components of rows. Returns how many keys they have.
    #[cycle(making)]
    fn components(
        &mut self,
        depth: usize,
        rows: Rows,
        object: usize,
    ) -> Result<usize, JsonError<'s>> {
        let mut used = 0usize;
        for index in 0..rows.count as usize {
            let row = rows.from.saturating_add(index);
            let added = self.component(depth, row, false, object)?;
            used = used.saturating_add(added);
        }
        Ok(used)
    }

    /// Appends a component, or the part of one that is absent. Returns how many keys it has.
    #[cycle(making)]
    fn component(
        &mut self,
        depth: usize,
        row: usize,
        is_addition: bool,
        object: usize,
    ) -> Result<usize, JsonError<'s>> {
        let member = self.member(row, object)?;
        let name = self.name(row);
        if name.is_empty() {
            return self.group(depth, member.node, object);
        }
        if let Some(value) = self.tree.member(object, name) {
            self.value(depth, member.node, value)?;
            return Ok(1);
        }
        if let Presence::Mandatory = member.presence
            && !is_addition
        {
            return Err(at_item(object, JsonProblem::Missing(name)));
        }
        self.push(Part::Absent, object)?;
        Ok(0)
    }

    /// Appends an addition group, whose components are members of the same object. Returns how many
    /// keys they have.
    #[cycle(making)]
    fn group(&mut self, depth: usize, node: usize, object: usize) -> Result<usize, JsonError<'s>> {
        let Node::Sequence { root, .. } = self.node(node, object)? else {
            return Err(at_item(object, JsonProblem::NoNode));
        };
        if depth == 0 {
            return Err(at_item(object, JsonProblem::TooDeep));
        }
        if !self.has_member_of(root, object) {
            self.push(Part::Absent, object)?;
            return Ok(0);
        }
        self.push(
            Part::Sequence {
                count: root.count as usize,
                is_extended: false,
            },
            object,
        )?;
        self.components(depth - 1, root, object)
    }

    /// Appends the additions, and those that the schema does not know. Returns how many keys they
    /// have.
    #[cycle(making)]
    fn additions(
        &mut self,
        depth: usize,
        components: Components,
        object: usize,
    ) -> Result<usize, JsonError<'s>> {
        let rows = components.additions;
        let unknown = self.tree.member(object, UNKNOWN);
        let known = rows.count as usize;
        let more = match unknown {
            Some(array) => self.tree.count_in(array),
            None => 0,
        };
        self.push(Part::Additions(known.saturating_add(more)), object)?;
        let mut used = 0usize;
        for index in 0..known {
            let row = rows.from.saturating_add(index);
            let added = self.component(depth, row, true, object)?;
            used = used.saturating_add(added);
        }
        if let Some(array) = unknown {
            self.unknown_additions(array)?;
            used = used.saturating_add(1);
        }
        Ok(used)
    }

    /// Appends the items of an array.
    #[cycle(making)]
    fn list(&mut self, depth: usize, node: usize, array: usize) -> Result<(), JsonError<'s>> {
        let Kind::Array = self.item(array)?.kind else {
            return Err(expected(array, "an array"));
        };
        let count = self.tree.count_in(array);
        self.push(Part::Count(count), array)?;
        let mut item = array.saturating_add(1);
        for _ in 0..count {
            self.value(depth, node, item)?;
            item = self.item(item)?.end;
        }
        Ok(())
    }

    /// Appends the alternative that the only member of an object names.
    #[cycle(making)]
    fn choice(
        &mut self,
        depth: usize,
        components: Components,
        object: usize,
    ) -> Result<(), JsonError<'s>> {
        let key = object.saturating_add(1);
        let name = match self.item(object)?.kind {
            Kind::Object if self.tree.count_in(object) == 1 => match self.item(key)?.kind {
                Kind::Key(name) => name,
                _ => return Err(expected(object, "an object with one member")),
            },
            _ => return Err(expected(object, "an object with one member")),
        };
        let value = key.saturating_add(1);
        if components.is_extensible && name == UNKNOWN {
            return self.unknown_alternative(object, value);
        }
        let names = self.schema.names();
        let known = components.root.count as usize;
        let (row, index) = match names.member_named(components.root, name) {
            Some(row) => (row, row.saturating_sub(components.root.from)),
            None => match names.member_named(components.additions, name) {
                Some(row) => (
                    row,
                    row.saturating_sub(components.additions.from)
                        .saturating_add(known),
                ),
                None => return Err(at_item(key, JsonProblem::UnknownMember)),
            },
        };
        self.push(Part::Chosen(index), object)?;
        let node = self.member(row, object)?.node;
        self.around.push(object)?;
        self.value(depth, node, value)?;
        self.around.pop();
        Ok(())
    }

    /// Returns whether an object has a component of rows.
    fn has_member_of(&self, rows: Rows, object: usize) -> bool {
        for index in 0..rows.count as usize {
            let name = self.name(rows.from.saturating_add(index));
            if self.tree.member(object, name).is_some() {
                return true;
            }
        }
        false
    }

    /// Returns whether an object has an addition, also one that the schema does not know.
    fn has_addition(&self, components: Components, object: usize) -> bool {
        let rows = components.additions;
        for index in 0..rows.count as usize {
            if let Some(group) = group_in(self.schema, rows.from.saturating_add(index))
                && self.has_member_of(group, object)
            {
                return true;
            }
        }
        self.has_member_of(rows, object) || self.tree.member(object, UNKNOWN).is_some()
    }

    /// Returns whether rows have a component with a name, also in an addition group.
    fn has_name(&self, rows: Rows, name: &str) -> bool {
        let names = self.schema.names();
        if names.member_named(rows, name).is_some() {
            return true;
        }
        for index in 0..rows.count as usize {
            if let Some(group) = group_in(self.schema, rows.from.saturating_add(index))
                && names.member_named(group, name).is_some()
            {
                return true;
            }
        }
        false
    }

    /// Returns the error of an object that has a key which no component takes.
    fn wrong_key(&self, components: Components, object: usize) -> JsonError<'s> {
        let mut key = object.saturating_add(1);
        for _ in 0..self.tree.len() {
            let Some(item) = self.tree.item(key) else {
                break;
            };
            let Kind::Key(name) = item.kind else {
                break;
            };
            if self.tree.key_before(object, name, key).is_some() {
                return at_item(key, JsonProblem::Twice);
            }
            let is_known = self.has_name(components.root, name)
                || self.has_name(components.additions, name)
                || components.is_extensible && name == UNKNOWN;
            if !is_known {
                return at_item(key, JsonProblem::UnknownMember);
            }
            key = item.end;
        }
        at_item(object, JsonProblem::UnknownMember)
    }

    /// Appends the additions that the schema does not know: strings of hexadecimal digits, or `null`
    /// for those that are absent.
    fn unknown_additions(&mut self, array: usize) -> Result<(), JsonError<'s>> {
        let Kind::Array = self.item(array)?.kind else {
            return Err(expected(array, "an array"));
        };
        let mut item = array.saturating_add(1);
        for _ in 0..self.tree.count_in(array) {
            match self.item(item)?.kind {
                Kind::Null => self.push(Part::Absent, item)?,
                _ => self.unknown(item)?,
            }
            item = self.item(item)?.end;
        }
        Ok(())
    }

    /// Appends an alternative that the schema does not know: an array of its index among the
    /// additions, and its octets.
    fn unknown_alternative(&mut self, object: usize, array: usize) -> Result<(), JsonError<'s>> {
        let first = array.saturating_add(1);
        match self.item(array)?.kind {
            Kind::Array if self.tree.count_in(array) == 2 => {}
            _ => return Err(expected(array, "an array of an index and a string")),
        }
        let index = self.small(first)?;
        self.push(Part::UnknownChosen(Natural::Small(index)), object)?;
        let second = self.item(first)?.end;
        self.unknown(second)
    }
}
