//! The values of a schema as parts, and the contents of its open types.

use crate::builder::NO_ROWS;
use crate::error::SchemaError;
use crate::governed::{Governed, Types};
use crate::objects::ObjectRow;
use crate::open::{Key, OpenObject, OpenPath, OpenType};
use crate::open_types::PathRow;
use crate::schema::Schema;
use crate::spans::span_of;
use crate::values::Values;
use crate::workroom::Workroom;
use asn1_definitions::{MAX_STEPS, Place, Scope};
use asn1_notation::{Item, NotationError, Problem, narrow};
use asn1_schema::Rows;
use asn1_schema_values::NameSpan;
use std::alloc::{AllocError, Global};

/// Returns why an entry is no value of a field: what a name of it refers to has no definition or one with an
/// error, or it is a value of another type.
fn why_no_value(scope: Scope<'_>, place: Place) -> NotationError {
    let mut found = place;
    for _ in 0..MAX_STEPS {
        match scope.item(found) {
            Item::Broken => return scope.error(Problem::Consequence, place),
            Item::PieceName | Item::ValueReference | Item::ExternalValue => {
                match scope.named_value(found) {
                    Ok((value, _)) => found = value,
                    Err(error) => return error,
                }
            }
            _ => break,
        }
    }
    scope.error(Problem::Expected("a value of the field"), place)
}

/// Returns the value of a row of the objects of open types.
fn key_of<'v>(values: &'v Values, object: OpenObject) -> Key<'v> {
    let end = object.key.from.saturating_add(object.key.count as usize);
    Key {
        parts: values
            .parts
            .as_slice()
            .get(object.key.from..end)
            .unwrap_or(&[]),
        octets: values.octets.as_slice(),
    }
}

/// Returns an error if two objects of a set have the same value of a field that is UNIQUE (X.681 9.8). `rows` has
/// the values of the objects. An object that comes twice is one.
fn check_unique(
    scope: Scope<'_>,
    values: &Values,
    rows: &[OpenObject],
    objects: &[ObjectRow],
) -> Result<(), SchemaError> {
    let mut digests: Vec<(u64, Place, OpenObject)> = Vec::new(values.alloc);
    for (row, object) in rows.iter().zip(objects.iter()) {
        digests.push((key_of(values, *row).digest(), object.key, *row))?;
    }
    digests
        .as_mut_slice()
        .sort_unstable_by_key(|(digest, place, _)| (*digest, place.index));
    let mut last: Option<(u64, Place, OpenObject)> = None;
    for (digest, place, row) in digests.as_slice() {
        if let Some((other, before, object)) = last
            && other == *digest
            && before != *place
        {
            let (one, two) = (key_of(values, object), key_of(values, *row));
            if one.parts.len() == two.parts.len() && one.begins_with(two) {
                let expected = "a value that no other object of the set has (X.681 9.8)";
                return Err(SchemaError::Notation(scope.error(Problem::Expected(expected), *place)));
            }
        }
        last = Some((*digest, *place, *row));
    }
    Ok(())
}

impl Schema {
    /// Returns the types, for values of them.
    fn types_in<'r>(&'r self, scope: Scope<'r>) -> Types<'r> {
        Types {
            scope,
            nodes: self.nodes.as_slice(),
            node_enumerals: self.node_enumerals.as_slice(),
            members: self.members.as_slice(),
            member_names: self.member_names.as_slice(),
            enumerals: self.enumerals.as_slice(),
            defaults: self.defaults.as_slice(),
        }
    }

    /// Appends the parts of the values after DEFAULT.
    pub(crate) fn add_values(
        &mut self,
        alloc: Global,
        scope: Scope<'_>,
        values: &mut Values,
    ) -> Result<(), AllocError> {
        let mut found: Vec<Option<Rows>> = Vec::new(alloc);
        for default in self.defaults.as_slice() {
            let rows = values.add_default(self.types_in(scope), *default)?;
            found.push(rows.map(|(from, count)| Rows {
                from,
                count: narrow(count),
            }))?;
        }
        self.default_parts = found;
        Ok(())
    }

    /// Appends `count` open types and their objects, with the parts of the values by which they are found.
    pub(crate) fn add_opens(
        &mut self,
        scope: Scope<'_>,
        values: &mut Values,
        room: &Workroom,
        count: usize,
    ) -> Result<(), SchemaError> {
        for open in room.opens.as_slice().get(..count).unwrap_or(&[]) {
            let end = open.first_path.saturating_add(open.paths);
            let paths = room
                .paths
                .as_slice()
                .get(open.first_path..end)
                .unwrap_or(&[]);
            let end = open.from.saturating_add(open.count);
            let objects = room.objects.as_slice().get(open.from..end).unwrap_or(&[]);
            let objects = self.add_open_objects(scope, values, paths, objects)?;
            let paths = self.add_open_paths(scope, paths)?;
            self.opens.push(OpenType {
                node: open.node,
                paths,
                objects,
            })?;
        }
        Ok(())
    }

    /// Appends the objects of an open type with these paths. Returns where they are.
    fn add_open_objects(
        &mut self,
        scope: Scope<'_>,
        values: &mut Values,
        paths: &[PathRow],
        objects: &[ObjectRow],
    ) -> Result<Rows, SchemaError> {
        let from = self.open_objects.len();
        let mut next = paths.iter();
        for object in objects {
            let path = match next.next() {
                Some(path) => Some(path),
                None => {
                    next = paths.iter();
                    next.next()
                }
            };
            let key = match path {
                Some(path) => self.add_key(scope, values, object.key, *path)?,
                None => NO_ROWS,
            };
            let node = object.node;
            self.open_objects.push(OpenObject { key, node })?;
        }
        let count = self.open_objects.len().saturating_sub(from);
        if let [path] = paths
            && path.is_unique
        {
            let rows = self.open_objects.as_slice().get(from..).unwrap_or(&[]);
            check_unique(scope, values, rows, objects)?;
        }
        Ok(Rows {
            from,
            count: narrow(count),
        })
    }

    /// Appends the parts of the value that an object has of a component. Returns where they are.
    fn add_key(
        &mut self,
        scope: Scope<'_>,
        values: &mut Values,
        value: Place,
        path: PathRow,
    ) -> Result<Rows, SchemaError> {
        let governed = Governed {
            value,
            of: path.of,
            node: path.node,
        };
        match values.add(self.types_in(scope), governed)? {
            Some((from, count)) => Ok(Rows {
                from,
                count: narrow(count),
            }),
            None => Err(SchemaError::Notation(why_no_value(scope, value))),
        }
    }

    /// Appends the paths of an open type. Returns where they are.
    fn add_open_paths(&mut self, scope: Scope<'_>, paths: &[PathRow]) -> Result<Rows, AllocError> {
        let first = self.open_paths.len();
        for path in paths {
            let from = self.open_names.len();
            let mut inside = scope.inside(path.at);
            for _ in 0..scope.most() {
                let Some(index) = inside.next(scope.tape) else {
                    break;
                };
                let name = Place { index, ..path.at };
                if scope.item(name) == Item::PieceName {
                    self.open_names.push(span_of(scope, name))?;
                }
            }
            let count = narrow(self.open_names.len().saturating_sub(from));
            self.open_paths.push(OpenPath {
                levels: path.levels,
                names: Rows { from, count },
                node: path.node,
            })?;
        }
        Ok(Rows {
            from: first,
            count: narrow(paths.len()),
        })
    }

    /// Appends the open types that are copies of others with tags of their own.
    pub(crate) fn add_copied_opens(&mut self, sources: &[usize]) -> Result<(), AllocError> {
        if self.opens.is_empty() {
            return Ok(());
        }
        for (node, source) in sources.iter().enumerate() {
            if let Some(open) = self.open_row(*source) {
                self.opens.push(OpenType { node, ..open })?;
            }
        }
        Ok(())
    }

    /// Returns the open type, or the string with CONTAINING, at a node.
    fn open_row(&self, node: usize) -> Option<OpenType> {
        let opens = self.opens.as_slice();
        let index = opens.binary_search_by_key(&node, |open| open.node).ok()?;
        opens.get(index).copied()
    }

    /// Returns the open type at a node (X.682 10). `None` if the type is no open type, or if its contents do not
    /// depend on other components.
    pub fn open_type(&self, node: usize) -> Option<OpenType> {
        self.open_row(node).filter(|open| open.paths.count != 0)
    }

    /// Returns the node of the type that an OCTET STRING or a BIT STRING contains (X.682 11). `None` if the type
    /// has no CONTAINING, or one with ENCODED BY.
    pub fn contents_type(&self, node: usize) -> Option<usize> {
        let row = self.open_row(node)?;
        if row.paths.count != 0 {
            return None;
        }
        Some(self.objects_of(row).first()?.node)
    }

    /// Returns the paths of the components that the contents of an open type depend on.
    pub fn paths_of(&self, open: OpenType) -> &[OpenPath] {
        let rows = open.paths;
        let end = rows.from.saturating_add(rows.count as usize);
        self.open_paths
            .as_slice()
            .get(rows.from..end)
            .unwrap_or(&[])
    }

    /// Returns the names of the components of a path. The first is a component of the type in which the path
    /// begins. The contents depend on the last one.
    pub fn names_of(&self, path: OpenPath) -> &[NameSpan] {
        let rows = path.names;
        let end = rows.from.saturating_add(rows.count as usize);
        self.open_names
            .as_slice()
            .get(rows.from..end)
            .unwrap_or(&[])
    }

    /// Returns the objects that an open type may have, each one once for each of its paths.
    pub fn objects_of(&self, open: OpenType) -> &[OpenObject] {
        let rows = open.objects;
        let end = rows.from.saturating_add(rows.count as usize);
        self.open_objects
            .as_slice()
            .get(rows.from..end)
            .unwrap_or(&[])
    }

    /// Returns the node of the type of an open type's contents, by the values of the components at its paths.
    /// `None` if no object has these values.
    pub fn contents_of(&self, open: OpenType, keys: &[Key<'_>]) -> Option<usize> {
        let objects = self.objects_of(open);
        let width = open.paths.count as usize;
        let mut from = 0usize;
        for _ in 0..objects.len() {
            let end = from.saturating_add(width);
            let object = objects.get(from..end)?;
            if self.has_keys(object, keys) {
                return Some(object.first()?.node);
            }
            from = end;
        }
        None
    }

    /// Returns whether an object, by its rows, has these values.
    fn has_keys(&self, object: &[OpenObject], keys: &[Key<'_>]) -> bool {
        if object.len() != keys.len() {
            return false;
        }
        let parts = self.value_parts.as_slice();
        for (row, key) in object.iter().zip(keys.iter()) {
            let end = row.key.from.saturating_add(row.key.count as usize);
            let own = Key {
                parts: parts.get(row.key.from..end).unwrap_or(&[]),
                octets: self.value_octets.as_slice(),
            };
            if !key.begins_with(own) {
                return false;
            }
        }
        true
    }
}
