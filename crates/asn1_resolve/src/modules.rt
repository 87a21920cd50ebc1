//! From entries to tables.

use crate::alphabet::WHOLE_ALPHABETS;
use crate::builder::{Builder, NO_SOURCE, NamedType};
use crate::built_in::check_constraints;
use crate::objects::check_objects;
use crate::spans::span_of;
use crate::tag_tables::NO_TYPE_TAGS;
use asn1_definitions::{
    Instance, LISTS, Place, Scope, check_imports, find_instances, index_definitions, number_types,
};
use asn1_notation::{Entry, Item, NotationError, Problem, Sink, error_at};
use asn1_schema::Node;

/// Makes the tables of the types that the entries of a text define.
///
/// `instances` receives the instances of parameterized types, and must have room for all of them.
/// `tables` must be empty. If a table has too little room, it has the first rows, and counts all. Equal
/// names and tags are found only with room for all of them. EXTERNAL, EMBEDDED PDV, CHARACTER STRING and
/// INSTANCE OF are errors here: [`Schema::parse`](crate::Schema::parse) has the definitions of their
/// associated types.
///
/// # Errors
///
/// Returns the first problem that is found. It looks for duplicate definitions first, then at
/// parameterized types, names of types, imports, objects and constraints, and at the types themselves
/// last. The problem is `TooMuchWork` if `instances` has too little room.
pub fn resolve(
    text: &[u8],
    tape: &mut [Entry],
    instances: &mut [Instance],
    tables: &mut Builder<'_>,
) -> Result<(), NotationError> {
    let mut lists = [0u32; LISTS];
    index_definitions(text, tape, &mut lists)?;
    let room = instances.len();
    let mut found = Sink::new(instances);
    find_instances(text, tape, &lists, &mut found)?;
    if room < found.count() {
        return Err(error_at(Problem::TooMuchWork, 0));
    }
    resolve_instances(text, tape, &lists, found.rows_from(0), tables)
}

/// Makes the tables, by the lists of definitions and the instances of parameterized types.
pub(crate) fn resolve_instances(
    text: &[u8],
    tape: &mut [Entry],
    lists: &[u32; LISTS],
    instances: &mut [Instance],
    tables: &mut Builder<'_>,
) -> Result<(), NotationError> {
    let count = number_types(text, tape, lists, instances)?;
    let scope = Scope {
        text,
        tape,
        lists,
        instances,
    };
    check_imports(scope)?;
    check_objects(scope)?;
    for instance in 0..scope.instances.len() {
        check_constraints(scope, instance)?;
    }
    for range in &WHOLE_ALPHABETS {
        tables.ranges.push(*range);
    }
    tables.nodes.reserve(count);
    tables.node_names.reserve(count);
    tables.node_enumerals.reserve(count);
    for _ in 0..count {
        tables.type_tags.push(NO_TYPE_TAGS);
        tables.sources.push(NO_SOURCE);
    }
    for instance in 0..scope.instances.len() {
        tables.add_tags(scope, instance)?;
    }
    for instance in 0..scope.instances.len() {
        tables.add_nodes(scope, instance)?;
    }
    tables.add_names(scope)?;
    for instance in 1..scope.instances.len() {
        tables.add_name_of_instance(scope, instance);
    }
    tables.fill_copies();
    Ok(())
}

impl<'m> Builder<'m> {
    /// Sets the node of each type of an instance that has one.
    fn add_nodes(&mut self, scope: Scope<'_>, instance: usize) -> Result<(), NotationError> {
        let mut definition = Place {
            instance,
            ..scope.instance(instance).definition
        };
        let mut walk = scope.walk(instance);
        for _ in 0..scope.most() {
            let Some(place) = walk.next(scope) else {
                break;
            };
            let item = scope.item(place);
            if item.is_definition() {
                definition = place;
            }
            if item.is_type()
                && let Some(row) = scope.own_node(place)
            {
                let (node, enumerals) = self.node(scope, place)?;
                self.nodes.set(row, node);
                self.node_enumerals.set(row, enumerals);
                if scope.is_open(place) {
                    self.add_open(scope, place, definition, row)?;
                } else if let Node::OctetString { .. } | Node::BitString { .. } = node {
                    self.add_containing(scope, place, row)?;
                }
            }
        }
        Ok(())
    }

    /// Adds the types that have names, and names their nodes.
    fn add_names(&mut self, scope: Scope<'_>) -> Result<(), NotationError> {
        let mut walk = scope.walk(0);
        for _ in 0..scope.most() {
            let Some(place) = walk.next(scope) else {
                break;
            };
            let item = scope.item(place);
            if item == Item::TypeDefinition && !scope.is_parameterized(place) {
                self.add_name(scope, place)?;
            }
            if item.is_definition() {
                walk.skip_inside(scope, place);
            }
        }
        Ok(())
    }

    /// Names the node of the type of an instance, if it has one of its own.
    fn add_name_of_instance(&mut self, scope: Scope<'_>, instance: usize) {
        let definition = scope.instance(instance).definition;
        let of = scope.type_in(Place {
            instance,
            ..definition
        });
        if let Some(node) = scope.own_node(of) {
            self.node_names.set(node, span_of(scope, definition));
        }
    }

    /// Adds the type of a definition, and names its node, unless that is of another definition. A class
    /// is none.
    fn add_name(&mut self, scope: Scope<'_>, place: Place) -> Result<(), NotationError> {
        let name = span_of(scope, place);
        let module = span_of(
            scope,
            Place {
                index: place.module,
                ..place
            },
        );
        let of = scope.type_in(place);
        if scope.item(scope.base(of)?) == Item::Class {
            return Ok(());
        }
        let named = scope.node_of(of)?;
        let node = self.used_node(scope, of, None, false)?;
        self.types.push(NamedType { module, name, node });
        let mut own = of;
        for _ in 0..scope.most() {
            if scope.item(own) != Item::Tagged {
                break;
            }
            own = scope.type_in(own);
        }
        if node != named || scope.own_node(own).is_some() {
            self.node_names.set(node, name);
        }
        Ok(())
    }
}
