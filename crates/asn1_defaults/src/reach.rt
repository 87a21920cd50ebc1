//! The types that a type leads to.

use asn1_resolve::Schema;
use asn1_schema::{Node, Rows, Tables};
use std::alloc::{AllocError, Global};

/// What is left to visit, and what was visited.
#[derive(Drop)]
struct Visits {
    left: Vec<usize>,
    is_visited: Vec<bool>,
}

impl Visits {
    fn add(&mut self, node: usize) -> Result<(), AllocError> {
        if let Some(place) = self.is_visited.as_mut_slice().get_mut(node)
            && !*place
        {
            *place = true;
            self.left.push(node)?;
        }
        Ok(())
    }

    /// Adds the types that the contents of an open type, or of a string with CONTAINING, may have.
    fn add_contents(&mut self, schema: &Schema, node: usize) -> Result<(), AllocError> {
        if let Some(inner) = schema.contents_type(node) {
            self.add(inner)?;
        }
        if let Some(open) = schema.open_type(node) {
            for object in schema.objects_of(open) {
                self.add(object.node)?;
            }
        }
        Ok(())
    }

    fn add_members(&mut self, tables: Tables<'_>, rows: Rows) -> Result<(), AllocError> {
        let end = rows.from.saturating_add(rows.count as usize);
        for member in tables.members.get(rows.from..end).unwrap_or(&[]) {
            self.add(member.node)?;
        }
        Ok(())
    }
}

/// Returns of each node whether a type leads to it, also as the contents of an open type or of a string.
pub(crate) fn reached_from(
    alloc: Global,
    schema: &Schema,
    node: usize,
) -> Result<Vec<bool>, AllocError> {
    let tables = schema.tables();
    let mut visits = Visits {
        left: Vec::new(alloc),
        is_visited: Vec::new(alloc),
    };
    visits.is_visited.resize(tables.nodes.len(), false)?;
    visits.add(node)?;
    for _ in 0..tables.nodes.len() {
        let Some(next) = visits.left.pop() else {
            break;
        };
        match tables.nodes.get(next) {
            Some(
                Node::Sequence {
                    root: first,
                    additions,
                    ..
                }
                | Node::Choice {
                    alternatives: first,
                    additions,
                    ..
                },
            ) => {
                visits.add_members(tables, *first)?;
                visits.add_members(tables, *additions)?;
            }
            Some(Node::SequenceOf { item, .. } | Node::SetOf { item, .. }) => visits.add(*item)?,
            Some(Node::Open { inner }) => visits.add(*inner)?,
            Some(Node::OctetString { .. } | Node::BitString { .. }) => {
                visits.add_contents(schema, next)?;
            }
            _ => {}
        }
    }
    let Visits { is_visited, .. } = visits;
    Ok(is_visited)
}
