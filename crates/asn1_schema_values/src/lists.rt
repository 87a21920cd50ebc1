//! Items of a SEQUENCE OF or a SET OF.

ghost use Rattle.std.specs.Prelude.{◌≡◌, ℕ, MatchOption, None, Some};
ghost use Rattle.asn1_schema_values.specs.declared.value.Value.{Value};
ghost use Rattle.asn1_schema_values.specs.Extents.{HasValues};
ghost use Rattle.asn1_schema_values.specs.Values.{IsItem, IsNext, count_in, item_node, node_of, part_of};

use crate::extent::{end_of, end_of_values};
use crate::value::Value;
use asn1_schema::{Node, Part};

impl<'v> Value<'v> {
    /// Returns how many items a SEQUENCE OF or a SET OF has. `None` for another value.
    pub fn item_count(&self) -> Option<usize>
        ensures { result ≡ count_in (part_of self.now) }
    {
        match *self.message.parts.get(self.at)? {
            Part::Count(count) => Some(count),
            _ => None,
        }
    }

    /// Returns the item at an index, from 0 on. `None` if there is none.
    ///
    /// It reads the parts of the items before it. [`Value::next`] returns the item after another
    /// one.
    pub fn item(&self, index: usize) -> Option<Value<'v>>
        ensures { MatchOption result ((c : Value) → IsItem self.now index c → ⊥)
            (λ c. IsItem self.now index c) }
    {
        if index >= self.item_count()? {
            return None;
        }
        let node = self.item_node()?;
        let from = self.at.checked_add(1)?;
        let at = end_of_values(self.message.parts, from, index)?;
        Some(Value {
            message: self.message,
            node,
            at,
        })
    }

    /// Returns the value that follows this one, as one of the same type. It is the next item if this
    /// one is an item and not the last.
    pub fn next(&self) -> Option<Value<'v>>
        ensures { MatchOption result ((c : Value) → IsNext self.now c → ⊥)
            (λ c. IsNext self.now c) }
    {
        let at = end_of(self.message.parts, self.at)?;
        Some(Value {
            message: self.message,
            node: self.node,
            at,
        })
    }

    fn item_node(&self) -> Option<usize>
        ensures { result ≡ item_node (node_of self.now) }
    {
        let message = self.message;
        match *message.tables.nodes.get(self.node)? {
            Node::SequenceOf { item, .. } => Some(item),
            Node::SetOf { item, .. } => Some(item),
            _ => None,
        }
    }
}
