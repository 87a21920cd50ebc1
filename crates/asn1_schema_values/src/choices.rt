//! The alternative of a CHOICE.

ghost use Rattle.std.specs.Prelude.{◌≡◌, ◌+◌, ◌≤◌, ℕ, List, MatchOption, Some, length, slice_get};
ghost use Rattle.asn1_schema.specs.declared.tables.Member.{Member};
ghost use Rattle.asn1_schema_values.specs.declared.value.Value.{Value};
ghost use Rattle.asn1_schema_values.specs.Values.{IsChosen, alternative_row, chosen_in, node_of, part_of};

use crate::extent::after;
use crate::value::{Message, Value};
use asn1_schema::{Node, Part};

/// Returns the row of an alternative in a table of `members` members. `None` if it is in none.
fn row_of_alternative(node: &Node, index: usize, members: usize) -> Option<usize>
    ensures { MatchOption result
        ((row : ℕ) → alternative_row (Some node.now) index ≡ Some row → members ≤ row)
        (λ row. alternative_row (Some node.now) index ≡ Some row) }
{
    let Node::Choice {
        alternatives,
        additions,
        ..
    } = *node
    else {
        return None;
    };
    let known = alternatives.count as usize;
    if index < known {
        return sum_below(alternatives.from, index, members);
    }
    if index - known < additions.count as usize {
        return sum_below(additions.from, index - known, members);
    }
    None
}

/// Returns a sum that is below a limit.
fn sum_below(a: usize, b: usize, limit: usize) -> Option<usize>
    ensures { MatchOption result (limit ≤ a + b) (λ sum. sum ≡ a + b) }
{
    let sum = a.checked_add(b)?;
    if sum < limit { Some(sum) } else { None }
}

/// Returns the type of the member in a row. `None` if there is none.
fn member_node(message: &Message<'_>, row: usize) -> Option<usize>
    ensures { MatchOption result
        ((m : Member) → slice_get message.now.tables.members.now row ≡ Some m → ⊥)
        (λ node. (m : Member) × (slice_get message.now.tables.members.now row ≡ Some m)
        × (node ≡ m.node)) }
{
    Some(message.tables.members.get(row)?.node)
}

impl<'v> Value<'v> {
    /// Returns the alternative of a CHOICE, and its name. `None` if the value is no CHOICE, or if
    /// the schema has no such alternative or no name of it.
    pub fn choice(&self) -> Option<(&'v [u8], Value<'v>)>
        ensures { MatchOption result
            ((name : List ℕ) (c : Value) → IsChosen self.now name c → ⊥)
            (λ r. IsChosen self.now r.0.now r.1) }
    {
        let message = self.message;
        let row = self.chosen_row()?;
        let name = message.names.of_member(row)?;
        let node = member_node(message, row)?;
        let at = after(message.parts, self.at)?;
        Some((name, Value { message, node, at }))
    }

    /// Returns the row of the alternative in the table of members.
    fn chosen_row(&self) -> Option<usize>
        ensures { MatchOption result
            ((index row : ℕ) → chosen_in (part_of self.now) ≡ Some index
            → alternative_row (node_of self.now) index ≡ Some row
            → length self.now.message.now.tables.members.now ≤ row)
            (λ row. (index : ℕ) × (chosen_in (part_of self.now) ≡ Some index)
            × (alternative_row (node_of self.now) index ≡ Some row)) }
    {
        let message = self.message;
        let Part::Chosen(index) = *message.parts.get(self.at)? else {
            return None;
        };
        let node = message.tables.nodes.get(self.node)?;
        row_of_alternative(node, index, message.tables.members.len())
    }
}
