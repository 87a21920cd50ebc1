//! The names of types and members.

ghost use Rattle.std.specs.Prelude.{◌≡◌, ◌↔◌, IsTrue, MatchOption, slice_get};
ghost use Rattle.asn1_schema_values.specs.Names.{IsFirstNamed, IsNotNamed, member_name, name_of, node_name};

use asn1_schema::Rows;

/// A name, as octets of a text.
#[derive(Clone, Copy, Debug, PartialEq, Eq)]
pub struct NameSpan {
    /// The index of the first octet.
    pub from: usize,
    /// How many octets there are.
    pub count: usize,
}

/// The names of the rows of a schema's tables, each in the row with the same index.
#[derive(Clone, Copy, Debug)]
pub struct Names<'s> {
    /// The text that has all names.
    pub text: &'s [u8],
    /// The names of types.
    pub nodes: &'s [NameSpan],
    /// The names of components and alternatives.
    pub members: &'s [NameSpan],
}

/// Returns the name in a row of a table. `None` if there is none.
fn name_in<'s>(text: &'s [u8], spans: &[NameSpan], row: usize) -> Option<&'s [u8]>
    ensures { MatchOption result (name_of text.now (slice_get spans.now row) ≡ None)
        (λ name. name_of text.now (slice_get spans.now row) ≡ Some name.now) }
{
    let span = spans.get(row)?;
    let end = span.from.checked_add(span.count)?;
    if end > text.len() {
        return None;
    }
    Some(&text[span.from..end])
}

impl<'s> Names<'s> {
    /// Returns the name of a type. `None` if it has none.
    pub fn of_node(&self, node: usize) -> Option<&'s [u8]>
        ensures { MatchOption result (node_name self.now node ≡ None)
            (λ name. node_name self.now node ≡ Some name.now) }
    {
        name_in(self.text, self.nodes, node)
    }

    /// Returns the name of a component or an alternative. `None` if it has none.
    pub fn of_member(&self, member: usize) -> Option<&'s [u8]>
        ensures { MatchOption result (member_name self.now member ≡ None)
            (λ name. member_name self.now member ≡ Some name.now) }
    {
        name_in(self.text, self.members, member)
    }

    /// Returns whether a component or an alternative has this name.
    fn has_name(&self, member: usize, name: &str) -> bool
        ensures { IsTrue result ↔ (member_name self.now member ≡ Some name.now) }
    {
        match self.of_member(member) {
            Some(found) => found == name.as_bytes(),
            None => false,
        }
    }

    /// Returns the index of the first member of the rows with this name. `None` if none has it.
    pub fn member_named(&self, rows: Rows, name: &str) -> Option<usize>
        ensures { MatchOption result (IsNotNamed self.now rows name.now)
            (λ index. IsFirstNamed self.now rows name.now index) }
    {
        let end = rows
            .from
            .saturating_add(rows.count as usize)
            .min(self.members.len());
        for index in rows.from..end {
            if self.has_name(index, name) {
                return Some(index);
            }
        }
        None
    }
}
