//! The type of the next value.

ghost use Rattle.std.specs.Prelude.{◌≡◌, ◌-◌, Option, length, slice_get, MatchOption, Some, None};
ghost use Rattle.asn1_builder.specs.Drafts.{awaited as awaited_by, draft_of, expected_type, innermost as innermost_of, type_through};

use crate::builder::Builder;
use crate::error::BuildError;
use crate::frame::Frame;
use asn1_schema::{Node, Tables};

/// Returns the type at a node.
fn node_at(nodes: &[Node], node: usize) -> Option<Node>
    ensures { result ≡ slice_get nodes.now node }
{
    if node < nodes.len() {
        Some(nodes[node])
    } else {
        None
    }
}

/// Returns the type at a node; of an open type, that of its value. `None` if the tables have none.
fn type_of(tables: &Tables<'_>, node: usize) -> Option<Node>
    ensures { result ≡ type_through (length tables.now.nodes.now) tables.now node }
{
    let mut at = node;
    let mut left = tables.nodes.len();
    while left > 0 {
        let found = node_at(tables.nodes, at)?;
        match found {
            Node::Open { inner } => at = inner,
            _ => return Some(found),
        }
        left -= 1;
    }
    None
}

impl<'s> Builder<'s> {
    /// Returns the type of the next value.
    pub(crate) fn expected(&self) -> Result<Node, BuildError>
        ensures { result ≡ expected_type (draft_of self.now) }
    {
        let Some(node) = self.next else {
            return Err(BuildError::NoValue);
        };
        match type_of(&self.tables, node) {
            Some(found) => Ok(found),
            None => Err(BuildError::NoNode),
        }
    }

    /// Returns the innermost value that is not ended.
    pub(crate) fn innermost(&self) -> Option<Frame>
        ensures { result ≡ innermost_of (draft_of self.now).frames }
    {
        match self.frames.as_slice().last() {
            Some(frame) => Some(*frame),
            None => None,
        }
    }
}

/// Returns the type of the value that may come after one that is complete, inside a value that is not
/// ended.
pub(crate) fn awaited(frame: Option<Frame>) -> Option<usize>
    ensures { result ≡ awaited_by frame }
{
    match frame {
        Some(Frame::Items { item, .. }) => Some(item),
        _ => None,
    }
}
