//! Views of values.

ghost use Rattle.std.specs.Prelude.{◌≡◌};

use crate::names::Names;
use asn1_schema::{Part, Tables};

/// A decoded message: its octets, its parts, and their schema.
#[derive(Clone, Copy, Debug)]
pub struct Message<'v> {
    /// The types.
    pub tables: Tables<'v>,
    /// Their names.
    pub names: Names<'v>,
    /// The octets that the parts have their bits in.
    pub octets: &'v [u8],
    /// The parts of its value.
    pub parts: &'v [Part],
}

/// A value of a message, or of a part of it.
#[derive(Clone, Copy, Debug)]
pub struct Value<'v> {
    /// The message.
    pub message: &'v Message<'v>,
    /// The index of its type.
    pub node: usize,
    /// The index of its first part.
    pub at: usize,
}

impl<'v> Value<'v> {
    ghost use Rattle.asn1_schema_values.specs.Values.{IsAt};

    /// Returns the value of a whole message, which is of the type at a node.
    pub fn whole(message: &'v Message<'v>, node: usize) -> Value<'v>
        ensures { IsAt message.now node 0 result }
    {
        Value {
            message,
            node,
            at: 0,
        }
    }
}
