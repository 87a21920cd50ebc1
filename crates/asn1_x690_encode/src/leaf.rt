//! Contents octets of values of one part.

ghost use Rattle.std.specs.Prelude.{◌≡◌, ◌-◌, ◌*◌, ◌^◌, ◌<◌, length};
ghost use Rattle.asn1_x690_writers.specs.Leaf.{leaf_in};
ghost use Rattle.asn1_x690_encode.specs.Encoding.{ContentsOutcome, HasType};

use crate::context::{Context, part_at, pass};
use asn1_schema::{MisfitKind, Node};
use asn1_x690::TypeTags;
use asn1_x690_writers::put_leaf;
use asn1_x691_writers::{Writer, reject};

/// Encodes the contents octets of a value of one part.
#[inline(always)]
pub(crate) fn encode_leaf(
    context: &Context<'_>,
    node: usize,
    kind: &Node,
    types: &TypeTags,
    octets: &mut [u8],
    state: &mut Writer,
) -> bool
    requires size { 8 * length octets.old < 2 ^ 64 }
    requires source { 8 * length context.now.source.now < 2 ^ 64 }
    requires parts { length context.now.parts.now < 2 ^ 64 - 1 }
    requires kind { HasType context.now node kind.now types.now }
    ensures { ContentsOutcome context.now (leaf_in context.now.tables.ranges.now context.now.tags.numbers.now node types.now kind.now) octets.old state.old octets.new
        state.new result }
{
    match part_at(context.parts, state.next) {
        None => reject(state, node, MisfitKind::NoPart),
        Some(part) => pass(
            put_leaf(
                octets,
                context.tables.ranges,
                context.tags.numbers,
                types,
                kind,
                context.source,
                part,
                node,
                state,
            ),
            state,
        ),
    }
}
