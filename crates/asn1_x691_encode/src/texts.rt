//! Encodes strings of characters of known alphabets.

ghost use Rattle.std.specs.Prelude.{◌-◌, ◌*◌, ◌^◌, ◌<◌, length};
ghost use Rattle.asn1_x691.specs.Fragments.{most_fragments};
ghost use Rattle.asn1_x691.specs.Leaves.{text, time};
ghost use Rattle.asn1_schema.specs.Times.{IsTime};
ghost use Rattle.asn1_x691_fields.specs.Characters.{rows_of};
ghost use Rattle.asn1_x691_encode.specs.Encoding.{Outcome};

use crate::context::{Context, part_at, pass};
use asn1_schema::{Length, MisfitKind, Rows, TimeKind};
use asn1_x691_writers::{Writer, put_text, put_time, reject};

/// Encodes a string of characters (X.691 30.1 to 30.5).
#[inline(always)]
pub(crate) fn encode_text(
    context: &Context<'_>,
    size: &Length,
    is_extensible: bool,
    alphabet: Rows,
    whole: Rows,
    node: usize,
    octets: &mut [u8],
    state: &mut Writer,
) -> bool
    requires size { 8 * length octets.old < 2 ^ 64 }
    requires source { 8 * length context.now.source.now < 2 ^ 64 }
    requires parts { length context.now.parts.now < 2 ^ 64 - 1 }
    ensures { Outcome context.now (text most_fragments context.now.is_aligned node size.now is_extensible (rows_of context.now.tables.ranges.now alphabet)
        (rows_of context.now.tables.ranges.now whole)) octets.old state.old octets.new state.new result }
{
    match part_at(context.parts, state.next) {
        None => reject(state, node, MisfitKind::NoPart),
        Some(part) => pass(
            put_text(
                octets,
                context.is_aligned,
                context.tables.ranges,
                *size,
                is_extensible,
                alphabet,
                whole,
                context.source,
                part,
                node,
                state,
            ),
            state,
        ),
    }
}

/// Encodes a time of this kind (X.691 30, X.680 46, 47).
#[inline(never)]
pub(crate) fn encode_time(
    context: &Context<'_>,
    kind: TimeKind,
    node: usize,
    octets: &mut [u8],
    state: &mut Writer,
) -> bool
    requires size { 8 * length octets.old < 2 ^ 64 }
    requires source { 8 * length context.now.source.now < 2 ^ 64 }
    requires parts { length context.now.parts.now < 2 ^ 64 - 1 }
    ensures { Outcome context.now (time most_fragments context.now.is_aligned node (IsTime kind)) octets.old state.old
        octets.new state.new result }
{
    match part_at(context.parts, state.next) {
        None => reject(state, node, MisfitKind::NoPart),
        Some(part) => pass(
            put_time(
                octets,
                context.is_aligned,
                context.tables.ranges,
                kind,
                context.source,
                part,
                node,
                state,
            ),
            state,
        ),
    }
}
