//! Items of a SEQUENCE OF after their number, in fragments from 16,384 items on (X.691 11.9.3.8, 20.6).

ghost use Rattle.std.specs.Prelude.{◌≡◌, ◌*◌, ◌-◌, ◌^◌, ◌<◌, length};
ghost use Rattle.asn1_x691_encode.specs.Encoding.{Outcome, numbered_in, below_in};

use crate::context::Context;
use crate::list::encode_items;
use asn1_x691_writers::{Writer, put_fragment_number, put_number_of_units};

/// Encodes `count` items after their number.
#[cycle(encoding)]
pub(crate) fn encode_numbered_items(
    context: &Context<'_>,
    depth: usize,
    node: usize,
    item: usize,
    count: usize,
    octets: &mut [u8],
    state: &mut Writer,
) -> bool
    requires size { 8 * length octets.old < 2 ^ 64 }
    requires source { 8 * length context.now.source.now < 2 ^ 64 }
    requires parts { length context.now.parts.now < 2 ^ 64 - 1 }
    ensures { Outcome context.now (numbered_in context.now depth node item count) octets.old state.old
        octets.new state.new result }
{
    let mut whole = count / 65536;
    while whole > 0 {
        whole -= 1;
        state.at = put_fragment_number(octets, state.at, context.is_aligned, 4);
        if !encode_items(context, depth, item, 65536, octets, state) {
            return false;
        }
    }
    encode_items_below(context, depth, node, item, count % 65536, octets, state)
}

/// Encodes fewer than 65,536 items after their number.
#[cycle(encoding)]
fn encode_items_below(
    context: &Context<'_>,
    depth: usize,
    node: usize,
    item: usize,
    count: usize,
    octets: &mut [u8],
    state: &mut Writer,
) -> bool
    requires size { 8 * length octets.old < 2 ^ 64 }
    requires source { 8 * length context.now.source.now < 2 ^ 64 }
    requires parts { length context.now.parts.now < 2 ^ 64 - 1 }
    requires few { count < 65536 }
    ensures { Outcome context.now (below_in context.now depth node item count) octets.old state.old
        octets.new state.new result }
{
    if count < 16384 {
        state.at = put_number_of_units(octets, state.at, context.is_aligned, count);
        return encode_items(context, depth, item, count, octets, state);
    }
    let times = count / 16384;
    state.at = put_fragment_number(octets, state.at, context.is_aligned, times);
    if !encode_items(context, depth, item, 16384 * times, octets, state) {
        return false;
    }
    let left = count % 16384;
    state.at = put_number_of_units(octets, state.at, context.is_aligned, left);
    encode_items(context, depth, item, left, octets, state)
}
