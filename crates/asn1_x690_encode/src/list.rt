//! SEQUENCE OF (X.690 8.10), and SET OF (8.12).

ghost use Rattle.std.specs.Prelude.{Option, ◌≡◌, ℕ, Bool, List, ◌-◌, ◌*◌, ◌%◌, ◌^◌, ◌<◌, false, length, MatchOption};
ghost use Rattle.asn1_schema.specs.declared.tables.Range.{Range};
ghost use Rattle.asn1_schema.specs.declared.part.Part.TheVariants.{Count as CountPart};
ghost use Rattle.asn1_schema.specs.Pieces.{Count};
ghost use Rattle.asn1_x690.specs.Der.{sequence_of};
ghost use Rattle.asn1_x691_writers.specs.Put.{piece_in};
ghost use Rattle.asn1_x690_encode.specs.Encoding.{ContentsOutcome, Outcome, FillsItems, ItemsMisfit, tables_of, types};

use crate::context::{Context, part_at};
use crate::node::encode_node;
use crate::set::encode_set_items;
use asn1_schema::{Length, MisfitKind, Part};
use asn1_x690_writers::has_size;
use asn1_x691_writers::{Writer, reject};

/// Returns how many items follow a part.
fn count_of(part: Part) -> Option<usize>
    ensures { MatchOption result ((ranges : List Range) (source : List ℕ) (n : ℕ) → piece_in ranges source part ≡ Count n → ⊥) (λ n. part ≡ CountPart n) }
{
    match part {
        Part::Count(count) => Some(count),
        _ => None,
    }
}

/// Encodes the contents of a SEQUENCE OF or a SET OF.
#[inline(always)]
#[cycle(encoding)]
pub(crate) fn encode_list(
    context: &Context<'_>,
    depth: usize,
    node: usize,
    is_set: bool,
    is_extensible: bool,
    size: Length,
    item: usize,
    octets: &mut [u8],
    state: &mut Writer,
) -> bool
    requires size { 8 * length octets.old < 2 ^ 64 }
    requires source { 8 * length context.now.source.now < 2 ^ 64 }
    requires parts { length context.now.parts.now < 2 ^ 64 - 1 }
    requires whole { state.old.at % 8 ≡ 0 }
    ensures { ContentsOutcome context.now (sequence_of (types context.now depth) (tables_of context.now) node is_set is_extensible size item) octets.old
        state.old octets.new state.new result }
{
    match part_at(context.parts, state.next) {
        None => reject(state, node, MisfitKind::NoPart),
        Some(part) => match count_of(*part) {
            None => reject(state, node, MisfitKind::OtherPart),
            Some(count) => {
                if !has_size(size, is_extensible, count) {
                    return reject(state, node, MisfitKind::NoEncoding);
                }
                state.next += 1;
                encode_items_by(context, depth, node, is_set, item, count, octets, state)
            }
        },
    }
}

/// Encodes `count` items, which are in ascending order where they are those of a SET OF.
#[cycle(encoding)]
fn encode_items_by(
    context: &Context<'_>,
    depth: usize,
    node: usize,
    is_set: bool,
    item: usize,
    count: usize,
    octets: &mut [u8],
    state: &mut Writer,
) -> bool
    requires size { 8 * length octets.old < 2 ^ 64 }
    requires source { 8 * length context.now.source.now < 2 ^ 64 }
    requires parts { length context.now.parts.now < 2 ^ 64 - 1 }
    requires whole { state.old.at % 8 ≡ 0 }
    ensures { Outcome context.now (FillsItems context.now depth node is_set item count) (ItemsMisfit context.now depth node is_set item count) octets.old
        state.old octets.new state.new result }
{
    if is_set {
        return encode_set_items(context, depth, node, item, count, octets, state);
    }
    encode_items(context, depth, node, item, count, octets, state)
}

/// Encodes `count` items.
#[cycle(encoding)]
fn encode_items(
    context: &Context<'_>,
    depth: usize,
    node: usize,
    item: usize,
    count: usize,
    octets: &mut [u8],
    state: &mut Writer,
) -> bool
    requires size { 8 * length octets.old < 2 ^ 64 }
    requires source { 8 * length context.now.source.now < 2 ^ 64 }
    requires parts { length context.now.parts.now < 2 ^ 64 - 1 }
    requires whole { state.old.at % 8 ≡ 0 }
    ensures { Outcome context.now (FillsItems context.now depth node false item count) (ItemsMisfit context.now depth node false item count) octets.old state.old
        octets.new state.new result }
{
    let mut left = count;
    while left > 0 {
        left -= 1;
        if encode_node(context, depth, item, octets, state).is_none() {
            return false;
        }
    }
    true
}
