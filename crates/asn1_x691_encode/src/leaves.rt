//! Encodes values of one part.

ghost use Rattle.asn1_x691.specs.Fragments.{most_fragments, octets as octets_in};
ghost use Rattle.std.specs.Prelude.{◌≡◌, ℕ, Bool, List, ◌+◌, ◌-◌, ◌*◌, ◌^◌, ◌<◌, Some, true, false, length, slice_get};
ghost use Rattle.asn1_schema.specs.declared.tables.Node.TheVariants as type;
ghost use Rattle.asn1_schema.specs.declared.tables.Range.{Range};
ghost use Rattle.asn1_schema.specs.Encodings.{anywhere};
ghost use Rattle.asn1_schema.specs.Pieces.{Null, Truth, Unknown};
ghost use Rattle.asn1_schema.specs.TypeEncodings.{leaf, nothing, put};
ghost use Rattle.asn1_x691_writers.specs.Put.{HasManyBits, IsPut, piece_in};
ghost use Rattle.asn1_x691.specs.Strings.{bit};
ghost use Rattle.asn1_x691.specs.Leaves.{integer, integer_between_by, integer_at_least_by, enumerated_by, bit_string, octet_string};
ghost use Rattle.asn1_x691_encode.specs.Encoding.{Outcome};

use crate::context::{Context, part_at, pass};
use asn1_schema::{Bounds, Length, LowerBound, MisfitKind, Part};
use asn1_x691_writers::{
    Writer, leave, put_bit_string, put_boolean, put_enumerated, put_integer, put_integer_at_least,
    put_integer_between, put_octet_string, put_unknown, reject, size_of_fragments,
};

/// Encodes a BOOLEAN (X.691 12).
#[inline(never)]
pub(crate) fn encode_boolean(
    context: &Context<'_>,
    node: usize,
    octets: &mut [u8],
    state: &mut Writer,
) -> bool
    requires size { 8 * length octets.old < 2 ^ 64 }
    requires source { 8 * length context.now.source.now < 2 ^ 64 }
    requires parts { length context.now.parts.now < 2 ^ 64 - 1 }
    ensures { Outcome context.now (leaf (anywhere (bit node)) Truth node) octets.old state.old octets.new state.new result }
{
    match part_at(context.parts, state.next) {
        None => reject(state, node, MisfitKind::NoPart),
        Some(part) => pass(put_boolean(octets, part, node, state), state),
    }
}

/// Encodes an INTEGER without bounds (X.691 13.2.4).
#[inline(never)]
pub(crate) fn encode_integer(
    context: &Context<'_>,
    node: usize,
    octets: &mut [u8],
    state: &mut Writer,
) -> bool
    requires size { 8 * length octets.old < 2 ^ 64 }
    requires source { 8 * length context.now.source.now < 2 ^ 64 }
    requires parts { length context.now.parts.now < 2 ^ 64 - 1 }
    ensures { Outcome context.now (integer context.now.is_aligned node) octets.old state.old octets.new state.new result }
{
    match part_at(context.parts, state.next) {
        None => reject(state, node, MisfitKind::NoPart),
        Some(part) => pass(
            put_integer(
                octets,
                context.is_aligned,
                context.source,
                part,
                node,
                state,
            ),
            state,
        ),
    }
}

/// Encodes an INTEGER between two bounds (X.691 13.2.2).
#[inline(never)]
pub(crate) fn encode_between(
    context: &Context<'_>,
    bounds: &Bounds,
    is_extensible: bool,
    node: usize,
    octets: &mut [u8],
    state: &mut Writer,
) -> bool
    requires size { 8 * length octets.old < 2 ^ 64 }
    requires source { 8 * length context.now.source.now < 2 ^ 64 }
    requires parts { length context.now.parts.now < 2 ^ 64 - 1 }
    ensures { Outcome context.now (integer_between_by context.now.is_aligned node is_extensible bounds.now.least bounds.now.range) octets.old state.old octets.new state.new result }
{
    match part_at(context.parts, state.next) {
        None => reject(state, node, MisfitKind::NoPart),
        Some(part) => pass(
            put_integer_between(
                octets,
                context.is_aligned,
                *bounds,
                is_extensible,
                context.source,
                part,
                node,
                state,
            ),
            state,
        ),
    }
}

/// Encodes an INTEGER with a least value (X.691 13.2.3).
#[inline(never)]
pub(crate) fn encode_at_least(
    context: &Context<'_>,
    bound: LowerBound,
    is_extensible: bool,
    node: usize,
    octets: &mut [u8],
    state: &mut Writer,
) -> bool
    requires size { 8 * length octets.old < 2 ^ 64 }
    requires source { 8 * length context.now.source.now < 2 ^ 64 }
    requires parts { length context.now.parts.now < 2 ^ 64 - 1 }
    ensures { Outcome context.now (integer_at_least_by context.now.is_aligned node is_extensible bound.least) octets.old state.old octets.new state.new result }
{
    match part_at(context.parts, state.next) {
        None => reject(state, node, MisfitKind::NoPart),
        Some(part) => pass(
            put_integer_at_least(
                octets,
                context.is_aligned,
                bound,
                is_extensible,
                context.source,
                part,
                node,
                state,
            ),
            state,
        ),
    }
}

/// Encodes an ENUMERATED (X.691 14).
#[inline(never)]
pub(crate) fn encode_enumerated(
    context: &Context<'_>,
    last: usize,
    is_extensible: bool,
    additions: usize,
    node: usize,
    octets: &mut [u8],
    state: &mut Writer,
) -> bool
    requires size { 8 * length octets.old < 2 ^ 64 }
    requires source { 8 * length context.now.source.now < 2 ^ 64 }
    requires parts { length context.now.parts.now < 2 ^ 64 - 1 }
    ensures { Outcome context.now (enumerated_by context.now.is_aligned node is_extensible last additions) octets.old state.old octets.new state.new result }
{
    match part_at(context.parts, state.next) {
        None => reject(state, node, MisfitKind::NoPart),
        Some(part) => pass(
            put_enumerated(
                octets,
                context.is_aligned,
                last,
                is_extensible,
                additions,
                context.source,
                part,
                node,
                state,
            ),
            state,
        ),
    }
}

/// Encodes a BIT STRING (X.691 16).
#[inline(never)]
pub(crate) fn encode_bits(
    context: &Context<'_>,
    size: &Length,
    is_extensible: bool,
    has_names: bool,
    node: usize,
    octets: &mut [u8],
    state: &mut Writer,
) -> bool
    requires size { 8 * length octets.old < 2 ^ 64 }
    requires source { 8 * length context.now.source.now < 2 ^ 64 }
    requires parts { length context.now.parts.now < 2 ^ 64 - 1 }
    requires kind { slice_get context.now.tables.nodes.now node ≡ Some (type.BitString size.now is_extensible has_names) }
    ensures { Outcome context.now (bit_string most_fragments context.now.is_aligned node size.now is_extensible has_names) octets.old state.old octets.new state.new result }
{
    match part_at(context.parts, state.next) {
        None => reject(state, node, MisfitKind::NoPart),
        Some(part) if has_many_bits(context.source, &part) => leave(state, node),
        Some(part) => pass(
            put_bit_string(
                octets,
                context.is_aligned,
                *size,
                is_extensible,
                has_names,
                context.source,
                part,
                node,
                state,
            ),
            state,
        ),
    }
}

/// Returns whether a part is a BIT STRING in fragments, of 2^64 bits or more.
#[inline(always)]
fn has_many_bits(source: &[u8], part: &Part) -> bool
    requires { 8 * length source.now < 2 ^ 64 }
    ensures yes { result ≡ true → HasManyBits source.now part.now }
    ensures no { result ≡ false → HasManyBits source.now part.now → ⊥ }
{
    match *part {
        Part::BitsInFragments(fragments) => {
            size_of_fragments(source, 1, fragments) > u64::MAX as u128
        }
        _ => false,
    }
}

/// Encodes an OCTET STRING (X.691 17).
#[inline(never)]
pub(crate) fn encode_octets(
    context: &Context<'_>,
    size: &Length,
    is_extensible: bool,
    node: usize,
    octets: &mut [u8],
    state: &mut Writer,
) -> bool
    requires size { 8 * length octets.old < 2 ^ 64 }
    requires source { 8 * length context.now.source.now < 2 ^ 64 }
    requires parts { length context.now.parts.now < 2 ^ 64 - 1 }
    ensures { Outcome context.now (octet_string most_fragments context.now.is_aligned node size.now is_extensible) octets.old state.old octets.new state.new result }
{
    match part_at(context.parts, state.next) {
        None => reject(state, node, MisfitKind::NoPart),
        Some(part) => pass(
            put_octet_string(
                octets,
                context.is_aligned,
                *size,
                is_extensible,
                context.source,
                part,
                node,
                state,
            ),
            state,
        ),
    }
}

/// Encodes NULL, which has no bits (X.691 18).
pub(crate) fn encode_null(
    context: &Context<'_>,
    node: usize,
    octets: &mut [u8],
    state: &mut Writer,
) -> bool
    requires size { 8 * length octets.old < 2 ^ 64 }
    requires parts { length context.now.parts.now < 2 ^ 64 - 1 }
    ensures { Outcome context.now (put Null nothing node) octets.old state.old octets.new state.new result }
{
    match part_at(context.parts, state.next) {
        None => reject(state, node, MisfitKind::NoPart),
        Some(part) => pass(is_null(octets, part, node, state), state),
    }
}

/// Returns whether a part is that of NULL.
fn is_null(octets: &mut [u8], part: Part, node: usize, state: &mut Writer) -> bool
    ensures { (is_aligned : Bool) (ranges : List Range) (source : List ℕ) → IsPut is_aligned (put Null nothing node) (piece_in ranges source part) octets.old state.old
        octets.new state.new result }
{
    match part {
        Part::Null => true,
        _ => reject(state, node, MisfitKind::OtherPart),
    }
}

/// Encodes the octets of a value that the schema does not know (X.691 19.9, 23.8).
pub(crate) fn encode_unknown(
    context: &Context<'_>,
    node: usize,
    octets: &mut [u8],
    state: &mut Writer,
) -> bool
    requires size { 8 * length octets.old < 2 ^ 64 }
    requires source { 8 * length context.now.source.now < 2 ^ 64 }
    requires parts { length context.now.parts.now < 2 ^ 64 - 1 }
    ensures { Outcome context.now (leaf (octets_in most_fragments context.now.is_aligned node) Unknown node) octets.old state.old octets.new
        state.new result }
{
    match part_at(context.parts, state.next) {
        None => reject(state, node, MisfitKind::NoPart),
        Some(part) => pass(
            put_unknown(
                octets,
                context.is_aligned,
                context.source,
                part,
                node,
                state,
            ),
            state,
        ),
    }
}
