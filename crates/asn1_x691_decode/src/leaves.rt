//! Decodes values of one part.

ghost use Rattle.std.specs.Prelude.{◌≡◌, ◌≤◌, ◌<◌, ◌^◌, ◌*◌, true, length};
ghost use Rattle.asn1_bits.specs.Bits.{bits};
ghost use Rattle.asn1_schema.specs.Encodings.{anywhere};
ghost use Rattle.asn1_schema.specs.Pieces.{Text, Truth};
ghost use Rattle.asn1_schema.specs.Reals.{IsReal};
ghost use Rattle.asn1_schema.specs.Times.{IsTime};
ghost use Rattle.asn1_schema.specs.TypeEncodings.{leaf};
ghost use Rattle.asn1_x691.specs.Characters.{text_of};
ghost use Rattle.asn1_x691.specs.Contents.{IsObjectIdentifier, IsRelativeIdentifier, IsUtf8Text};
ghost use Rattle.asn1_x691.specs.Fragments.{most_fragments};
ghost use Rattle.asn1_x691.specs.Leaves.{integer_between_by, integer_at_least_by, integer, enumerated_by, bit_string, octet_string, text, contents, time};
ghost use Rattle.asn1_x691.specs.Limits.{bit_fragments};
ghost use Rattle.asn1_x691.specs.Strings.{bit};
ghost use Rattle.asn1_x691_fields.specs.Characters.{rows_of};
ghost use Rattle.asn1_x691_fields.specs.Outcomes.{IsWithin, IsMoved, IsPlaced};
ghost use Rattle.asn1_x691_decode.specs.Decoding.{Outcome, decoder_limits};

use crate::context::Context;
use crate::room::{keep, push};
use asn1_schema::{Bounds, Length, LowerBound, Part, Rows, TimeKind};
use asn1_x691_fields::{
    State, next_bit, next_bit_string, next_enumerated, next_extensible_text, next_integer,
    next_integer_at_least_by, next_integer_between_by, next_object_identifier, next_octet_string,
    next_real, next_relative_identifier, next_text_of_root, next_time, next_utf8_string,
};

/// Decodes a BOOLEAN (X.691 12).
#[inline(always)]
pub(crate) fn decode_boolean(
    context: &Context<'_>,
    node: usize,
    state: &mut State,
    parts: &mut [Part],
) -> bool
    requires size { 8 * length context.now.octets.now < 2 ^ 64 }
    requires within { IsWithin (bits context.now.octets.now) state.old }
    ensures moved { IsMoved (bits context.now.octets.now) state.old state.new }
    ensures did { Outcome context.now (λ at. (leaf (anywhere (bit node)) Truth node at).encoding)
        state.old state.new parts.old parts.new result }
{
    match next_bit(context.octets, node, state) {
        None => false,
        Some(bit) => {
            push(parts, state, Part::Truth(bit));
            true
        }
    }
}

/// Decodes an INTEGER between two bounds (X.691 13.1, 13.2.2).
#[inline(never)]
pub(crate) fn decode_integer_between(
    context: &Context<'_>,
    bounds: &Bounds,
    is_extensible: bool,
    node: usize,
    state: &mut State,
    parts: &mut [Part],
) -> bool
    requires size { 8 * length context.now.octets.now < 2 ^ 64 }
    requires within { IsWithin (bits context.now.octets.now) state.old }
    requires placed { IsPlaced context.now.is_aligned state.old }
    ensures moved { IsMoved (bits context.now.octets.now) state.old state.new }
    ensures did { Outcome context.now (λ at. (integer_between_by context.now.is_aligned node is_extensible bounds.now.least bounds.now.range at).encoding)
        state.old state.new parts.old parts.new result }
{
    let part = next_integer_between_by(
        context.octets,
        context.is_aligned,
        *bounds,
        is_extensible,
        node,
        state,
    );
    keep(part, parts, state)
}

/// Decodes an INTEGER that has a least value alone (X.691 13.1, 13.2.3).
#[inline(never)]
pub(crate) fn decode_integer_at_least(
    context: &Context<'_>,
    bound: LowerBound,
    is_extensible: bool,
    node: usize,
    state: &mut State,
    parts: &mut [Part],
) -> bool
    requires size { 8 * length context.now.octets.now < 2 ^ 64 }
    requires within { IsWithin (bits context.now.octets.now) state.old }
    requires placed { IsPlaced context.now.is_aligned state.old }
    ensures moved { IsMoved (bits context.now.octets.now) state.old state.new }
    ensures did { Outcome context.now (λ at. (integer_at_least_by context.now.is_aligned node is_extensible bound.least at).encoding)
        state.old state.new parts.old parts.new result }
{
    let part = next_integer_at_least_by(
        context.octets,
        context.is_aligned,
        bound,
        is_extensible,
        node,
        state,
    );
    keep(part, parts, state)
}

/// Decodes an INTEGER without bounds (X.691 13.2.4).
#[inline(never)]
pub(crate) fn decode_integer(
    context: &Context<'_>,
    node: usize,
    state: &mut State,
    parts: &mut [Part],
) -> bool
    requires size { 8 * length context.now.octets.now < 2 ^ 64 }
    requires within { IsWithin (bits context.now.octets.now) state.old }
    requires placed { IsPlaced context.now.is_aligned state.old }
    ensures moved { IsMoved (bits context.now.octets.now) state.old state.new }
    ensures did { Outcome context.now (λ at. (integer context.now.is_aligned node at).encoding)
        state.old state.new parts.old parts.new result }
{
    let part = next_integer(context.octets, context.is_aligned, node, state);
    keep(part, parts, state)
}

/// Decodes an ENUMERATED (X.691 14).
#[inline(never)]
pub(crate) fn decode_enumerated(
    context: &Context<'_>,
    last: u32,
    is_extensible: bool,
    additions: u32,
    node: usize,
    state: &mut State,
    parts: &mut [Part],
) -> bool
    requires size { 8 * length context.now.octets.now < 2 ^ 64 }
    requires within { IsWithin (bits context.now.octets.now) state.old }
    requires placed { IsPlaced context.now.is_aligned state.old }
    ensures moved { IsMoved (bits context.now.octets.now) state.old state.new }
    ensures did { Outcome context.now (λ at. (enumerated_by context.now.is_aligned node is_extensible last additions at).encoding)
        state.old state.new parts.old parts.new result }
{
    let part = next_enumerated(
        context.octets,
        context.is_aligned,
        last as usize,
        is_extensible,
        additions as usize,
        node,
        state,
    );
    keep(part, parts, state)
}

/// Decodes a BIT STRING (X.691 16).
#[inline(never)]
pub(crate) fn decode_bit_string(
    context: &Context<'_>,
    size: &Length,
    is_extensible: bool,
    has_names: bool,
    node: usize,
    state: &mut State,
    parts: &mut [Part],
) -> bool
    requires size { 8 * length context.now.octets.now < 2 ^ 64 }
    requires within { IsWithin (bits context.now.octets.now) state.old }
    requires placed { IsPlaced context.now.is_aligned state.old }
    ensures moved { IsMoved (bits context.now.octets.now) state.old state.new }
    ensures did { Outcome context.now (λ at. (bit_string (bit_fragments decoder_limits has_names) context.now.is_aligned node size.now is_extensible has_names at).encoding)
        state.old state.new parts.old parts.new result }
{
    let part = next_bit_string(
        context.octets,
        context.is_aligned,
        *size,
        is_extensible,
        has_names,
        node,
        state,
    );
    keep(part, parts, state)
}

/// Decodes an OCTET STRING (X.691 17).
#[inline(never)]
pub(crate) fn decode_octet_string(
    context: &Context<'_>,
    size: &Length,
    is_extensible: bool,
    node: usize,
    state: &mut State,
    parts: &mut [Part],
) -> bool
    requires size { 8 * length context.now.octets.now < 2 ^ 64 }
    requires within { IsWithin (bits context.now.octets.now) state.old }
    requires placed { IsPlaced context.now.is_aligned state.old }
    ensures moved { IsMoved (bits context.now.octets.now) state.old state.new }
    ensures did { Outcome context.now (λ at. (octet_string most_fragments context.now.is_aligned node size.now is_extensible at).encoding)
        state.old state.new parts.old parts.new result }
{
    let part = next_octet_string(
        context.octets,
        context.is_aligned,
        *size,
        is_extensible,
        node,
        state,
    );
    keep(part, parts, state)
}

/// Decodes a string of characters of a known alphabet (X.691 30).
#[inline(always)]
pub(crate) fn decode_text(
    context: &Context<'_>,
    size: &Length,
    is_extensible: bool,
    alphabet: Rows,
    whole: Rows,
    node: usize,
    state: &mut State,
    parts: &mut [Part],
) -> bool
    requires size { 8 * length context.now.octets.now < 2 ^ 64 }
    requires within { IsWithin (bits context.now.octets.now) state.old }
    requires placed { IsPlaced context.now.is_aligned state.old }
    ensures moved { IsMoved (bits context.now.octets.now) state.old state.new }
    ensures did { Outcome context.now (λ at. (text 0 context.now.is_aligned node size.now is_extensible
        (rows_of context.now.tables.ranges.now alphabet) (rows_of context.now.tables.ranges.now whole) at).encoding)
        state.old state.new parts.old parts.new result }
{
    if is_extensible {
        return decode_extensible_text(context, size, alphabet, whole, node, state, parts);
    }
    decode_text_of_root(context, *size, alphabet, node, state, parts)
}

/// Decodes a string of characters whose size constraint has an extension marker.
#[inline(never)]
fn decode_extensible_text(
    context: &Context<'_>,
    size: &Length,
    alphabet: Rows,
    whole: Rows,
    node: usize,
    state: &mut State,
    parts: &mut [Part],
) -> bool
    requires size { 8 * length context.now.octets.now < 2 ^ 64 }
    requires within { IsWithin (bits context.now.octets.now) state.old }
    requires placed { IsPlaced context.now.is_aligned state.old }
    ensures moved { IsMoved (bits context.now.octets.now) state.old state.new }
    ensures did { Outcome context.now (λ at. (text 0 context.now.is_aligned node size.now true
        (rows_of context.now.tables.ranges.now alphabet) (rows_of context.now.tables.ranges.now whole) at).encoding)
        state.old state.new parts.old parts.new result }
{
    let part = next_extensible_text(
        context.octets,
        context.is_aligned,
        context.tables.ranges,
        *size,
        alphabet,
        whole,
        node,
        state,
    );
    keep(part, parts, state)
}

/// Decodes a string of characters of a size of the root.
#[inline(always)]
fn decode_text_of_root(
    context: &Context<'_>,
    size: Length,
    alphabet: Rows,
    node: usize,
    state: &mut State,
    parts: &mut [Part],
) -> bool
    requires size { 8 * length context.now.octets.now < 2 ^ 64 }
    requires within { IsWithin (bits context.now.octets.now) state.old }
    requires placed { IsPlaced context.now.is_aligned state.old }
    ensures moved { IsMoved (bits context.now.octets.now) state.old state.new }
    ensures did { Outcome context.now (λ at. (leaf (text_of 0 context.now.is_aligned
        (rows_of context.now.tables.ranges.now alphabet) node size) Text node at).encoding)
        state.old state.new parts.old parts.new result }
{
    let part = next_text_of_root(
        context.octets,
        context.is_aligned,
        context.tables.ranges,
        size,
        alphabet,
        node,
        state,
    );
    keep(part, parts, state)
}

/// Decodes an OBJECT IDENTIFIER (X.691 24).
#[inline(never)]
pub(crate) fn decode_object_identifier(
    context: &Context<'_>,
    node: usize,
    state: &mut State,
    parts: &mut [Part],
) -> bool
    requires size { 8 * length context.now.octets.now < 2 ^ 64 }
    requires within { IsWithin (bits context.now.octets.now) state.old }
    requires placed { IsPlaced context.now.is_aligned state.old }
    ensures moved { IsMoved (bits context.now.octets.now) state.old state.new }
    ensures did { Outcome context.now (λ at. (contents 0 context.now.is_aligned node IsObjectIdentifier at).encoding)
        state.old state.new parts.old parts.new result }
{
    let part = next_object_identifier(context.octets, context.is_aligned, node, state);
    keep(part, parts, state)
}

/// Decodes a RELATIVE-OID (X.691 25).
#[inline(never)]
pub(crate) fn decode_relative_identifier(
    context: &Context<'_>,
    node: usize,
    state: &mut State,
    parts: &mut [Part],
) -> bool
    requires size { 8 * length context.now.octets.now < 2 ^ 64 }
    requires within { IsWithin (bits context.now.octets.now) state.old }
    requires placed { IsPlaced context.now.is_aligned state.old }
    ensures moved { IsMoved (bits context.now.octets.now) state.old state.new }
    ensures did { Outcome context.now (λ at. (contents 0 context.now.is_aligned node IsRelativeIdentifier at).encoding)
        state.old state.new parts.old parts.new result }
{
    let part = next_relative_identifier(context.octets, context.is_aligned, node, state);
    keep(part, parts, state)
}

/// Decodes a UTF8String (X.691 30.6).
#[inline(never)]
pub(crate) fn decode_utf8_string(
    context: &Context<'_>,
    node: usize,
    state: &mut State,
    parts: &mut [Part],
) -> bool
    requires size { 8 * length context.now.octets.now < 2 ^ 64 }
    requires within { IsWithin (bits context.now.octets.now) state.old }
    requires placed { IsPlaced context.now.is_aligned state.old }
    ensures moved { IsMoved (bits context.now.octets.now) state.old state.new }
    ensures did { Outcome context.now (λ at. (contents most_fragments context.now.is_aligned node IsUtf8Text at).encoding)
        state.old state.new parts.old parts.new result }
{
    let part = next_utf8_string(context.octets, context.is_aligned, node, state);
    keep(part, parts, state)
}

/// Decodes a REAL (X.691 15).
#[inline(never)]
pub(crate) fn decode_real(
    context: &Context<'_>,
    node: usize,
    state: &mut State,
    parts: &mut [Part],
) -> bool
    requires size { 8 * length context.now.octets.now < 2 ^ 64 }
    requires within { IsWithin (bits context.now.octets.now) state.old }
    requires placed { IsPlaced context.now.is_aligned state.old }
    ensures moved { IsMoved (bits context.now.octets.now) state.old state.new }
    ensures did { Outcome context.now (λ at. (contents 0 context.now.is_aligned node IsReal at).encoding)
        state.old state.new parts.old parts.new result }
{
    let part = next_real(context.octets, context.is_aligned, node, state);
    keep(part, parts, state)
}

/// Decodes a UTCTime or a GeneralizedTime (X.691 30.6).
#[inline(never)]
pub(crate) fn decode_time(
    context: &Context<'_>,
    kind: TimeKind,
    node: usize,
    state: &mut State,
    parts: &mut [Part],
) -> bool
    requires size { 8 * length context.now.octets.now < 2 ^ 64 }
    requires within { IsWithin (bits context.now.octets.now) state.old }
    requires placed { IsPlaced context.now.is_aligned state.old }
    ensures moved { IsMoved (bits context.now.octets.now) state.old state.new }
    ensures did { Outcome context.now (λ at. (time 0 context.now.is_aligned node (IsTime kind) at).encoding)
        state.old state.new parts.old parts.new result }
{
    let part = next_time(context.octets, context.is_aligned, kind, node, state);
    keep(part, parts, state)
}
