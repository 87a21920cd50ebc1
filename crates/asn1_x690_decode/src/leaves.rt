//! Decodes values of one part.

ghost use Rattle.std.specs.Prelude.{◌≡◌, ◌≤◌, ◌<◌, ◌^◌, ◌*◌, ◌-◌, ◌%◌, ◌∷◌, [], ℕ, List, Bool, true, false, length, slice_range, ◌+◌};
ghost use Rattle.asn1_bits.specs.Bits.{bits};
ghost use Rattle.asn1_schema.specs.declared.tables.Range.{Range};
ghost use Rattle.asn1_schema.specs.declared.tables.Node.TheVariants.{Enumerated};
ghost use Rattle.asn1_schema.specs.PiecesOfParts.{piece_of, bits_of};
ghost use Rattle.asn1_schema.specs.Room.{IsGrown};
ghost use Rattle.asn1_x690_leaves.specs.Told.{AreOctetsOf};
ghost use Rattle.asn1_x690_fields.specs.Outcomes.{IsWithin};
ghost use Rattle.asn1_x690_decode.specs.Tables.{is_structured, is_frequent, contents_by};
ghost use Rattle.asn1_x690_decode.specs.Decoding.{AreContents, IsMoved, IsLeaf, IsLeafOf, ContentsOutcome, span_of};

use crate::context::Context;
use crate::tagged::Type;
use asn1_schema::{Node, Part, Span, push_part};
use asn1_x690::FaultKind;
use asn1_x690_fields::{State, fail};
use asn1_x690_leaves::{
    bit_string, boolean, enumerated, integer, integer_at_least, integer_between, null,
    object_identifier, octet_string, real, relative_identifier, text, time, utf8_string,
};
use asn1_x691_fields::ranges_in;

/// Stores a part that is all of the contents.
#[inline(always)]
pub(crate) fn keep(part: Part, state: &mut State, parts: &mut [Part]) -> bool
    ensures is { result ≡ true }
    ensures at { state.new.at ≡ state.old.end }
    ensures end { state.new.end ≡ state.old.end }
    ensures grown { (ranges : List Range) (list : List Bool)
        → IsGrown ranges list parts.old state.old.count parts.new state.new.count (piece_of ranges list part ∷ []) }
{
    state.count = push_part(parts, state.count, part);
    state.at = state.end;
    true
}

/// Returns `count` numbers of the table from an index on, those that it has.
fn numbers_in(numbers: &[i128], from: usize, count: usize) -> &[i128]
    requires { count < 2 ^ 34 }
    ensures { result.now ≡ slice_range numbers.now from (from + count) }
{
    let (_, rest) = numbers.split_at(from.min(numbers.len()));
    let (found, _) = rest.split_at(count.min(rest.len()));
    found
}

/// Reads an ENUMERATED by the numbers of its type.
fn enumerated_by(
    context: &Context<'_>,
    of: &Type<'_>,
    last: u32,
    is_extensible: bool,
    known: u32,
    span: Span,
) -> Result<Part, FaultKind>
    requires size { 8 * length context.now.octets.now < 2 ^ 64 }
    requires contents { AreOctetsOf (bits context.now.octets.now) span }
    ensures { (depth : ℕ) → IsLeaf context.now (contents_by context.now depth of.now.node of.now.tags.now
        (Enumerated last is_extensible known)) of.now.node (bits_of (bits context.now.octets.now) span) result }
{
    let known = if is_extensible { known as usize } else { 0 };
    let numbers = numbers_in(
        context.tags.numbers,
        of.tags.numbers,
        last as usize + 1 + known,
    );
    enumerated(context.octets, span, numbers, is_extensible)
}

/// Reads contents octets as a value of a type of one part, of one of the rarer types.
#[inline(always)]
fn read_leaf(context: &Context<'_>, of: &Type<'_>, span: Span) -> Result<Part, FaultKind>
    requires size { 8 * length context.now.octets.now < 2 ^ 64 }
    requires contents { AreOctetsOf (bits context.now.octets.now) span }
    requires leaf { is_structured of.now.is.now ≡ false }
    requires rare { is_frequent of.now.is.now ≡ false }
    ensures { IsLeafOf context.now of.now.node of.now.tags.now of.now.is.now span result }
{
    let octets = context.octets;
    match *of.is {
        Node::Null => null(octets, span),
        Node::IntegerBetween {
            bounds,
            is_extensible,
        } => integer_between(octets, span, bounds, is_extensible),
        Node::IntegerAtLeast {
            bound,
            is_extensible,
        } => integer_at_least(octets, span, bound, is_extensible),
        Node::Integer => integer(octets, span),
        Node::Enumerated {
            last,
            is_extensible,
            additions,
        } => enumerated_by(context, of, last, is_extensible, additions, span),
        Node::BitString {
            length,
            is_extensible,
            has_names,
        } => bit_string(octets, span, length, is_extensible, has_names),
        Node::RelativeIdentifier => relative_identifier(octets, span),
        Node::Utf8String => utf8_string(octets, span),
        Node::Real => real(octets, span),
        Node::Time { kind } => time(octets, span, kind),
        Node::Text {
            length,
            is_extensible,
            alphabet,
            whole,
        } => text(
            octets,
            span,
            of.tags.characters,
            length,
            is_extensible,
            ranges_in(context.tables.ranges, alphabet),
            ranges_in(context.tables.ranges, whole),
        ),
        _ => Err(FaultKind::NoNode),
    }
}

/// Returns the contents octets, which are all that is left.
#[inline(always)]
fn contents_of(state: &State) -> Span
    requires { state.now.at ≤ state.now.end }
    ensures { result ≡ span_of state.now }
{
    Span {
        at: state.at,
        count: state.end - state.at,
    }
}

/// Stores the part that contents octets are, or sets the fault before them.
#[inline(always)]
fn finish_leaf(
    context: &Context<'_>,
    of: &Type<'_>,
    read: Result<Part, FaultKind>,
    state: &mut State,
    parts: &mut [Part],
) -> bool
    requires size { 8 * length context.now.octets.now < 2 ^ 64 }
    requires contents { AreContents (bits context.now.octets.now) state.old }
    requires read { IsLeafOf context.now of.now.node of.now.tags.now of.now.is.now (span_of state.old) read }
    ensures moved { IsMoved (bits context.now.octets.now) state.old state.new }
    ensures all { result ≡ true → state.new.at ≡ state.old.end }
    ensures did { (depth : ℕ) → ContentsOutcome context.now (contents_by context.now depth of.now.node of.now.tags.now of.now.is.now).contents
        state.old state.new parts.old parts.new result }
{
    let _len = context.octets.len();
    match read {
        Ok(part) => keep(part, state, parts),
        Err(kind) => {
            fail(state, of.node, kind);
            false
        }
    }
}

/// Decodes contents octets as a value of a type of one part.
#[inline(always)]
pub(crate) fn decode_leaf(
    context: &Context<'_>,
    of: &Type<'_>,
    state: &mut State,
    parts: &mut [Part],
) -> bool
    requires size { 8 * length context.now.octets.now < 2 ^ 64 }
    requires contents { AreContents (bits context.now.octets.now) state.old }
    requires leaf { is_structured of.now.is.now ≡ false }
    ensures moved { IsMoved (bits context.now.octets.now) state.old state.new }
    ensures all { result ≡ true → state.new.at ≡ state.old.end }
    ensures did { (depth : ℕ) → ContentsOutcome context.now (contents_by context.now depth of.now.node of.now.tags.now of.now.is.now).contents
        state.old state.new parts.old parts.new result }
{
    let span = contents_of(state);
    match *of.is {
        Node::ObjectIdentifier => {
            let read = object_identifier(context.octets, span);
            finish_leaf(context, of, read, state, parts)
        }
        Node::OctetString {
            length,
            is_extensible,
        } => {
            let read = octet_string(context.octets, span, length, is_extensible);
            finish_leaf(context, of, read, state, parts)
        }
        Node::Boolean => {
            let read = boolean(context.octets, span);
            finish_leaf(context, of, read, state, parts)
        }
        _ => decode_rare_leaf(context, of, state, parts),
    }
}

/// Decodes contents octets as a value of one of the rarer types of one part. Copies the type, so that
/// the caller can keep its own in registers.
#[inline(always)]
fn decode_rare_leaf(
    context: &Context<'_>,
    of: &Type<'_>,
    state: &mut State,
    parts: &mut [Part],
) -> bool
    requires size { 8 * length context.now.octets.now < 2 ^ 64 }
    requires contents { AreContents (bits context.now.octets.now) state.old }
    requires leaf { is_structured of.now.is.now ≡ false }
    requires rare { is_frequent of.now.is.now ≡ false }
    ensures moved { IsMoved (bits context.now.octets.now) state.old state.new }
    ensures all { result ≡ true → state.new.at ≡ state.old.end }
    ensures did { (depth : ℕ) → ContentsOutcome context.now (contents_by context.now depth of.now.node of.now.tags.now of.now.is.now).contents
        state.old state.new parts.old parts.new result }
{
    let own = *of;
    decode_rare_leaf_of(context, &own, state, parts)
}

/// Decodes contents octets as a value of one of the rarer types of one part.
#[inline(never)]
fn decode_rare_leaf_of(
    context: &Context<'_>,
    of: &Type<'_>,
    state: &mut State,
    parts: &mut [Part],
) -> bool
    requires size { 8 * length context.now.octets.now < 2 ^ 64 }
    requires contents { AreContents (bits context.now.octets.now) state.old }
    requires leaf { is_structured of.now.is.now ≡ false }
    requires rare { is_frequent of.now.is.now ≡ false }
    ensures moved { IsMoved (bits context.now.octets.now) state.old state.new }
    ensures all { result ≡ true → state.new.at ≡ state.old.end }
    ensures did { (depth : ℕ) → ContentsOutcome context.now (contents_by context.now depth of.now.node of.now.tags.now of.now.is.now).contents
        state.old state.new parts.old parts.new result }
{
    let read = read_leaf(context, of, contents_of(state));
    finish_leaf(context, of, read, state, parts)
}
