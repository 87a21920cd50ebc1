//! Compares bits of a message: with those of a default value, and with those of another item.

ghost use Rattle.std.specs.Prelude.{◌≡◌, ◌≤◌, ◌<◌, ◌^◌, ◌*◌, ◌-◌, length, slice_get, Some};
ghost use Rattle.std.specs.declared.cmp.Ordering.TheVariants.{Less};
ghost use Rattle.std.specs.Bool.{Decides};
ghost use Rattle.asn1_bits.specs.Bits.{bits};
ghost use Rattle.asn1_bits.specs.BitLists.{bits_cmp};
ghost use Rattle.asn1_bits.specs.BitStr.{bits_of};
ghost use Rattle.asn1_schema.specs.PiecesOfParts.{bits_at};
ghost use Rattle.asn1_x691.specs.Fields.{phase};
ghost use Rattle.asn1_x691_fields.specs.Defaults.{row_of, default_at, default_in};

use crate::defaults::Defaults;
use asn1_bits::BitStr;
use asn1_schema::Span;
use std::cmp::Ordering;

/// Returns how many bits of an octet precede a position, as far as the encoding of a value depends on
/// them.
fn phase_at(is_aligned: bool, position: usize) -> usize
    ensures { result ≡ phase is_aligned position }
{
    if is_aligned { position % 8 } else { 0 }
}

/// Returns where the table of defaults has the bits of a default value, if it has them.
fn span_of(defaults: Defaults<'_>, is_aligned: bool, value: usize, phase: usize) -> Option<Span>
    ensures { result ≡ slice_get defaults.entry.spans.now (row_of is_aligned value phase) }
{
    let row = if is_aligned {
        8 * value as u128 + phase as u128
    } else {
        value as u128
    };
    if row < defaults.spans.len() as u128 {
        return Some(defaults.spans[row as usize]);
    }
    None
}

/// Returns whether the bits of a span are these. Where the octets have not all of them, they are not.
fn are_bits(octets: &[u8], span: Span, bits: BitStr<'_>) -> bool
    ensures { Decides result (default_at octets.now (Some span) ≡ Some (bits_of bits.entry)) }
{
    match BitStr::new(octets, span.at, span.count) {
        None => false,
        Some(found) => found == bits,
    }
}

/// Returns whether the bits of a message from one index up to another are those of a default value.
/// `position` is the number of bits before them in the complete encoding.
#[tactic(auto, unfolding(asn1_bits::specs::View::list_of))]
pub fn is_default(
    defaults: Defaults<'_>,
    is_aligned: bool,
    value: usize,
    position: usize,
    octets: &[u8],
    from: usize,
    to: usize,
) -> bool
    requires order { from ≤ to }
    requires inside { to ≤ 8 * length octets.now }
    ensures { Decides result (default_in defaults.entry is_aligned value (phase is_aligned position)
        ≡ Some (bits_at (bits octets.now) from (to - from))) }
{
    let phase = phase_at(is_aligned, position);
    match span_of(defaults, is_aligned, value, phase) {
        None => false,
        Some(span) => match BitStr::new(octets, from, to - from) {
            None => false,
            Some(bits) => are_bits(defaults.octets, span, bits),
        },
    }
}

/// Returns whether the bits of an item are less than those of the item before it. The items begin at
/// `before` and at `from`, and the second ends at `to`.
#[tactic(auto, unfolding(asn1_bits::specs::View::list_of))]
pub fn is_before(octets: &[u8], before: usize, from: usize, to: usize) -> bool
    requires begins { before ≤ from }
    requires order { from ≤ to }
    requires inside { to ≤ 8 * length octets.now }
    ensures { Decides result (bits_cmp (bits_at (bits octets.now) from (to - from))
        (bits_at (bits octets.now) before (from - before)) ≡ Less) }
{
    match BitStr::new(octets, from, to - from) {
        None => false,
        Some(item) => match BitStr::new(octets, before, from - before) {
            None => false,
            Some(last) => item.cmp(&last) == Ordering::Less,
        },
    }
}
