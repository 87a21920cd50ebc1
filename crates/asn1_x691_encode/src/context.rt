//! What an encoder works on.

ghost use Rattle.std.specs.Prelude.{◌≡◌, ◌+◌, ◌^◌, ◌<◌, false, true, slice_get};

use asn1_schema::{Member, Part, Tables};
use asn1_x691_fields::Defaults;
use asn1_x691_writers::Writer;

/// A schema, and the parts of the value to encode.
#[derive(Clone, Copy, Debug)]
pub struct Context<'s> {
    /// The types.
    pub tables: Tables<'s>,
    /// The encodings of default values.
    pub defaults: Defaults<'s>,
    /// The parts.
    pub parts: &'s [Part],
    /// The octets in which the parts have their bits.
    pub source: &'s [u8],
    /// Whether the variant is ALIGNED.
    pub is_aligned: bool,
}

/// Returns the part at an index.
#[inline(always)]
pub(crate) fn part_at(parts: &[Part], index: usize) -> Option<Part>
    ensures { result ≡ slice_get parts.now index }
{
    if index < parts.len() {
        Some(parts[index])
    } else {
        None
    }
}

/// Returns the member of an index among those from another index on.
#[inline(always)]
pub(crate) fn member_from(members: &[Member], from: usize, index: usize) -> Option<Member>
    ensures { result ≡ slice_get members.now (from + index) }
{
    if index < members.len().saturating_sub(from) {
        return Some(members[from + index]);
    }
    None
}

/// Moves on to the part after the next one, where that was written. Returns whether it was.
#[inline(always)]
pub(crate) fn pass(is_written: bool, state: &mut Writer) -> bool
    requires { is_written ≡ true → state.old.next + 1 < 2 ^ 64 }
    ensures result { result ≡ is_written }
    ensures at { state.new.at ≡ state.old.at }
    ensures node { state.new.node ≡ state.old.node }
    ensures reason { state.new.reason ≡ state.old.reason }
    ensures passed { is_written ≡ true → state.new.next ≡ state.old.next + 1 }
    ensures kept { is_written ≡ false → state.new.next ≡ state.old.next }
{
    if is_written {
        state.next += 1;
    }
    is_written
}
