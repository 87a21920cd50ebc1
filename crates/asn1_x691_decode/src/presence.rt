//! Presence bits of components (X.691 19.2, 19.3).

ghost use Rattle.std.specs.Prelude.{◌≡◌, ◌+◌, ◌-◌, ◌*◌, ◌≤◌, ◌^◌, ◌<◌, length, slice_get, Some, IfSome};
ghost use Rattle.asn1_bits.specs.Bits.{bits};
ghost use Rattle.asn1_x691.specs.Types.{optional_count, presence_bits, any_true};
ghost use Rattle.asn1_x691_decode.specs.Decoding.{IsTold, told_by};

use asn1_bits::read_bits;
use asn1_schema::{Member, Presence, Rows};

/// Bits of a message that say, one after another, which components are present.
#[derive(Clone, Copy, Debug)]
pub struct PresenceBits {
    /// The index of the next.
    pub at: usize,
    /// How many are left.
    pub left: usize,
}

/// Returns the next bit.
#[inline(always)]
pub(crate) fn next_presence(octets: &[u8], presence: &mut PresenceBits) -> Option<bool>
    requires size { 8 * length octets.now < 2 ^ 64 }
    requires within { presence.old.at + presence.old.left ≤ 8 * length octets.now }
    ensures within { presence.new.at + presence.new.left ≤ 8 * length octets.now }
    ensures fewer { presence.new.left ≡ presence.old.left - 1 }
    ensures told { IsTold (bits octets.now) presence.old presence.new result }
{
    if presence.left == 0 {
        return None;
    }
    let at = presence.at;
    presence.at = at + 1;
    presence.left -= 1;
    Some(read_bits(octets, at, 1) == 1)
}

/// Returns whether a bit says that a component is present.
pub(crate) fn has_one(octets: &[u8], presence: PresenceBits) -> bool
    requires size { 8 * length octets.now < 2 ^ 64 }
    requires within { presence.at + presence.left ≤ 8 * length octets.now }
    ensures { result ≡ any_true (told_by (bits octets.now) presence) }
{
    let mut presence = presence;
    while presence.left > 0 {
        if next_presence(octets, &mut presence) == Some(true) {
            return true;
        }
    }
    false
}

/// Returns how many of the members of these rows there are.
pub(crate) fn known_of(members: &[Member], rows: Rows) -> usize
    ensures few { result ≤ rows.count }
    ensures inside { result ≤ length members.now - rows.from }
    ensures all { result < rows.count → length members.now ≤ rows.from + result }
{
    let left = members.len().saturating_sub(rows.from);
    let count = rows.count as usize;
    if count < left { count } else { left }
}

/// Returns the member of an index among those from another index on.
#[inline(always)]
pub(crate) fn member_from(members: &[Member], from: usize, index: usize) -> Option<Member>
    ensures is { result ≡ slice_get members.now (from + index) }
    ensures fits { IfSome result (λ m. from + index < length members.now) }
{
    if index < members.len().saturating_sub(from) {
        return Some(members[from + index]);
    }
    None
}

/// Returns the member at an index.
#[inline(always)]
pub(crate) fn member_in(members: &[Member], index: usize) -> Member
    requires { index < length members.now }
    ensures { slice_get members.now index ≡ Some result }
{
    members[index]
}

/// Returns 1 for a component that is OPTIONAL or has a DEFAULT, and otherwise 0.
#[inline(always)]
fn presence_bits(presence: Presence) -> usize
    ensures value { result ≡ presence_bits presence }
    ensures few { result ≤ 1 }
{
    match presence {
        Presence::Mandatory => 0,
        Presence::Optional => 1,
        Presence::Default { value: _ } => 1,
    }
}

/// Returns how many of the members of rows are OPTIONAL or have a DEFAULT.
pub(crate) fn count_optional(members: &[Member], rows: Rows) -> usize
    ensures { result ≡ optional_count members.now rows.count rows.from }
{
    let known = known_of(members, rows);
    let mut count = 0;
    for index in 0..known {
        let member = member_in(members, rows.from + index);
        count += presence_bits(member.presence);
    }
    count
}
