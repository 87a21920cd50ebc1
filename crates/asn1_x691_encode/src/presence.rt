//! Presence bits of components (X.691 19.2, 19.3).

ghost use Rattle.std.specs.Prelude.{◌≡◌, ◌+◌, ◌-◌, ◌*◌, ◌^◌, ◌≤◌, ◌<◌, length, slice_get, Some};
ghost use Rattle.asn1_bits.specs.Bits.{digits};
ghost use Rattle.asn1_x691.specs.Types.{optional_count, presence_bits};
ghost use Rattle.asn1_x691_writers.specs.Written.{IsGrown};

use asn1_schema::{Member, Presence, Rows};
use asn1_x691_writers::put_zeros;

/// Returns how many of the members of these rows there are.
fn known_of(members: &[Member], rows: Rows) -> usize
    ensures few { result ≤ rows.count }
    ensures inside { result ≤ length members.now - rows.from }
    ensures all { result < rows.count → length members.now ≤ rows.from + result }
{
    let left = members.len().saturating_sub(rows.from);
    let count = rows.count as usize;
    if count < left { count } else { left }
}

/// Returns the member at an index.
#[inline(always)]
fn member_in(members: &[Member], index: usize) -> Member
    requires { index < length members.now }
    ensures { slice_get members.now index ≡ Some result }
{
    members[index]
}

/// Returns 1 for a component that is OPTIONAL or has a DEFAULT, and otherwise 0.
#[inline(always)]
pub(crate) fn presence_bits(presence: Presence) -> usize
    ensures value { result ≡ presence_bits presence }
    ensures few { result ≤ 1 }
{
    match presence {
        Presence::Mandatory => 0,
        Presence::Optional => 1,
        Presence::Default { value: _ } => 1,
    }
}

/// Returns how many of the members of rows are OPTIONAL or have a DEFAULT.
pub(crate) fn count_optional(members: &[Member], rows: Rows) -> usize
    ensures { result ≡ optional_count members.now rows.count rows.from }
{
    let known = known_of(members, rows);
    let mut count = 0;
    for index in 0..known {
        let member = member_in(members, rows.from + index);
        count += presence_bits(member.presence);
    }
    count
}

/// Writes a zero for each component that may be absent, from bit `at` on, and returns the index after
/// them. Most types have none.
#[inline(always)]
pub(crate) fn put_presence(octets: &mut [u8], at: usize, count: usize) -> usize
    requires { 8 * length octets.old < 2 ^ 64 }
    ensures { IsGrown octets.old at octets.new result (digits 0 count) }
{
    if count == 0 {
        return at;
    }
    put_zeros(octets, at, count)
}
