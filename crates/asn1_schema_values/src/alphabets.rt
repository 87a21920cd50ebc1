//! Checks the alphabets of strings.

ghost use Rattle.std.specs.Prelude.{◌≡◌, ◌↔◌, ◌+◌, ◌<◌, ◌≤◌, ◌^◌, IsTrue, ℕ, length};
ghost use Rattle.asn1_schema_values.specs.Tables.{AreRows, HasCharacter, IsAscending, IsWithin, ranges_of as ranges_in};

use asn1_schema::{Range, Rows};

/// Returns whether rows are rows of a table that has `count`.
pub(crate) fn are_rows(rows: Rows, count: usize) -> bool
    ensures { IsTrue result ↔ AreRows rows count }
{
    rows.count as usize <= count && rows.from <= count - rows.count as usize
}

/// Returns the ranges in some rows of a table.
pub(crate) fn ranges_of(table: &[Range], rows: Rows) -> &[Range]
    requires { AreRows rows (length table.now) }
    ensures { result.now ≡ ranges_in table.now rows }
{
    &table[rows.from..rows.from + rows.count as usize]
}

/// Returns whether ranges ascend, and each has a character.
pub(crate) fn is_ascending(ranges: &[Range]) -> bool
    ensures { IsTrue result ↔ IsAscending 0 ranges.now }
{
    let mut from: u64 = 0;
    for range in ranges {
        if u64::from(range.first) < from || range.last < range.first {
            return false;
        }
        from = u64::from(range.last) + 1;
    }
    true
}

/// Returns whether ranges that ascend have each character of another range.
fn has_each(ranges: &[Range], of: Range) -> bool
    requires { IsAscending 0 ranges.now }
    ensures { IsTrue result ↔ ((c : ℕ) → of.first ≤ c → c ≤ of.last → HasCharacter ranges.now c) }
{
    // The first character that was not found yet.
    let mut next = u64::from(of.first);
    for range in ranges {
        if u64::from(range.first) <= next && next <= u64::from(range.last) {
            next = u64::from(range.last) + 1;
        }
    }
    u64::from(of.last) < next
}

/// Returns whether each character of some ranges is one of others, which ascend.
pub(crate) fn is_within(ranges: &[Range], whole: &[Range]) -> bool
    requires { IsAscending 0 whole.now }
    ensures { IsTrue result ↔ IsWithin ranges.now whole.now }
{
    for range in ranges {
        if !has_each(whole, *range) {
            return false;
        }
    }
    true
}
