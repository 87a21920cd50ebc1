//! What is known of all ranges of an alphabet.

ghost use Rattle.std.specs.Prelude.{IfSome, ◌≡◌, ◌≤◌, ◌<◌, ◌^◌, ℕ, true, false, length};
ghost use Rattle.asn1_schema.specs.CharactersOfParts.{end_of};
ghost use Rattle.asn1_x691.specs.Alphabets.{IsIn, count_of};
ghost use Rattle.asn1_x691_fields.specs.Characters.{AreAscending};

use asn1_schema::Range;

/// What is known of all ranges of an alphabet.
#[derive(Clone, Copy, Debug)]
pub(crate) struct RangeSums {
    /// How many characters there are.
    pub(crate) count: u64,
    /// The first number that exceeds all characters.
    pub(crate) end: u64,
    /// Whether the ranges ascend, and none of them is empty.
    pub(crate) are_ascending: bool,
}

/// Returns what is known of ranges. Each has at most 2^32 characters, so there are fewer than 2^64.
#[inline(always)]
pub(crate) fn sums_of(ranges: &[Range]) -> RangeSums
    requires { length ranges.now < 2 ^ 32 }
    ensures count { result.count ≡ count_of ranges.now }
    ensures end { result.end ≡ end_of ranges.now }
    ensures small { (c : ℕ) → IsIn ranges.now c → c < 2 ^ 32 }
    ensures ascending { result.are_ascending ≡ true → AreAscending 0 ranges.now }
{
    match ascending_sums(ranges) {
        Some(sums) => sums,
        None => sums_of_any(ranges),
    }
}

/// Returns what is known of ranges, if they ascend and none of them is empty.
#[inline(always)]
pub(crate) fn ascending_sums(ranges: &[Range]) -> Option<RangeSums>
    requires { length ranges.now < 2 ^ 32 }
    ensures count { IfSome result (λ s. s.count ≡ count_of ranges.now) }
    ensures end { IfSome result (λ s. s.end ≡ end_of ranges.now) }
    ensures small { IfSome result (λ s. (c : ℕ) → IsIn ranges.now c → c < 2 ^ 32) }
    ensures ascending { IfSome result (λ s. AreAscending 0 ranges.now) }
{
    let mut count: u64 = 0;
    let mut end: u64 = 0;
    for range in ranges {
        let (first, last) = (range.first as u64, range.last as u64);
        if first < end || last < first {
            return None;
        }
        end = last + 1;
        count += end - first;
    }
    Some(RangeSums {
        count,
        end,
        are_ascending: true,
    })
}

/// Returns what is known of ranges, in any order.
#[cold]
#[inline(never)]
fn sums_of_any(ranges: &[Range]) -> RangeSums
    requires { length ranges.now < 2 ^ 32 }
    ensures count { result.count ≡ count_of ranges.now }
    ensures end { result.end ≡ end_of ranges.now }
    ensures small { (c : ℕ) → IsIn ranges.now c → c < 2 ^ 32 }
    ensures ascending { result.are_ascending ≡ true → AreAscending 0 ranges.now }
{
    let mut count: u64 = 0;
    let mut end: u64 = 0;
    let mut are_ascending = true;
    for range in ranges {
        let (first, after) = (range.first as u64, range.last as u64 + 1);
        are_ascending = are_ascending && end <= first && first < after;
        count += after.saturating_sub(first);
        end = end.max(after);
    }
    RangeSums {
        count,
        end,
        are_ascending,
    }
}

/// Returns whether each number below an end has at most `width` bits.
#[inline(always)]
pub(crate) fn fits(end: u64, width: usize) -> bool
    ensures yes { result ≡ true → end ≤ 2 ^ width }
    ensures no { result ≡ false → 2 ^ width < end }
{
    width >= 64 || end <= 1u64 << width
}
