//! The zeros after a complete encoding (X.691 11.1).

ghost use Rattle.std.specs.Prelude.{◌≡◌, ℕ, ◌+◌, ◌*◌, ◌^◌, ◌<◌, ◌≤◌, length};
ghost use Rattle.asn1_x691.specs.OpenTypes.{padding_of};
ghost use Rattle.asn1_x691_writers.specs.Written.{IsIndex};
ghost use Rattle.asn1_x691_encode.specs.Padding.{PadOutcome};

use asn1_x691_writers::put_zeros;

/// The bits of 16,384 octets.
const MANY: usize = 131072;

/// Returns how many zeros follow a value of `count` bits: to whole octets, of which there is one at
/// least (X.691 11.1.3).
pub(crate) fn zeros_after(count: usize) -> usize
    ensures value { (n : ℕ) → IsIndex count n → result ≡ padding_of n }
    ensures few { result ≤ 8 }
{
    if count == 0 {
        return 8;
    }
    (8 - count % 8) % 8
}

/// Writes the zeros after a value that begins at bit `start`, at most 15, and ends before bit `at`.
/// Returns the number of the octets of its complete encoding, or nothing where there are 16,384 or
/// more.
pub(crate) fn pad(octets: &mut [u8], start: usize, at: usize) -> Option<usize>
    requires size { 8 * length octets.old < 2 ^ 64 }
    requires start { start < 16 }
    ensures { (n : ℕ) → IsIndex at (start + n) → PadOutcome octets.old start at n octets.new result }
{
    if at >= start + MANY {
        return None;
    }
    let count = at.saturating_sub(start);
    let whole = count + zeros_after(count);
    if whole >= MANY {
        return None;
    }
    put_zeros(octets, at, whole - count);
    Some(whole / 8)
}
