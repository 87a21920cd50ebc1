//! The contents octets of a REAL in their canonical form (X.690 8.5, 11.3).

ghost use Rattle.std.specs.Prelude.{◌≡◌, ◌≢◌, ◌<◌, ◌≤◌, ◌+◌, ◌⊎◌, ℕ, IfSome, IsNone, length, slice_index};
ghost use Rattle.std.specs.Bool.{Decides};
ghost use Rattle.asn1_schema.specs.Times.{AreDigits, IsDigit};
ghost use Rattle.asn1_schema.specs.Reals.{AreOctets, IsSpecial, IsExponent, IsMantissa, IsBinary, IsInteger, IsPlusZero, IsNumeral, IsDecimalExponent, IsDecimalFrom, IsUnsigned, IsDecimal, AreReal};

use crate::number_source::NumberSource;
use crate::times::{are_digits, is_digit};

/// Returns whether octets are an exponent: two's complement of minimal length.
fn is_exponent<S: NumberSource>(source: &S, from: usize, count: usize) -> bool
    requires { from + count ≤ length (S.list source.now) }
    ensures { Decides result (IsExponent (S.list source.now) from count) }
{
    let _count = source.count();
    if count < 2 {
        return count == 1;
    }
    let first = source.number(from);
    let second = source.number(from + 1);
    !(first == 0 && second < 128) && !(first == 255 && second >= 128)
}

/// Returns whether the octets from an index on are a mantissa: an odd number of minimal length.
fn is_mantissa<S: NumberSource>(source: &S, from: usize) -> bool
    requires within { from < length (S.list source.now) }
    requires octets { AreOctets (S.list source.now) }
    ensures { Decides result (IsMantissa (S.list source.now) from) }
{
    let count = source.count();
    source.number(from) != 0 && source.number(count - 1) % 2 == 1
}

/// Returns whether octets are a REAL of base 2 (X.690 8.5.7, 11.3.1).
fn is_binary<S: NumberSource>(source: &S) -> bool
    requires { AreOctets (S.list source.now) }
    ensures { Decides result (IsBinary (S.list source.now)) }
{
    let count = source.count();
    if count == 0 {
        return false;
    }
    let form = source.number(0);
    if form < 128 || form % 64 >= 4 {
        return false;
    }
    if form % 4 < 3 {
        return is_short_binary(source, (form % 4) as usize);
    }
    is_long_binary(source)
}

/// Returns whether octets after the first are an exponent of `more + 1` octets, where `more` is
/// at most two, and a mantissa.
fn is_short_binary<S: NumberSource>(source: &S, more: usize) -> bool
    requires octets { AreOctets (S.list source.now) }
    requires few { more < 3 }
    ensures { Decides result (IsExponent (S.list source.now) 1 (more + 1) × IsMantissa (S.list source.now) (more + 2)) }
{
    let count = source.count();
    if count <= more + 2 {
        return false;
    }
    is_exponent(source, 1, more + 1) && is_mantissa(source, more + 2)
}

/// Returns whether octets after the first are the number of the octets of an exponent, which is at
/// least four, these, and a mantissa.
fn is_long_binary<S: NumberSource>(source: &S) -> bool
    requires octets { AreOctets (S.list source.now) }
    ensures { Decides result ((2 ≤ length (S.list source.now)) × (4 ≤ slice_index (S.list source.now) 1)
        × IsExponent (S.list source.now) 2 (slice_index (S.list source.now) 1)
        × IsMantissa (S.list source.now) (slice_index (S.list source.now) 1 + 2)) }
{
    let count = source.count();
    if count < 2 {
        return false;
    }
    let more = source.number(1) as usize;
    if more < 4 || count <= more + 2 {
        return false;
    }
    is_exponent(source, 2, more) && is_mantissa(source, more + 2)
}

/// Returns whether octets are one that says a value that is no number, or minus zero (X.690 8.5.9).
fn is_special<S: NumberSource>(source: &S) -> bool
    ensures { Decides result (IsSpecial (S.list source.now)) }
{
    if source.count() != 1 {
        return false;
    }
    let form = source.number(0);
    64 <= form && form <= 67
}

/// Returns whether octets from an index on are digits up to the full stop at another, of which
/// neither the first nor the last is 0.
fn is_integer<S: NumberSource>(source: &S, from: usize, stop: usize) -> bool
    requires { stop ≤ length (S.list source.now) }
    ensures { Decides result (IsInteger (S.list source.now) from stop) }
{
    let _count = source.count();
    if from >= stop {
        return false;
    }
    source.number(from) != 48 && source.number(stop - 1) != 48 && are_digits(source, from, stop)
}

/// Returns whether the octets from an index on are digits, of which the first is not 0.
fn is_numeral<S: NumberSource>(source: &S, from: usize) -> bool
    ensures { Decides result (IsNumeral (S.list source.now) from) }
{
    let count = source.count();
    from < count && source.number(from) != 48 && are_digits(source, from, count)
}

/// Returns whether the octets from an index on are +0.
fn is_plus_zero<S: NumberSource>(source: &S, from: usize) -> bool
    requires { from ≤ length (S.list source.now) }
    ensures { Decides result (IsPlusZero (S.list source.now) from) }
{
    let count = source.count();
    if count - from != 2 {
        return false;
    }
    source.number(from) == 43 && source.number(from + 1) == 48
}

/// Returns whether the octets from an index on are the exponent of a REAL of base 10.
fn is_decimal_exponent<S: NumberSource>(source: &S, from: usize) -> bool
    requires { from ≤ length (S.list source.now) }
    ensures { Decides result (IsDecimalExponent (S.list source.now) from) }
{
    let count = source.count();
    if is_plus_zero(source, from) || is_numeral(source, from) {
        return true;
    }
    from < count && source.number(from) == 45 && is_numeral(source, from + 1)
}

/// Returns whether octets from an index on are an unsigned number of base 10, of which the full
/// stop is at another index.
fn is_decimal_at<S: NumberSource>(source: &S, from: usize, stop: usize) -> bool
    requires { stop ≤ length (S.list source.now) }
    ensures { Decides result (IsDecimalFrom (S.list source.now) from stop) }
{
    let count = source.count();
    if stop >= count || stop + 1 >= count {
        return false;
    }
    if source.number(stop) != 46 || source.number(stop + 1) != 69 {
        return false;
    }
    is_integer(source, from, stop) && is_decimal_exponent(source, stop + 2)
}

/// Returns the first index from another one on that has no digit, or how many numbers there are.
fn digits_end<S: NumberSource>(source: &S, from: usize) -> usize
    requires { from ≤ length (S.list source.now) }
    ensures within { result ≤ length (S.list source.now) }
    ensures on { from ≤ result }
    ensures digits { AreDigits (S.list source.now) from result }
    ensures end { (result ≡ length (S.list source.now)) ⊎ ¬ (IsDigit (slice_index (S.list source.now) result)) }
{
    let count = source.count();
    for index in from..count {
        if !is_digit(source.number(index)) {
            return index;
        }
    }
    count
}

/// Returns whether octets from an index on are an unsigned number of base 10.
fn is_unsigned<S: NumberSource>(source: &S, from: usize) -> bool
    requires { from ≤ length (S.list source.now) }
    ensures { Decides result (IsUnsigned (S.list source.now) from) }
{
    let stop = digits_end(source, from);
    is_decimal_at(source, from, stop)
}

/// Returns whether octets are a REAL of base 10 (X.690 8.5.8, 11.3.2).
fn is_decimal<S: NumberSource>(source: &S) -> bool
    ensures { Decides result (IsDecimal (S.list source.now)) }
{
    let count = source.count();
    if count < 2 || source.number(0) != 3 {
        return false;
    }
    is_unsigned(source, 1) || (source.number(1) == 45 && is_unsigned(source, 2))
}

/// Returns whether octets are the contents of a REAL (X.690 8.5, 11.3). Each number of the source
/// must be less than 256.
pub fn is_real<S: NumberSource>(source: &S) -> bool
    requires { AreOctets (S.list source.now) }
    ensures { Decides result (AreReal (S.list source.now)) }
{
    source.count() == 0 || is_special(source) || is_binary(source) || is_decimal(source)
}
