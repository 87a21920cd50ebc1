//! Numbers of a few bits, several of which are read at once.

ghost use Rattle.std.specs.Prelude.{◌≡◌, ◌≤◌, ◌<◌, ◌^◌, ◌*◌, ◌+◌, ℕ, true, false, length, drop};
ghost use Rattle.std.specs.List.{AllByRecursion};
ghost use Rattle.std.specs.Bool.{Decides};
ghost use Rattle.asn1_bits.specs.Bits.{bits, digits};
ghost use Rattle.asn1_schema.specs.CharactersOfParts.{numbers_in};

use crate::bits::number_at;
use crate::lanes::are_quickly_in;

/// The greatest width of numbers of which eight are read at once.
pub(crate) const NARROW: usize = 7;

/// Numbers from one to another.
#[derive(Clone, Copy, Debug)]
pub(crate) struct Interval {
    /// The least.
    pub(crate) least: u64,
    /// How far the greatest is from the least.
    pub(crate) range: u64,
}

/// Returns whether `count` numbers of `width` bits, from bit `at` on, are all in an interval.
#[inline(always)]
pub(crate) fn are_in(
    octets: &[u8],
    width: usize,
    interval: Interval,
    at: usize,
    count: usize,
) -> bool
    requires size { 8 * length octets.now < 2 ^ 64 }
    requires narrow { width ≤ 7 }
    requires inside { at + width * count ≤ 8 * length octets.now }
    ensures { Decides result (AllByRecursion (λ n. (interval.least ≤ n) × (n ≤ interval.least + interval.range))
        (numbers_in width count (drop at (bits octets.now)))) }
{
    let mut next = at;
    let mut left = count;
    while left > 0 {
        let some = left.min(8);
        let word = number_at(octets, next, width * some);
        if !are_in_lanes(word, width, interval, some) {
            return false;
        }
        next += width * some;
        left -= some;
    }
    true
}

/// Returns whether `count` numbers of `width` bits, one after another in a word, are all in an
/// interval. It compares them at once, and only where that does not tell one after another.
#[inline(always)]
fn are_in_lanes(word: u64, width: usize, interval: Interval, count: usize) -> bool
    requires narrow { width ≤ 7 }
    requires few { count ≤ 8 }
    requires below { word < 2 ^ (width * count) }
    ensures { Decides result (AllByRecursion (λ n. (interval.least ≤ n) × (n ≤ interval.least + interval.range))
        (numbers_in width count (digits word (width * count)))) }
{
    if width > 0 && are_quickly_in(word, width, interval, count) {
        return true;
    }
    are_in_word(word, width, interval, count)
}

/// Returns the same, of one number after another.
#[inline(never)]
fn are_in_word(word: u64, width: usize, interval: Interval, count: usize) -> bool
    requires narrow { width ≤ 7 }
    requires few { count ≤ 8 }
    requires below { word < 2 ^ (width * count) }
    ensures { Decides result (AllByRecursion (λ n. (interval.least ≤ n) × (n ≤ interval.least + interval.range))
        (numbers_in width count (digits word (width * count)))) }
{
    let mut word = word;
    let mut left = count;
    while left > 0 {
        left -= 1;
        let number = word >> (width * left);
        if !is_in(number, interval) {
            return false;
        }
        word -= number << (width * left);
    }
    true
}

/// Returns whether a number is in an interval.
#[inline(always)]
fn is_in(number: u64, interval: Interval) -> bool
    ensures { Decides result ((interval.least ≤ number) × (number ≤ interval.least + interval.range)) }
{
    number >= interval.least && number - interval.least <= interval.range
}
