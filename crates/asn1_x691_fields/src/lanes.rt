//! Numbers of a few bits, one after another in a word, which are compared at once.
//!
//! The clauses say what `true` means. A body that returns `false` is right as well: the caller then
//! compares the numbers one after another, and its clause is exact.

ghost use Rattle.std.specs.Prelude.{◌≡◌, ◌≤◌, ◌<◌, ◌^◌, ◌*◌, ◌/◌, ◌+◌, true};
ghost use Rattle.std.specs.List.{AllByRecursion};
ghost use Rattle.asn1_bits.specs.Bits.{digits};
ghost use Rattle.asn1_schema.specs.CharactersOfParts.{numbers_in};
ghost use Rattle.asn1_x691_fields.specs.Lanes.{ones};

use crate::code_words::Interval;

/// For each width, the word with 1 in each lane of this width, of as many lanes as 63 bits have.
const ONES: [u64; 8] = [
    0,
    0x7FFF_FFFF_FFFF_FFFF,
    0x1555_5555_5555_5555,
    0x1249_2492_4924_9249,
    0x0111_1111_1111_1111,
    0x0084_2108_4210_8421,
    0x0041_0410_4104_1041,
    0x0102_0408_1020_4081,
];

/// Returns the word with 1 in each lane of `width` bits, of as many lanes as 63 bits have.
#[inline(always)]
fn ones_of(width: usize) -> u64
    requires some { 1 ≤ width }
    requires narrow { width ≤ 7 }
    ensures { result ≡ ones width (63 / width) }
{
    ONES[width]
}

/// Returns whether `count` numbers of `width` bits, one after another in a word, are all at most a
/// number. A number that exceeds it carries out of its lane, if what is left up to all ones is added.
#[inline(always)]
pub(crate) fn are_up_to(word: u64, width: usize, most: u64, count: usize) -> bool
    requires some { 1 ≤ width }
    requires narrow { width ≤ 7 }
    requires few { width * count ≤ 63 }
    requires below { word < 2 ^ (width * count) }
    ensures { result ≡ true → AllByRecursion (λ n. n ≤ most) (numbers_in width count (digits word (width * count))) }
{
    let top = (1 << width) - 1;
    if most >= top {
        return true;
    }
    let ones = ones_of(width);
    let left = (top - most) * ones;
    ((word + left) ^ word ^ left) & (ones << width) == 0
}

/// Returns whether `count` numbers of `width` bits, one after another in a word, are all at least a
/// number: whether what they leave up to all ones is at most what that number leaves.
#[inline(always)]
fn are_from(word: u64, width: usize, least: u64, count: usize) -> bool
    requires some { 1 ≤ width }
    requires narrow { width ≤ 7 }
    requires few { width * count ≤ 63 }
    requires below { word < 2 ^ (width * count) }
    ensures { result ≡ true → AllByRecursion (λ n. least ≤ n) (numbers_in width count (digits word (width * count))) }
{
    let top = (1 << width) - 1;
    if least > top {
        return false;
    }
    let all = (1 << (width * count)) - 1;
    are_up_to(all - word, width, top - least, count)
}

/// Returns whether `count` numbers of `width` bits, one after another in a word, are all in an
/// interval.
#[inline(always)]
pub(crate) fn are_quickly_in(word: u64, width: usize, interval: Interval, count: usize) -> bool
    requires some { 1 ≤ width }
    requires narrow { width ≤ 7 }
    requires few { width * count ≤ 63 }
    requires below { word < 2 ^ (width * count) }
    ensures { result ≡ true → AllByRecursion (λ n. (interval.least ≤ n) × (n ≤ interval.least + interval.range))
        (numbers_in width count (digits word (width * count))) }
{
    if interval.least > 0 && !are_from(word, width, interval.least, count) {
        return false;
    }
    let greatest = interval.least.saturating_add(interval.range);
    are_up_to(word, width, greatest, count)
}
