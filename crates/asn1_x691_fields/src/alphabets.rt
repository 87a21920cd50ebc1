//! Alphabets: ranges of characters, and the codes of their characters (X.691 30.5).

ghost use Rattle.std.specs.Prelude.{IfSome, ◌≡◌, ◌≤◌, ◌<◌, ◌^◌, ◌*◌, ◌+◌, ◌-◌, ◌⊎◌, ℕ, true, false, length};
ghost use Rattle.asn1_characters.specs.Widths.{width_for};
ghost use Rattle.asn1_schema.specs.CharactersOfParts.{characters_below, end_of as end_in, character_at};
ghost use Rattle.asn1_x691.specs.Alphabets.{IsIn, HasCode, count_of as count_in, are_within as are_all_within};
ghost use Rattle.asn1_x691_fields.specs.Characters.{IsAlphabet, AreAscending, rows_of, character_by};

use crate::numbers::{width_to, width_to_many};
use crate::range_sums::{ascending_sums, fits, sums_of};
use asn1_schema::{Range, Rows};

/// An alphabet, and how its characters are encoded.
#[derive(Clone, Copy, Debug)]
pub struct Alphabet<'s> {
    /// The ranges of its characters.
    pub ranges: &'s [Range],
    /// Whether the variant is ALIGNED.
    pub is_aligned: bool,
    /// How many bits a code has.
    pub width: usize,
    /// Whether a code is the number of the character. Otherwise it is its index.
    pub are_numbers: bool,
    /// How many characters there are.
    pub count: u128,
    /// Whether the ranges ascend, so that each index below the count is of a character.
    pub are_ascending: bool,
}

/// Returns the alphabet of ranges.
pub fn alphabet_of(ranges: &[Range], is_aligned: bool) -> Alphabet<'_>
    ensures is { IsAlphabet result }
    ensures ranges { result.ranges.now ≡ ranges.now }
    ensures variant { result.is_aligned ≡ is_aligned }
{
    if ranges.len() >= 1 << 32 {
        return alphabet_of_many(ranges, is_aligned);
    }
    alphabet_of_few(ranges, is_aligned)
}

/// Returns the alphabet of ranges, which must be fewer than 2^32.
#[inline(always)]
pub fn alphabet_of_few(ranges: &[Range], is_aligned: bool) -> Alphabet<'_>
    requires { length ranges.now < 2 ^ 32 }
    ensures is { IsAlphabet result }
    ensures ranges { result.ranges.now ≡ ranges.now }
    ensures variant { result.is_aligned ≡ is_aligned }
{
    let sums = sums_of(ranges);
    let width = width_of_few(sums.count, is_aligned);
    Alphabet {
        ranges,
        is_aligned,
        width,
        are_numbers: fits(sums.end, width),
        count: sums.count as u128,
        are_ascending: sums.are_ascending,
    }
}

/// Returns the alphabet of ranges in the UNALIGNED variant, if they ascend, none of them is empty, they
/// have from 2 to 128 characters, and codes are indices. There must be fewer than 2^32 ranges. No clause
/// says when it is `Some`: otherwise the caller takes `alphabet_of_few`, which is for all ranges.
#[inline(always)]
pub fn narrow_alphabet(ranges: &[Range]) -> Option<Alphabet<'_>>
    requires { length ranges.now < 2 ^ 32 }
    ensures is { IfSome result (λ a. IsAlphabet a) }
    ensures ranges { IfSome result (λ a. a.ranges.now ≡ ranges.now) }
    ensures variant { IfSome result (λ a. a.is_aligned ≡ false) }
    ensures some { IfSome result (λ a. 1 ≤ a.width) }
    ensures narrow { IfSome result (λ a. a.width ≤ 7) }
{
    let sums = ascending_sums(ranges)?;
    if sums.count < 2 || sums.count > 128 {
        return None;
    }
    let width = width_to_many(sums.count - 1);
    if sums.end <= 1 << width {
        return None;
    }
    Some(Alphabet {
        ranges,
        is_aligned: false,
        width,
        are_numbers: false,
        count: sums.count as u128,
        are_ascending: true,
    })
}

/// Returns the alphabet of ranges, of any number.
#[cold]
fn alphabet_of_many(ranges: &[Range], is_aligned: bool) -> Alphabet<'_>
    ensures is { IsAlphabet result }
    ensures ranges { result.ranges.now ≡ ranges.now }
    ensures variant { result.is_aligned ≡ is_aligned }
{
    let count = count_of(ranges);
    let width = width_of(count, is_aligned);
    Alphabet {
        ranges,
        is_aligned,
        width,
        are_numbers: are_within(ranges, width),
        count,
        are_ascending: are_ascending(ranges),
    }
}

/// Returns rows of the table of ranges, as far as the table has them.
#[inline(always)]
pub fn ranges_in(table: &[Range], rows: Rows) -> &[Range]
    ensures { result.now ≡ rows_of table.now rows }
{
    let (_, rest) = table.split_at(rows.from.min(table.len()));
    let (ranges, _) = rest.split_at((rows.count as usize).min(rest.len()));
    ranges
}

/// Returns how many characters an alphabet has. Each is below 2^32.
fn count_of(ranges: &[Range]) -> u128
    ensures value { result ≡ count_in ranges.now }
    ensures few { result ≤ 2 ^ 96 }
    ensures small { (c : ℕ) → IsIn ranges.now c → c < 2 ^ 32 }
{
    let mut count: u128 = 0;
    for range in ranges {
        count += (range.last as u128 + 1).saturating_sub(range.first as u128);
    }
    count
}

/// Returns in how many bits one of `count` characters is (X.691 30.5.2, 30.5.3).
#[inline(always)]
fn width_of(count: u128, is_aligned: bool) -> usize
    ensures value { result ≡ width_for is_aligned count }
    ensures most { result ≤ 128 }
{
    if count <= 1 {
        return 0;
    }
    let width = width_to(count - 1);
    if is_aligned {
        width.next_power_of_two()
    } else {
        width
    }
}

/// Returns the same of fewer than 2^64 characters.
#[inline(always)]
fn width_of_few(count: u64, is_aligned: bool) -> usize
    ensures value { result ≡ width_for is_aligned count }
    ensures most { result ≤ 128 }
{
    if count <= 1 {
        return 0;
    }
    let width = width_to_many(count - 1);
    if is_aligned {
        width.next_power_of_two()
    } else {
        width
    }
}

/// Returns whether no character exceeds the numbers of `width` bits, so that each is its own code
/// (X.691 30.5.4).
fn are_within(ranges: &[Range], width: usize) -> bool
    requires { width ≤ 128 }
    ensures { result ≡ are_all_within ranges.now (2 ^ width - 1) }
{
    are_up_to(ranges, greatest_of(width))
}

/// Returns the greatest number of `width` bits.
fn greatest_of(width: usize) -> u128
    requires { width ≤ 128 }
    ensures { result ≡ 2 ^ width - 1 }
{
    if width >= 128 {
        return u128::MAX;
    }
    (1u128 << width) - 1
}

/// Returns whether no character exceeds a number.
fn are_up_to(ranges: &[Range], most: u128) -> bool
    ensures { result ≡ are_all_within ranges.now most }
{
    for range in ranges {
        if range.last as u128 > most {
            return false;
        }
    }
    true
}

/// Returns whether an alphabet has a character.
pub fn is_in(ranges: &[Range], character: u128) -> bool
    ensures yes { result ≡ true → IsIn ranges.now character }
    ensures no { result ≡ false → IsIn ranges.now character → ⊥ }
{
    for range in ranges {
        if range.first as u128 <= character && character <= range.last as u128 {
            return true;
        }
    }
    false
}

/// Returns how many characters are below a number.
pub(crate) fn count_below(ranges: &[Range], number: u64) -> u128
    ensures { result ≡ characters_below ranges.now number }
{
    let mut count: u128 = 0;
    for range in ranges {
        let from = number.saturating_sub(range.first as u64);
        let past = number.saturating_sub(range.last as u64 + 1);
        count += from.saturating_sub(past) as u128;
    }
    count
}

/// Returns the first number that exceeds all characters.
fn end_of(ranges: &[Range]) -> u64
    ensures value { result ≡ end_in ranges.now }
    ensures most { result ≤ 2 ^ 32 }
{
    let mut end: u64 = 0;
    for range in ranges {
        end = end.max(range.last as u64 + 1);
    }
    end
}

/// Returns the character of an index, if the ranges ascend and there is one. It visits the ranges
/// once.
pub(crate) fn ascending_at(ranges: &[Range], index: u64) -> Option<u64>
    ensures within { IfSome result (λ c. IsIn ranges.now c) }
    ensures index { IfSome result (λ c. characters_below ranges.now c ≡ index) }
    ensures most { IfSome result (λ c. c < 2 ^ 32) }
{
    if !are_ascending(ranges) {
        return None;
    }
    let mut left = index;
    for range in ranges {
        let beyond = (range.last as u64 + 1).saturating_sub(range.first as u64);
        if left < beyond {
            return Some(range.first as u64 + left);
        }
        left -= beyond;
    }
    None
}

/// Returns the first number up to which there are more than `index` characters, or the end of the
/// alphabet.
pub(crate) fn first_past(ranges: &[Range], index: u128) -> u64
    ensures below { characters_below ranges.now result ≤ index }
    ensures past { (result ≡ end_in ranges.now) ⊎ ((index < characters_below ranges.now (result + 1))
        × (characters_below ranges.now (result + 1) < 2 ^ 128)) }
    ensures most { result ≤ 2 ^ 32 }
{
    let mut low: u64 = 0;
    let mut high: u64 = end_of(ranges);
    while low < high {
        let middle = low + (high - low) / 2;
        if count_below(ranges, middle + 1) > index {
            high = middle;
        } else {
            low = middle + 1;
        }
    }
    low
}

/// Returns whether an alphabet has a character of this index in ascending order.
fn has_index(ranges: &[Range], index: u128) -> bool
    ensures yes { result ≡ true → IsIn ranges.now (character_at ranges.now index)
        × (characters_below ranges.now (character_at ranges.now index) ≡ index) }
    ensures no { result ≡ false → (c : ℕ) → IsIn ranges.now c → characters_below ranges.now c ≡ index → ⊥ }
{
    let character = first_past(ranges, index);
    count_below(ranges, character) == index && is_in(ranges, character as u128)
}

/// Returns whether ranges ascend, and none of them is empty.
fn are_ascending(ranges: &[Range]) -> bool
    ensures { result ≡ true → AreAscending 0 ranges.now }
{
    let mut end: u64 = 0;
    for range in ranges {
        if (range.first as u64) < end || range.last < range.first {
            return false;
        }
        end = range.last as u64 + 1;
    }
    true
}

/// Returns whether an alphabet whose ranges ascend has a character of this index.
fn is_index(alphabet: &Alphabet<'_>, index: u128) -> bool
    requires is { IsAlphabet alphabet.now }
    requires ascending { alphabet.now.are_ascending ≡ true }
    ensures yes { result ≡ true → IsIn alphabet.now.ranges.now (character_at alphabet.now.ranges.now index)
        × (characters_below alphabet.now.ranges.now (character_at alphabet.now.ranges.now index) ≡ index) }
    ensures no { result ≡ false → (c : ℕ) → IsIn alphabet.now.ranges.now c → characters_below alphabet.now.ranges.now c ≡ index → ⊥ }
{
    index < alphabet.count
}

/// Returns whether a code is of a character (X.691 30.5.4).
#[inline(always)]
pub(crate) fn has_code(alphabet: &Alphabet<'_>, code: u128) -> bool
    requires { IsAlphabet alphabet.now }
    ensures yes { result ≡ true → HasCode alphabet.now.is_aligned alphabet.now.ranges.now code
        (character_by alphabet.now.are_numbers alphabet.now.ranges.now code) }
    ensures no { result ≡ false → (c : ℕ) → HasCode alphabet.now.is_aligned alphabet.now.ranges.now code c → ⊥ }
{
    if alphabet.are_numbers {
        is_in(alphabet.ranges, code)
    } else if alphabet.are_ascending {
        is_index(alphabet, code)
    } else {
        has_index(alphabet.ranges, code)
    }
}
