//! Short strings of characters in the UNALIGNED variant, of one word of a message.
//!
//! No clause says when it is quick to tell, so a body that reads nothing, or returns `false`, is right
//! as well: the caller then reads by the general functions, whose clauses are exact.

ghost use Rattle.std.specs.Prelude.{◌≡◌, ℕ, ◌≤◌, ◌<◌, ◌^◌, ◌*◌, ◌+◌, List, Bool, true, false, length, drop, IfSome, IsNone};
ghost use Rattle.std.specs.List.{AllByRecursion};
ghost use Rattle.asn1_bits.specs.Bits.{bits, digits};
ghost use Rattle.asn1_schema.specs.CharactersOfParts.{numbers_in};
ghost use Rattle.asn1_schema.specs.Encodings.{Starts};
ghost use Rattle.asn1_schema.specs.declared.tables.Length.TheVariants as size;
ghost use Rattle.asn1_x691.specs.Characters.{text_of};
ghost use Rattle.asn1_x691_fields.specs.Characters.{IsAlphabet, AreCodes, characters_at, characters_in};
ghost use Rattle.asn1_x691_fields.specs.Outcomes.{IsWithin, IsOnward, position, rest};
ghost use Rattle.asn1_x691_fields.specs.Windows.{IsWindow};

use crate::alphabets::{Alphabet, narrow_alphabet};
use crate::code_runs::interval_of;
use crate::lanes::are_quickly_in;
use crate::numbers::width_to_few;
use crate::state::State;
use crate::windows::{Window, number_in, window_at};
use asn1_schema::{Length, Range};

/// Characters of a message.
#[derive(Clone, Copy, Debug)]
pub(crate) struct Found {
    /// The index of the first bit.
    pub(crate) at: usize,
    /// How many there are.
    pub(crate) count: usize,
    /// How many bits a code has.
    pub(crate) width: usize,
    /// Whether a code is the number of the character. Otherwise it is its index.
    pub(crate) are_numbers: bool,
}

/// Reads characters of a number of the root, if it is quick to tell that they are of the alphabet.
/// Otherwise it reads nothing.
#[inline(always)]
pub(crate) fn next_quick_text(
    octets: &[u8],
    is_aligned: bool,
    ranges: &[Range],
    size: Length,
    state: &mut State,
) -> Option<Found>
    requires size { 8 * length octets.now < 2 ^ 64 }
    requires ranges { length ranges.now < 2 ^ 32 }
    requires within { IsWithin (bits octets.now) state.old }
    ensures unchanged { IsNone result → state.new ≡ state.old }
    ensures onward { IsOnward (bits octets.now) state.old state.new }
    ensures read { (node : ℕ) → IfSome result (λ f. Starts (text_of 0 is_aligned ranges.now node size (position state.old)).encodes
        (rest (bits octets.now) state.old) (characters_in f ranges.now (bits octets.now)) (rest (bits octets.now) state.new)) }
{
    if is_aligned {
        return None;
    }
    match size {
        Length::AtLeast { least: _ } => None,
        Length::Between { least, range } => {
            next_quick_between(octets, ranges, least, range, state)
        }
    }
}

/// Reads the same of a number that has an upper bound.
#[inline(always)]
fn next_quick_between(
    octets: &[u8],
    ranges: &[Range],
    least: u32,
    range: u32,
    state: &mut State,
) -> Option<Found>
    requires size { 8 * length octets.now < 2 ^ 64 }
    requires ranges { length ranges.now < 2 ^ 32 }
    requires within { IsWithin (bits octets.now) state.old }
    ensures unchanged { IsNone result → state.new ≡ state.old }
    ensures onward { IsOnward (bits octets.now) state.old state.new }
    ensures read { (node : ℕ) → IfSome result (λ f. Starts (text_of 0 false ranges.now node (size.Between least range) (position state.old)).encodes
        (rest (bits octets.now) state.old) (characters_in f ranges.now (bits octets.now)) (rest (bits octets.now) state.new)) }
{
    let alphabet = narrow_alphabet(ranges)?;
    let (count, at) = next_few_between(octets, &alphabet, least, range, state)?;
    Some(Found {
        at,
        count,
        width: alphabet.width,
        are_numbers: alphabet.are_numbers,
    })
}

/// Reads the number of characters of an alphabet, where it is not fixed, and the characters. Returns
/// their number, and the index of the first bit.
#[inline(always)]
fn next_few_between(
    octets: &[u8],
    alphabet: &Alphabet<'_>,
    least: u32,
    range: u32,
    state: &mut State,
) -> Option<(usize, usize)>
    requires size { 8 * length octets.now < 2 ^ 64 }
    requires alphabet { IsAlphabet alphabet.now }
    requires some { 1 ≤ alphabet.now.width }
    requires narrow { alphabet.now.width ≤ 7 }
    requires unaligned { alphabet.now.is_aligned ≡ false }
    requires within { IsWithin (bits octets.now) state.old }
    ensures unchanged { IsNone result → state.new ≡ state.old }
    ensures onward { IsOnward (bits octets.now) state.old state.new }
    ensures read { (node : ℕ) → IfSome result (λ p. Starts (text_of 0 alphabet.now.is_aligned alphabet.now.ranges.now node (size.Between least range) (position state.old)).encodes
        (rest (bits octets.now) state.old) (characters_at alphabet.now (bits octets.now) p.1 p.0) (rest (bits octets.now) state.new)) }
{
    let at = state.at;
    if at >= state.end {
        return None;
    }
    let window = window_at(octets, at)?;
    let first = width_to_few(range);
    let more = number_in(window, 0, first);
    if more > range as u64 {
        return None;
    }
    let count = least as usize + more as usize;
    let size = first + alphabet.width * count;
    if size > state.end - at || window.shift + size > 63 {
        return None;
    }
    if !have_codes(window, first, alphabet, count) {
        return None;
    }
    state.at = at + size;
    Some((count, at + first))
}

/// Returns whether `count` codes of a window are all of characters, if that is quick to tell.
#[inline(always)]
pub fn have_codes(window: Window, skipped: usize, alphabet: &Alphabet<'_>, count: usize) -> bool
    requires is { IsAlphabet alphabet.now }
    requires some { 1 ≤ alphabet.now.width }
    requires narrow { alphabet.now.width ≤ 7 }
    requires fits { window.shift + (skipped + alphabet.now.width * count) < 64 }
    ensures { (list : List Bool) (at : ℕ) → IsWindow list at window → at + (skipped + alphabet.now.width * count) ≤ length list
        → result ≡ true → AreCodes alphabet.now (numbers_in alphabet.now.width count (drop (at + skipped) list)) }
{
    let width = alphabet.width;
    let word = number_in(window, skipped, width * count);
    match interval_of(alphabet) {
        None => false,
        Some(interval) => are_quickly_in(word, width, interval, count),
    }
}
