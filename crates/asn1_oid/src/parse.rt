//! The arcs of a dotted text.

ghost use Rattle.std.specs.Prelude.{◌≡◌, ◌≢◌, ◌<◌, ◌≤◌, ◌+◌, ◌*◌, ◌==◌, ◌^◌, ℕ, List, [], ◌∷◌, ◌++◌, IfSome, IfNone, length, drop, decimal, slice_set};
ghost use Rattle.std.specs.List.{slice_split};
ghost use Rattle.std.specs.Option.{option_map_or};
ghost use Rattle.asn1_oid.specs.Arcs.{full_stop};
ghost use Rattle.asn1_oid.specs.DottedText.{IsDottedText};

use crate::oid::is_valid;
use itoa::Buffer;
use std::alloc::AllocError;
use std::str;
use thiserror::Error;

/// Why a text is not that of an identifier, or could not be read as such.
#[derive(Clone, Copy, Debug, Drop, Error, PartialEq, Eq, PartialOrd, Ord, Hash)]
pub enum DottedTextError {
    /// It is not the decimals of valid arcs within `u32`, joined by full stops.
    #[error("no dotted text of an object identifier")]
    Malformed,
    /// It is the text of an identifier, but out of memory.
    #[error("out of memory")]
    Memory,
}

impl From<AllocError> for DottedTextError {
    ghost use Rattle.std.specs.Prelude.{◌≡◌};
    ghost use Rattle.asn1_oid.specs.declared.parse.DottedTextError.TheVariants.{Memory};

    ghost from_gives = { λ _ e. e ≡ Memory };

    fn from(_error: AllocError) -> DottedTextError {
        DottedTextError::Memory
    }
}

/// Writes the arcs of a dotted text to the front of the room, if they all fit, and returns their
/// number. It returns `None` if the text is not that of an identifier whose arcs all fit `u32`. If
/// the room is too small or the result is `None`, nothing is said of what the room holds. It
/// allocates nothing.
pub fn parse_arcs(text: &[u8], room: &mut [u32]) -> Option<usize>
    ensures some { IfSome result (λ k. (arcs : List ℕ) × IsDottedText arcs text.now
        × (k ≡ length arcs)
        × (k ≤ length room.old → room.new ≡ arcs ++ drop k room.old)) }
    // A text has half as many arcs as octets at most, and one more.
    ensures most { IfSome result (λ k. 2 * k ≤ length text.now + 1) }
    ensures none { IfNone result ((arcs : List ℕ) → ¬ (IsDottedText arcs text.now)) }
    ensures same_length { length room.new ≡ length room.old }
{
    let mut front = [0; 2];
    let mut count = 0;
    let mut left = Some(text);
    while let Some(here) = left {
        let (part, behind) = first_part(here);
        let Some(number) = number_of(part) else {
            return None;
        };
        store(&mut front, count, number);
        store(room, count, number);
        count += 1;
        left = behind;
    }
    // The first two arcs determine whether all are valid.
    if !is_valid(&front[..count.min(2)]) {
        return None;
    }
    Some(count)
}

/// Stores a number at an index, if there is such an index.
fn store(room: &mut [u32], at: usize, number: u32)
    ensures { room.new ≡ slice_set room.old at number }
{
    if at < room.len() {
        room[at] = number;
    }
}

/// Returns the octets before the first full stop, and those after it, if there is one.
fn first_part(text: &[u8]) -> (&[u8], Option<&[u8]>)
    ensures parts { slice_split (λ b. b == full_stop) text.now ≡ result.0.now
        ∷ option_map_or (λ behind. slice_split (λ b. b == full_stop) behind.now) result.1 [] }
    ensures shorter { IfSome result.1
        (λ behind. length result.0.now + 1 + length behind.now ≡ length text.now) }
    ensures all { IfNone result.1 (length result.0.now ≡ length text.now) }
{
    for (i, octet) in text.iter().enumerate() {
        if *octet == b'.' {
            return (&text[..i], Some(&text[i + 1..]));
        }
    }
    (text, None)
}

/// Returns the number of which the octets are the decimal.
fn number_of(part: &[u8]) -> Option<u32>
    ensures some { IfSome result (λ n. (decimal n ≡ part.now) × (n < 2 ^ 32)) }
    ensures none { IfNone result ((n : ℕ) → n < 2 ^ 32 → decimal n ≢ part.now) }
{
    let Ok(digits) = str::from_utf8(part) else {
        return None;
    };
    let Ok(number) = digits.parse::<u32>() else {
        return None;
    };
    // `parse` also reads a plus sign and leading zeros.
    if Buffer::new().format(number) == digits {
        Some(number)
    } else {
        None
    }
}
