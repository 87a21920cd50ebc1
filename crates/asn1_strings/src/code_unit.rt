//! The integers in which strings keep a character.
ghost use Rattle.std.specs.Prelude.{◌≡◌, ◌≢◌, ◌≤◌, ◌<◌, ◌↔◌, ℕ, true, [], nat_eq, map, All, IsTrue, IfOk, OnErr};
ghost use Rattle.std.specs.Ordering.{nat_cmp};
ghost use Rattle.std.specs.Cmp.Lexicographic.{pointwise, slice_cmp};
ghost use Rattle.std.specs.Int.{w16, from_be_bytes};
ghost use Rattle.std.proofs.Common.{lit≤};
ghost use Rattle.asn1_characters.specs.Sets.{base_set, has_character, largest};
ghost use Rattle.asn1_strings.specs.Pieces.{pieces, unsigned};
ghost use Rattle.asn1_strings.specs.Strings.{character_octets};

use asn1_characters::CharacterSetName;
use std::alloc::{AllocError, Global};
use std::cmp::Ordering;
use std::fmt;

/// An integer in which a string keeps one character: `u16` in `BmpString`, `u8` in the other
/// strings.
pub trait CodeUnit: Copy + Drop + fmt::Debug {
    /// The character.
    ghost value: { Self → ℕ };

    /// One more than the greatest character that can be kept.
    ghost limit: { ℕ };

    /// The octets of a character in the contents of the string (X.690 8.23).
    ghost OCTETS: { ℕ };

    /// The number of octets of a character in the contents of the string (X.690 8.23).
    const OCTETS: usize;

    /// Returns the character.
    fn to_character(self) -> u32
        ensures { result ≡ value self };

    /// Returns the unit that keeps a character.
    ///
    /// The character must be below `limit`.
    fn from_character(character: u32) -> Self
        requires { character < limit }
        ensures { value result ≡ character };

    /// Returns whether the set has each character of these octets. It has no early exit, so that
    /// the loop vectorises.
    ///
    /// The set must be of a string whose characters have `OCTETS` octets.
    fn are_in(name: CharacterSetName, octets: &[u8]) -> bool
        requires { OCTETS ≡ character_octets name }
        ensures { IsTrue result ↔ All (λ c. has_character (base_set name) c ≡ true)
            (map unsigned (pieces OCTETS octets.now)) };

    /// Returns the units of these octets.
    ///
    /// # Errors
    ///
    /// Returns `AllocError` if out of memory and there is at least one unit.
    fn of_octets(alloc: Global, octets: &[u8]) -> Result<Vec<Self>, AllocError>
        ensures units { IfOk result
            (λ v. map value v.items ≡ map unsigned (pieces OCTETS octets.now)) }
        ensures memory { OnErr result (map unsigned (pieces OCTETS octets.now) ≢ []) };

    /// Returns whether two runs of units have the same characters.
    fn are_equal(xs: &[Self], ys: &[Self]) -> bool
        ensures { result ≡ pointwise nat_eq (map value xs.now) (map value ys.now) };

    /// Compares two runs of units, character by character.
    fn compare(xs: &[Self], ys: &[Self]) -> Ordering
        ensures { result ≡ slice_cmp nat_cmp (map value xs.now) (map value ys.now) };

    ghost few_octets: { OCTETS ≤ 4 };
}

impl CodeUnit for u8 {
    ghost value = { λ unit. unit };

    ghost limit = { 256 };

    ghost OCTETS = { 1 };

    const OCTETS: usize = 1;

    fn to_character(self) -> u32 {
        u32::from(self)
    }

    fn from_character(character: u32) -> u8 {
        character as u8
    }

    fn are_in(name: CharacterSetName, octets: &[u8]) -> bool {
        match name {
            CharacterSetName::IA5 => return lie_between(octets, 0, 0x7F),
            CharacterSetName::Visible => return lie_between(octets, 0x20, 0x7E),
            _ => {}
        }
        let mut right = true;
        for octet in octets {
            right = right & name.has_octet(*octet);
        }
        right
    }

    fn of_octets(alloc: Global, octets: &[u8]) -> Result<Vec<u8>, AllocError> {
        if octets.is_empty() {
            return Ok(Vec::new(alloc));
        }
        Vec::from_slice(alloc, octets)
    }

    fn are_equal(xs: &[u8], ys: &[u8]) -> bool {
        xs == ys
    }

    fn compare(xs: &[u8], ys: &[u8]) -> Ordering {
        xs.cmp(ys)
    }

    ghost few_octets = { lit≤ tt };
}

impl CodeUnit for u16 {
    ghost value = { λ unit. unit };

    ghost limit = { 65536 };

    ghost OCTETS = { 2 };

    const OCTETS: usize = 2;

    fn to_character(self) -> u32 {
        u32::from(self)
    }

    fn from_character(character: u32) -> u16 {
        character as u16
    }

    // Of the eight strings `BmpString` alone has two octets a character.
    fn are_in(_name: CharacterSetName, octets: &[u8]) -> bool {
        let (pairs, _) = octets.as_chunks::<2>();
        largest_pair(pairs) <= 0xFFFD
    }

    fn of_octets(alloc: Global, octets: &[u8]) -> Result<Vec<u16>, AllocError> {
        let (pairs, _) = octets.as_chunks::<2>();
        let mut units = Vec::with_capacity(alloc, pairs.len())?;
        for pair in pairs {
            units.push_reserved(u16::from_be_bytes(*pair));
        }
        Ok(units)
    }

    fn are_equal(xs: &[u16], ys: &[u16]) -> bool {
        xs == ys
    }

    fn compare(xs: &[u16], ys: &[u16]) -> Ordering {
        xs.cmp(ys)
    }

    ghost few_octets = { lit≤ tt };
}

/// Returns whether all octets are in `first..=last`. It takes the greatest
/// `octet.wrapping_sub(first)`: octets below `first` wrap to large values.
fn lie_between(octets: &[u8], first: u8, last: u8) -> bool
    requires { first ≤ last }
    ensures { IsTrue result ↔ All (λ c. (first ≤ c) × (c ≤ last)) octets.now }
{
    let mut most = 0;
    for octet in octets {
        most = most.max(octet.wrapping_sub(first));
    }
    most <= last - first
}

/// Returns the largest number of a pair of octets, or 0.
fn largest_pair(pairs: &[[u8; 2]]) -> u16
    ensures { result ≡ largest (map (from_be_bytes w16) pairs.now) }
{
    let mut most = 0;
    for pair in pairs {
        most = most.max(u16::from_be_bytes(*pair));
    }
    most
}
