//! The contents of identifiers (X.690 8.19), octet by octet.

ghost use Rattle.std.specs.Prelude.{◌≡◌, ◌<◌, ◌≤◌, ◌*◌, ◌^◌, ◌+◌, ℕ, List, [], ◌++◌, length, vec_len, vec_capacity, OnOk, OnErr, IsOk};
ghost use Rattle.std.specs.List.{flat_map};
ghost use Rattle.std.specs.Iterator.{YieldsFirst, YieldsLast, item_count};
ghost use Rattle.asn1_oid.specs.Writing.{HasDigits, both_left, last_octets, low_octets, octets_left, subidentifier_octets};

use crate::pushes::{push_arc, push_word};
use std::alloc::AllocError;
use std::marker::Model;

/// An iterator over the octets of an identifier's contents (X.690 8.19) that are left, from either
/// end.
#[derive(Debug, Drop)]
pub struct OidContents<'a> {
    // The octets of the current subidentifier that are left, the first in the lowest eight bits;
    // their number; and the arcs after it.
    octets: u64,
    left: u32,
    arcs: &'a [u32],
    // The octets that are left of the subidentifier after those arcs, which only `next_back` reads
    // from an arc, the first in the lowest eight bits; and their number.
    back: u64,
    back_left: u32,
}

impl<'a> Model for OidContents<'a> {
    ghost Value = { List ℕ };

    ghost view = { λ s. both_left s.octets s.left s.arcs.now s.back s.back_left };

    ghost invariant = { λ s. (s.left ≤ 5) × (s.back_left ≤ 5) };
}

/// Returns the number of octets of a subidentifier: its binary digits divided by seven, rounded up,
/// and at least one (X.690 8.19.2).
pub(crate) fn octet_count(number: u64) -> u32
    requires { number < 2 ^ 35 }
    ensures digits { HasDigits number result }
    ensures few { result ≤ 5 }
{
    if number < 1 << 7 {
        1
    } else if number < 1 << 14 {
        2
    } else if number < 1 << 21 {
        3
    } else if number < 1 << 28 {
        4
    } else {
        5
    }
}

/// Returns the octets of the subidentifier of a number, the first in the lowest eight bits, and how
/// many they are.
fn octets_in_word(number: u64) -> (u64, u32)
    requires { number < 2 ^ 35 }
    ensures digits { HasDigits number result.1 }
    ensures few { result.1 ≤ 5 }
    ensures octets { low_octets result.0 result.1 ≡ last_octets number result.1 }
{
    let one = number % 128;
    if number < 1 << 7 {
        return (one, 1);
    }
    let two = 256 * one + 128 + (number >> 7) % 128;
    if number < 1 << 14 {
        return (two, 2);
    }
    let three = 256 * two + 128 + (number >> 14) % 128;
    if number < 1 << 21 {
        return (three, 3);
    }
    let four = 256 * three + 128 + (number >> 21) % 128;
    if number < 1 << 28 {
        return (four, 4);
    }
    (256 * four + 128 + (number >> 28) % 128, 5)
}

/// Takes the first octet out of a word of `count` octets.
fn take_first(word: &mut u64, count: &mut u32) -> Option<u8>
    ensures first { YieldsFirst (λ w. w) (low_octets word.old count.old) result
        (low_octets word.new count.new) }
    ensures fewer { count.new ≤ count.old }
{
    if *count == 0 {
        return None;
    }
    let octet = (*word % 256) as u8;
    *word /= 256;
    *count -= 1;
    Some(octet)
}

/// Takes the last octet out of a word of `count` octets.
fn take_last(word: u64, count: &mut u32) -> Option<u8>
    requires { count.old ≤ 5 }
    ensures last { YieldsLast (λ w. w) (low_octets word count.old) result
        (low_octets word count.new) }
    ensures fewer { count.new ≤ count.old }
{
    if *count == 0 {
        return None;
    }
    *count -= 1;
    Some(((word >> (8 * *count)) % 256) as u8)
}

/// Returns how many octets the subidentifiers of further arcs have.
pub(crate) fn octets_of_arcs(arcs: &[u32]) -> usize
    ensures len { result ≡ length (flat_map subidentifier_octets arcs.now) }
    ensures few { result ≤ 5 * length arcs.now }
{
    let mut len = 0;
    for arc in arcs {
        len += octet_count(u64::from(*arc)) as usize;
    }
    len
}

impl<'a> OidContents<'a> {
    /// Returns the octets of a subidentifier, and of those of further arcs.
    pub(crate) fn of(number: u64, arcs: &'a [u32]) -> OidContents<'a>
        requires { number < 2 ^ 35 }
        ensures { (k : ℕ) → HasDigits number k → result ≡ octets_left number k arcs.now }
    {
        let (octets, left) = octets_in_word(number);
        OidContents {
            octets,
            left,
            arcs,
            back: 0,
            back_left: 0,
        }
    }

    /// Returns how many octets are left.
    fn count_left(&self) -> usize
        ensures { result ≡ length self.now }
    {
        self.left as usize + octets_of_arcs(self.arcs) + self.back_left as usize
    }

    /// Appends the octets that are left to the vector, faster than pushing each. It reserves room
    /// once, five octets an arc, which may be more than they take.
    ///
    /// # Errors
    ///
    /// Returns `AllocError` if out of memory; the vector's octets are then unchanged. It never
    /// fails if no octets are left, or if the vector has room for five times as many as are left.
    ///
    /// # Examples
    ///
    /// ```
    /// use asn1_oid::Oid;
    ///
    /// let mut octets = Vec::new(rt.alloc());
    /// if let Some(contents) = Oid::new(&[1, 2, 840]).and_then(|it| it.contents()) {
    ///     contents.append_to(&mut octets)?;
    /// }
    /// assert!(rt; octets.as_slice() == [0x2A, 0x86, 0x48].as_slice());
    /// ```
    pub fn append_to(self, octets: &mut Vec<u8>) -> Result<(), AllocError>
        ensures ok { OnOk result (octets.new.items ≡ octets.old.items ++ self.entry) }
        ensures err { OnErr result (octets.new.items ≡ octets.old.items) }
        // For no octets it allocates nothing, nor if there is room for five times the octets that
        // are left.
        ensures free { self.entry ≡ [] → IsOk result }
        ensures in_room { vec_len octets.old + 5 * length self.entry ≤ vec_capacity octets.old
            → IsOk result }
    {
        let OidContents {
            octets: word,
            left,
            arcs,
            back,
            back_left,
        } = self;
        octets.reserve(5 * arcs.len() + left as usize + back_left as usize)?;
        push_word(octets, word, left);
        for arc in arcs {
            push_arc(octets, *arc);
        }
        push_word(octets, back, back_left);
        Ok(())
    }
}

impl<'a> Clone for OidContents<'a> {
    ghost use Rattle.std.specs.Prelude.{⊤};

    ghost is_clone = { λ x y. y ≡ x };

    ghost is_infallible = { λ _. ⊤ };

    /// Returns an iterator over the same octets.
    ///
    /// # Errors
    ///
    /// Never returns an error: it allocates nothing.
    fn clone(&self) -> Result<OidContents<'a>, AllocError> {
        Ok(OidContents {
            octets: self.octets,
            left: self.left,
            arcs: self.arcs,
            back: self.back,
            back_left: self.back_left,
        })
    }
}

impl<'a> Iterator for OidContents<'a> {
    ghost use Rattle.std.specs.Prelude.{IfSome};
    ghost use Rattle.std.specs.Iterator.{UpTo};
    ghost use Rattle.std.specs.Iterator.SizeHint.{IsExactHint, IsWithinCount};

    type Item = u8;

    ghost next_gives = { YieldsFirst (λ s. s) };

    ghost remaining = { item_count (λ s. s) };

    fn next(&mut self) -> Option<u8> {
        if self.left == 0 {
            let Some((arc, others)) = self.arcs.split_first() else {
                return take_first(&mut self.back, &mut self.back_left);
            };
            self.arcs = others;
            if *arc < 128 {
                return Some(*arc as u8);
            }
            (self.octets, self.left) = octets_in_word(u64::from(*arc));
        }
        let octet = (self.octets % 256) as u8;
        self.octets /= 256;
        self.left -= 1;
        Some(octet)
    }

    /// Returns the number of octets that are left, twice.
    fn size_hint(&self) -> (usize, Option<usize>)
        ensures lower { IsWithinCount result.0 (item_count (λ s. s) self.now) }
        ensures upper { IfSome result.1 (UpTo (item_count (λ s. s) self.now)) }
        ensures exact { IsExactHint result (length self.now) }
    {
        let count = self.count_left();
        (count, Some(count))
    }
}

impl<'a> ExactSizeIterator for OidContents<'a> {
    /// Returns the number of octets that are left. It visits each arc that is left.
    fn len(&self) -> usize {
        self.count_left()
    }
}

impl<'a> DoubleEndedIterator for OidContents<'a> {
    ghost next_back_gives = { YieldsLast (λ s. s) };

    fn next_back(&mut self) -> Option<u8> {
        if self.back_left == 0 {
            let Some((arc, others)) = self.arcs.split_last() else {
                return take_last(self.octets, &mut self.left);
            };
            self.arcs = others;
            (self.back, self.back_left) = octets_in_word(u64::from(*arc));
        }
        take_last(self.back, &mut self.back_left)
    }
}
