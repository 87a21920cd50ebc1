//! Hashes of lists of bits: the hash depends on the length and the bits, not on where they are.

use crate::bits::words::{part_of, push_truth};
use asn1_bits::{BitStr, FixedBitString, to_bitstring};
use std::alloc::Global;
use std::hash::{FoldHasher, Hash, Hasher};

/// Appends the answer to a call on the view of the first word.
pub fn answer(alloc: Global, text: &mut String, name: &str, words: &[&str]) -> Option<()> {
    if let [first, numbers @ ..] = words
        && let Some(part) = part_of(alloc, first)
        && let Some(view) = part.view()
    {
        return answer_on(alloc, text, name, view, numbers);
    }
    None
}

/// Appends whether the hash of a view is that of its length and the numbers, or that of a copy.
fn answer_on(
    alloc: Global,
    text: &mut String,
    name: &str,
    view: BitStr<'_>,
    numbers: &[&str],
) -> Option<()> {
    match other_hash(alloc, name, view, numbers) {
        Some(other) => push_truth(text, hash_of(&view) == other),
        None => None,
    }
}

/// Returns the hash to compare with that of a view.
fn other_hash(alloc: Global, name: &str, view: BitStr<'_>, numbers: &[&str]) -> Option<u64> {
    match name {
        "BitStr" => plain_hash(view.len(), numbers),
        "BitString" => Some(hash_of(&to_bitstring(alloc, view).ok()?)),
        "FixedBitString" => Some(hash_of(&FixedBitString::<12>::from_bitstr(view)?)),
        _ => None,
    }
}

/// Returns the hash of a value.
fn hash_of<T: Hash>(value: &T) -> u64 {
    let mut hasher = FoldHasher::default();
    value.hash(&mut hasher);
    hasher.finish()
}

/// Returns the hash of the number of bits, of the number of each 64 of them, and of the number of
/// the last ones.
fn plain_hash(len: usize, numbers: &[&str]) -> Option<u64> {
    let mut hasher = FoldHasher::default();
    hasher.write_usize(len);
    for number in numbers {
        hasher.write_u64(number.parse::<u64>().ok()?);
    }
    Some(hasher.finish())
}
