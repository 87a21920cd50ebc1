//! Strings from bits, by value and by permitted alphabets.

use crate::strings::types::string_text;
use asn1_bits::{BitStr, BitString};
use asn1_strings::StaticPermittedAlphabet;
use asn1_test_rows::{RowError, octets, parse_word, wrong};
use std::alloc::Global;
use std::collections::BTreeMap;

/// Answers the calls on the first bits of octets: of the octets, the number of bits, and what the
/// call takes.
pub fn answer<S: StaticPermittedAlphabet>(
    alloc: Global,
    name: &str,
    words: &[&str],
) -> Result<String, RowError> {
    match words {
        [word, len, others @ ..] => of_bits::<S>(
            alloc,
            name,
            octets(alloc, word)?,
            parse_word::<usize>(alloc, len)?,
            others,
        ),
        _ => Err(wrong(alloc, name, "reading of bits")),
    }
}

fn of_bits<S: StaticPermittedAlphabet>(
    alloc: Global,
    name: &str,
    octets: Vec<u8>,
    len: usize,
    others: &[&str],
) -> Result<String, RowError> {
    if name == "try_from_bit_string" {
        return from_bit_string::<S>(alloc, octets, len);
    }
    let Some(bits) = BitStr::new(octets.as_slice(), 0, len) else {
        return Err(wrong(alloc, name, "reading of so many bits"));
    };
    match (name, others) {
        ("try_from_bits", [width]) => by_value::<S>(
            alloc,
            bits,
            parse_word::<usize>(alloc, width)?,
        ),
        ("try_from_no_alphabet", []) => by_places::<S>(alloc, bits),
        ("try_from_permitted_alphabet", pairs) => by_map::<S>(alloc, bits, pairs),
        _ => Err(wrong(alloc, name, "reading of bits")),
    }
}

fn from_bit_string<S: StaticPermittedAlphabet>(
    alloc: Global,
    octets: Vec<u8>,
    len: usize,
) -> Result<String, RowError> {
    if octets.len() > 4096 {
        return Err(wrong(alloc, "the word", "list of so few octets"));
    }
    let mut bits = BitString::from_vec(octets);
    bits.truncate(len);
    string_text(alloc, S::try_from_bit_string(alloc, bits))
}

fn by_value<S: StaticPermittedAlphabet>(
    alloc: Global,
    bits: BitStr<'_>,
    width: usize,
) -> Result<String, RowError> {
    if width > 32 {
        return Err(wrong(alloc, "the word", "width of at most 32 bits"));
    }
    string_text(alloc, S::try_from_bits(alloc, bits, width))
}

/// Returns the string that the bits encode by the indices of the base set.
fn by_places<S: StaticPermittedAlphabet>(
    alloc: Global,
    bits: BitStr<'_>,
) -> Result<String, RowError> {
    string_text(alloc, S::try_from_permitted_alphabet(alloc, bits, None))
}

/// Returns the string that the bits encode by a map, whose entries are words such as `0:65`.
fn by_map<S: StaticPermittedAlphabet>(
    alloc: Global,
    bits: BitStr<'_>,
    pairs: &[&str],
) -> Result<String, RowError> {
    let map = map_of(alloc, pairs)?;
    if map.len() > 4096 {
        return Err(wrong(alloc, "the row", "map of so few entries"));
    }
    string_text(
        alloc,
        S::try_from_permitted_alphabet(alloc, bits, Some(&map)),
    )
}

fn map_of(alloc: Global, pairs: &[&str]) -> Result<BTreeMap<u32, u32>, RowError> {
    let mut map = BTreeMap::new(alloc);
    for pair in pairs {
        let Some((key, character)) = pair.split_once(':') else {
            return Err(wrong(alloc, pair, "entry"));
        };
        map.insert(
            parse_word::<u32>(alloc, key)?,
            parse_word::<u32>(alloc, character)?,
        )?;
    }
    Ok(map)
}
