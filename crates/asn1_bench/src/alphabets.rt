//! Codes of characters.

use crate::row::{Row, Work};
use asn1_values::{BmpString, CharacterAlphabet, Ia5String};
use std::alloc::{AllocError, Global};

/// The characters of an alphabet of twenty.
const TWENTY: [u32; 20] = [
    45, 46, 65, 66, 67, 68, 69, 70, 71, 72, 97, 98, 99, 100, 101, 102, 103, 104, 105, 106,
];

/// The permitted sets.
#[derive(Clone, Copy)]
pub enum Set {
    /// The digits, without a gap.
    Ten,
    /// Three runs of characters.
    Twenty,
    /// The 52 letters, `-` and `.`, as names in X.691 A.2 have them.
    FiftyFour,
    /// Every second character of two octets, found by binary search.
    Many,
}

/// Codes in an alphabet, and their characters.
#[derive(Drop)]
pub struct Codes {
    kind: Set,
    set: Vec<u32>,
}

impl Codes {
    /// In the alphabet of a permitted set.
    pub fn new(alloc: Global, kind: Set) -> Result<Codes, AllocError> {
        let mut set = Vec::new(alloc);
        match kind {
            Set::Ten => append(&mut set, 48, 58)?,
            Set::Twenty => set.extend_from_slice(&TWENTY)?,
            Set::FiftyFour => {
                append(&mut set, 45, 47)?;
                append(&mut set, 65, 91)?;
                append(&mut set, 97, 123)?;
            }
            Set::Many => append_many(&mut set)?,
        }
        Ok(Codes { kind, set })
    }
}

/// Appends the characters from the first one to the one before the end.
fn append(set: &mut Vec<u32>, first: u32, end: u32) -> Result<(), AllocError> {
    for character in first..end {
        set.push(character)?;
    }
    Ok(())
}

/// Appends 256 characters, every second one.
fn append_many(set: &mut Vec<u32>) -> Result<(), AllocError> {
    for i in 0..256u32 {
        set.push(1024 + 2 * i)?;
    }
    Ok(())
}

impl Row for Codes {
    fn work(&self) -> Work {
        Work {
            name: match self.kind {
                Set::Ten => "a code in an alphabet of 10 characters, and its character",
                Set::Twenty => "a code in an alphabet of 20 characters, and its character",
                Set::FiftyFour => "a code in an alphabet of 54 characters, and its character",
                Set::Many => "a code in an alphabet of 256 characters, and its character",
            },
            pieces: 1000,
            octets: 0,
        }
    }

    fn round(&mut self, _alloc: Global) -> Result<u64, AllocError> {
        let set = self.set.as_slice();
        if set.is_empty() || set.len() > 256 {
            return Ok(0);
        }
        let alphabet = match self.kind {
            Set::Many => CharacterAlphabet::new::<BmpString>(Some(set), false),
            _ => CharacterAlphabet::new::<Ia5String>(Some(set), false),
        };
        let mut sum = 0u64;
        for i in 0..1000usize {
            let code = alphabet.encode(set[i % set.len()]).unwrap_or(0);
            sum = sum.wrapping_add(u64::from(alphabet.decode(code).unwrap_or(0)));
        }
        Ok(sum)
    }
}
