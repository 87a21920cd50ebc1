//! Strings from octets and from bits.

use crate::bits::octets_of;
use crate::row::{Row, Work};
use asn1_values::{
    BitStr, BmpString, GeneralString, GraphicString, Ia5String, NumericString, PrintableString,
    StaticPermittedAlphabet, TeletexString, VisibleString,
};
use std::alloc::{AllocError, Global};

/// The strings.
#[derive(Clone, Copy)]
pub enum Kind {
    Bmp,
    General,
    Graphic,
    Ia5,
    Numeric,
    Printable,
    Teletex,
    Visible,
}

/// Strings of 1,024 digits from octets, of which two make a character of `BmpString`.
#[derive(Drop)]
pub struct Text {
    kind: Kind,
    octets: Vec<u8>,
}

impl Text {
    /// Of one string.
    pub fn new(alloc: Global, kind: Kind) -> Result<Text, AllocError> {
        let count = match kind {
            Kind::Bmp => 2048,
            _ => 1024,
        };
        let mut octets = octets_of(alloc, count)?;
        for octet in octets.iter_mut() {
            *octet = 48 + *octet % 10;
        }
        Ok(Text { kind, octets })
    }
}

/// Returns how many characters a hundred strings of these octets have.
fn read<S: StaticPermittedAlphabet>(alloc: Global, octets: &[u8]) -> u64 {
    let mut sum = 0u64;
    for _ in 0..100 {
        if let Ok(text) = S::try_from_slice(alloc, octets) {
            sum = sum.wrapping_add(text.len() as u64);
        }
    }
    sum
}

impl Row for Text {
    fn work(&self) -> Work {
        Work {
            name: match self.kind {
                Kind::Bmp => "a BmpString from 2048 octets",
                Kind::General => "a GeneralString from 1024 octets",
                Kind::Graphic => "a GraphicString from 1024 octets",
                Kind::Ia5 => "an Ia5String from 1024 octets",
                Kind::Numeric => "a NumericString from 1024 octets",
                Kind::Printable => "a PrintableString from 1024 octets",
                Kind::Teletex => "a TeletexString from 1024 octets",
                Kind::Visible => "a VisibleString from 1024 octets",
            },
            pieces: 100,
            octets: match self.kind {
                Kind::Bmp => 204_800,
                _ => 102_400,
            },
        }
    }

    fn round(&mut self, alloc: Global) -> Result<u64, AllocError> {
        let octets = self.octets.as_slice();
        Ok(match self.kind {
            Kind::Bmp => read::<BmpString>(alloc, octets),
            Kind::General => read::<GeneralString>(alloc, octets),
            Kind::Graphic => read::<GraphicString>(alloc, octets),
            Kind::Ia5 => read::<Ia5String>(alloc, octets),
            Kind::Numeric => read::<NumericString>(alloc, octets),
            Kind::Printable => read::<PrintableString>(alloc, octets),
            Kind::Teletex => read::<TeletexString>(alloc, octets),
            Kind::Visible => read::<VisibleString>(alloc, octets),
        })
    }
}

/// Strings of 1,024 characters from the bits of their codes: of `NumericString` four a character,
/// of `Ia5String` seven.
#[derive(Drop)]
pub struct Bits {
    numeric: bool,
    octets: Vec<u8>,
}

impl Bits {
    /// Of one of the two strings.
    pub fn new(alloc: Global, numeric: bool) -> Result<Bits, AllocError> {
        let mut octets = octets_of(alloc, if numeric { 512 } else { 896 })?;
        if numeric {
            for octet in octets.iter_mut() {
                *octet = *octet % 10 * 16 + *octet % 9;
            }
        }
        Ok(Bits { numeric, octets })
    }
}

/// Returns how many characters a hundred strings of these bits have.
fn read_bits<S: StaticPermittedAlphabet>(alloc: Global, bits: BitStr<'_>) -> u64 {
    let mut sum = 0u64;
    for _ in 0..100 {
        if let Ok(text) = S::try_from_permitted_alphabet(alloc, bits, None) {
            sum = sum.wrapping_add(text.len() as u64);
        }
    }
    sum
}

impl Row for Bits {
    fn work(&self) -> Work {
        Work {
            name: if self.numeric {
                "a NumericString of 1024 characters from bits, four a character"
            } else {
                "an Ia5String of 1024 characters from bits, seven a character"
            },
            pieces: 100,
            octets: if self.numeric { 51_200 } else { 89_600 },
        }
    }

    fn round(&mut self, alloc: Global) -> Result<u64, AllocError> {
        let octets = self.octets.as_slice();
        if octets.len() > 1024 {
            return Ok(0);
        }
        let bits = BitStr::from_octets(octets);
        Ok(if self.numeric {
            read_bits::<NumericString>(alloc, bits)
        } else {
            read_bits::<Ia5String>(alloc, bits)
        })
    }
}
