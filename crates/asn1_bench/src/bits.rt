//! Copies of bits, numbers read and numbers appended.

use crate::row::{Row, Work};
use asn1_values::{BitBuffer, BitStr, Turns, read_wide, write_bitslice};
use std::alloc::{AllocError, Global};

/// How many bits a copy has.
const BITS: usize = 8192;

/// Returns octets that differ from each other.
pub fn octets_of(alloc: Global, count: usize) -> Result<Vec<u8>, AllocError> {
    let mut octets = Vec::new(alloc);
    octets.reserve(count)?;
    for i in 0..count {
        octets.push((i % 251) as u8)?;
    }
    Ok(octets)
}

/// Copies of 8,192 bits from one bit to another.
#[derive(Drop)]
pub struct Copied {
    src: Vec<u8>,
    dst: Vec<u8>,
    from: usize,
    to: usize,
}

impl Copied {
    /// Copies from bit `from` to bit `to`.
    pub fn new(alloc: Global, from: usize, to: usize) -> Result<Copied, AllocError> {
        Ok(Copied {
            src: octets_of(alloc, BITS / 8 + 16)?,
            dst: Vec::from_elem(alloc, 0, BITS / 8 + 16)?,
            from: from % 8,
            to: to % 8,
        })
    }
}

impl Row for Copied {
    fn work(&self) -> Work {
        Work {
            name: if self.to == 0 {
                "8192 bits ORed in, on octet boundaries"
            } else {
                "8192 bits ORed in, off octet boundaries"
            },
            pieces: 1000,
            octets: 1_024_000,
        }
    }

    fn round(&mut self, _alloc: Global) -> Result<u64, AllocError> {
        let to = self.to;
        for _ in 0..1000 {
            if let Some(view) = BitStr::new(self.src.as_slice(), self.from, BITS) {
                if to < 8 && self.dst.len() >= BITS / 8 + 1 {
                    write_bitslice(self.dst.as_mut_slice(), to, view, &mut Turns::new());
                }
            }
        }
        Ok(self.dst.get(100).map_or(0, |octet| u64::from(*octet)))
    }
}

/// Numbers of 32 bits, read at each bit index.
#[derive(Drop)]
pub struct Numbers {
    octets: Vec<u8>,
}

impl Numbers {
    /// Over a thousand bits.
    pub fn new(alloc: Global) -> Result<Numbers, AllocError> {
        Ok(Numbers {
            octets: octets_of(alloc, 160)?,
        })
    }
}

impl Row for Numbers {
    fn work(&self) -> Work {
        Work {
            name: "a number of 32 bits read",
            pieces: 1000,
            octets: 0,
        }
    }

    fn round(&mut self, _alloc: Global) -> Result<u64, AllocError> {
        let octets = self.octets.as_slice();
        let mut sum = 0u64;
        for position in 0..1000 {
            if octets.len() >= 160 {
                sum = sum.wrapping_add(read_wide(octets, position, 32) as u64);
            }
        }
        Ok(sum)
    }
}

/// Numbers of 32 bits appended after three bits.
#[derive(Drop)]
pub struct Appended {}

impl Appended {
    /// Returns the row after three bits.
    pub fn new() -> Appended {
        Appended {}
    }
}

impl Row for Appended {
    fn work(&self) -> Work {
        Work {
            name: "a number of 32 bits appended",
            pieces: 1000,
            octets: 0,
        }
    }

    fn round(&mut self, alloc: Global) -> Result<u64, AllocError> {
        let mut buffer = BitBuffer::new(alloc);
        buffer.push_bits(5, 3)?;
        for i in 0..1000u32 {
            if buffer.len() < 1 << 32 {
                buffer.push_bits(u128::from(i), 32)?;
            }
        }
        Ok(buffer.len() as u64)
    }
}
