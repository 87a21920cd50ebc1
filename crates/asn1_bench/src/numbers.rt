//! Whole numbers by their octets.

use crate::row::{Row, Work};
use asn1_values::Integer;
use std::alloc::{AllocError, Global};

/// Integers of eight octets, read and written again.
#[derive(Drop)]
pub struct Octets {}

impl Octets {
    /// Of numbers around 2^62.
    pub fn new() -> Octets {
        Octets {}
    }
}

impl Row for Octets {
    fn work(&self) -> Work {
        Work {
            name: "an integer of eight octets read and written again",
            pieces: 1000,
            octets: 0,
        }
    }

    fn round(&mut self, alloc: Global) -> Result<u64, AllocError> {
        let mut sum = 0u64;
        for i in 0..1000u64 {
            let octets = ((1u64 << 62) + i).to_be_bytes();
            if let Ok(number) = Integer::from_signed_octets(alloc, &octets) {
                let written = number.signed_octets();
                let last = written.as_ref().last().map_or(0, |octet| u64::from(*octet));
                sum = sum.wrapping_add(last);
            }
        }
        Ok(sum)
    }
}
