//! Contents of identifiers (X.690 8.19), read and written.

use crate::row::{Row, Work};
use asn1_values::{ObjectIdentifier, Oid};
use std::alloc::{AllocError, Global};

/// How long an identifier is.
#[derive(Clone, Copy)]
pub enum Size {
    /// Seven arcs, of which the contents have nine octets.
    Seven,
    /// 32 arcs, of which the contents have 73 octets.
    Many,
}

/// How the contents are written.
#[derive(Clone, Copy)]
pub enum Way {
    /// The crate returns one octet at a time, and each is pushed.
    Octets,
    /// The crate appends them all by one call.
    Call,
}

/// Returns the arcs, of which the last is below 128.
fn arcs_of(alloc: Global, size: Size) -> Result<Vec<u32>, AllocError> {
    match size {
        Size::Seven => [1, 2, 840, 113549, 1, 1, 11].to_vec(alloc),
        Size::Many => {
            let mut arcs = [1, 2].to_vec(alloc)?;
            for i in 0..30usize {
                arcs.push([1, 840, 113549, 4294967295, 11][i % 5])?;
            }
            Ok(arcs)
        }
    }
}

/// Contents read into arcs.
#[derive(Drop)]
pub struct Read {
    size: Size,
    octets: Vec<u8>,
}

impl Read {
    /// Of one identifier.
    pub fn new(alloc: Global, size: Size) -> Result<Read, AllocError> {
        let arcs = arcs_of(alloc, size)?;
        let mut octets = Vec::new(alloc);
        append(arcs.as_slice(), &mut octets)?;
        Ok(Read { size, octets })
    }
}

/// Returns the last arc and the number of arcs.
fn sum_of(arcs: &[u32]) -> u64 {
    arcs.last()
        .map_or(0, |arc| u64::from(*arc))
        .wrapping_add(arcs.len() as u64)
}

fn sum_read(alloc: Global, octets: &[u8]) -> u64 {
    match ObjectIdentifier::from_contents(alloc, &octets) {
        Ok(oid) => sum_of(oid.as_ref()),
        Err(_) => 0,
    }
}

impl Row for Read {
    fn work(&self) -> Work {
        Work {
            name: match self.size {
                Size::Seven => "an identifier read from nine octets of contents",
                Size::Many => "an identifier of 32 arcs read from 73 octets of contents",
            },
            pieces: 1000,
            octets: match self.size {
                Size::Seven => 9000,
                Size::Many => 73_000,
            },
        }
    }

    fn round(&mut self, alloc: Global) -> Result<u64, AllocError> {
        let mut sum = 0u64;
        for i in 0..1000u32 {
            if let Some(last) = self.octets.last_mut() {
                *last = (i % 128) as u8;
            }
            let octets = self.octets.as_slice();
            sum = sum.wrapping_add(sum_read(alloc, octets));
        }
        Ok(sum)
    }
}

/// Contents written after nothing.
#[derive(Drop)]
pub struct Written {
    size: Size,
    way: Way,
    arcs: Vec<u32>,
    octets: Vec<u8>,
}

impl Written {
    /// Of one identifier.
    pub fn new(alloc: Global, size: Size, way: Way) -> Result<Written, AllocError> {
        Ok(Written {
            size,
            way,
            arcs: arcs_of(alloc, size)?,
            octets: Vec::new(alloc),
        })
    }
}

// Each way is a function of its own, so that the compiler does not merge them.
#[inline(never)]
fn write(arcs: &[u32], octets: &mut Vec<u8>) -> Result<(), AllocError> {
    if let Some(oid) = Oid::new(arcs) {
        if let Some(contents) = oid.contents() {
            for octet in contents {
                octets.push(octet)?;
            }
        }
    }
    Ok(())
}

#[inline(never)]
fn append(arcs: &[u32], octets: &mut Vec<u8>) -> Result<(), AllocError> {
    if let Some(oid) = Oid::new(arcs) {
        if let Some(contents) = oid.contents() {
            contents.append_to(octets)?;
        }
    }
    Ok(())
}

impl Row for Written {
    fn work(&self) -> Work {
        Work {
            name: match (self.size, self.way) {
                (Size::Seven, Way::Octets) => "nine octets of contents written",
                (Size::Many, Way::Octets) => "73 octets of contents written",
                (_, Way::Call) => "    the same appended by one call",
            },
            pieces: 1000,
            octets: match self.size {
                Size::Seven => 9000,
                Size::Many => 73_000,
            },
        }
    }

    fn round(&mut self, _alloc: Global) -> Result<u64, AllocError> {
        let mut sum = 0u64;
        for i in 0..1000u32 {
            if let Some(last) = self.arcs.last_mut() {
                *last = i % 128;
            }
            self.octets.clear();
            match self.way {
                Way::Octets => write(self.arcs.as_slice(), &mut self.octets)?,
                Way::Call => append(self.arcs.as_slice(), &mut self.octets)?,
            }
            let last = self
                .octets
                .as_slice()
                .last()
                .map_or(0, |octet| u64::from(*octet));
            sum = sum
                .wrapping_add(last)
                .wrapping_add(self.octets.len() as u64);
        }
        Ok(sum)
    }
}
