//! The parts of a value as they are made from JSON.

use asn1_schema::{Part, Span};
use std::alloc::{AllocError, Global};

/// The value of an open type, or of a string with CONTAINING, whose contents the JSON has as a value. The
/// caller must encode them.
#[derive(Clone, Copy, Debug, PartialEq, Eq)]
pub struct Pending {
    /// The index of its part.
    pub part: usize,
    /// The node of the type of its contents.
    pub node: usize,
    /// The index of the item with the value of its contents.
    pub item: usize,
}

/// The parts of a value, the octets in which they have their bits, and the item of the JSON from which each
/// part is made.
#[derive(Drop)]
pub struct Draft {
    parts: Vec<Part>,
    octets: Vec<u8>,
    items: Vec<usize>,
    pending: Vec<Pending>,
}

impl Draft {
    /// Makes a draft without parts.
    pub(crate) fn new(alloc: Global) -> Draft {
        Draft {
            parts: Vec::new(alloc),
            octets: Vec::new(alloc),
            items: Vec::new(alloc),
            pending: Vec::new(alloc),
        }
    }

    /// Returns the values whose contents the caller must encode. They have no octets until
    /// [`Self::set_octets`] sets them.
    pub fn pending(&self) -> &[Pending] {
        self.pending.as_slice()
    }

    /// Appends a value, also a BIT STRING, whose contents are the value of an item.
    pub(crate) fn push_pending(
        &mut self,
        node: usize,
        item: usize,
        is_bits: bool,
    ) -> Result<(), AllocError> {
        let part = self.parts.len();
        self.pending.push(Pending { part, node, item })?;
        let none = Span { at: 0, count: 0 };
        let none = if is_bits {
            Part::Bits(none)
        } else {
            Part::Octets(none)
        };
        self.push(none, item)
    }

    /// Sets the octets of a part, or the bits of a BIT STRING.
    ///
    /// # Errors
    ///
    /// Returns an error if out of memory. The part is unchanged then.
    pub fn set_octets(&mut self, part: usize, octets: &[u8]) -> Result<(), AllocError> {
        let span = self.add(octets)?;
        if let Some(place) = self.parts.as_mut_slice().get_mut(part) {
            *place = match *place {
                Part::Bits(_) => Part::Bits(span),
                _ => Part::Octets(span),
            };
        }
        Ok(())
    }

    /// Returns the parts.
    pub fn parts(&self) -> &[Part] {
        self.parts.as_slice()
    }

    /// Returns the octets in which the parts have their bits.
    pub fn octets(&self) -> &[u8] {
        self.octets.as_slice()
    }

    /// Returns the index of the item from which a part is made, or 0 if there is no such part.
    pub fn item_of(&self, part: usize) -> usize {
        self.items.as_slice().get(part).copied().unwrap_or(0)
    }

    /// Returns how many parts there are.
    pub(crate) fn count(&self) -> usize {
        self.parts.len()
    }

    /// Appends a part of an item.
    pub(crate) fn push(&mut self, part: Part, item: usize) -> Result<(), AllocError> {
        self.parts.push(part)?;
        self.items.push(item)?;
        Ok(())
    }

    /// Appends octets. Returns their bits.
    pub(crate) fn add(&mut self, octets: &[u8]) -> Result<Span, AllocError> {
        let at = self.octets.len().saturating_mul(8);
        self.octets.extend_from_slice(octets)?;
        Ok(Span {
            at,
            count: octets.len().saturating_mul(8),
        })
    }

    /// Replaces the parts of a value, those from one index up to another, by one absent part.
    pub fn set_absent(&mut self, from: usize, to: usize) {
        let end = to.min(self.parts.len());
        if from >= end {
            return;
        }
        if let Some(part) = self.parts.as_mut_slice().get_mut(from) {
            *part = Part::Absent;
        }
        self.remove(from.saturating_add(1), end);
    }

    /// Removes the additions of a SEQUENCE or SET if all of them are absent. Then it has no additions.
    ///
    /// `additions` is the index of the part that counts them, and `sequence` that of the SEQUENCE or SET.
    pub fn remove_absent_additions(&mut self, sequence: usize, additions: usize) {
        let Some(Part::Additions(count)) = self.parts.as_slice().get(additions).copied() else {
            return;
        };
        let from = additions.saturating_add(1);
        let end = from.saturating_add(count);
        let all = self.parts.as_slice().get(from..end).unwrap_or(&[]);
        if all.len() != count || all.iter().any(|part| *part != Part::Absent) {
            return;
        }
        if let Some(Part::Sequence { is_extended, .. }) = self
            .parts
            .as_mut_slice()
            .get_mut(sequence)
        {
            *is_extended = false;
        }
        self.remove(additions, end);
    }

    /// Removes the parts from one index to another.
    fn remove(&mut self, from: usize, end: usize) {
        let removed = end.saturating_sub(from);
        let count = self.parts.len();
        for index in end..count {
            let to = index.saturating_sub(removed);
            let part = self.parts.as_slice().get(index).copied();
            let item = self.items.as_slice().get(index).copied();
            if let Some(part) = part
                && let Some(place) = self.parts.as_mut_slice().get_mut(to)
            {
                *place = part;
            }
            if let Some(item) = item
                && let Some(place) = self.items.as_mut_slice().get_mut(to)
            {
                *place = item;
            }
        }
        let left = count.saturating_sub(removed);
        self.parts.truncate(left);
        self.items.truncate(left);
    }

    /// Puts the parts in another order: those of the indexes, as `canonical_order` of `asn1_canonical` returns
    /// them.
    ///
    /// # Errors
    ///
    /// Returns an error if out of memory. The parts are unchanged then.
    pub fn reorder(&mut self, alloc: Global, order: &[usize]) -> Result<(), AllocError> {
        let mut parts = Vec::new(alloc);
        let mut items = Vec::new(alloc);
        for index in order {
            if let Some(part) = self.parts.as_slice().get(*index) {
                parts.push(*part)?;
            }
            if let Some(item) = self.items.as_slice().get(*index) {
                items.push(*item)?;
            }
        }
        self.parts = parts;
        self.items = items;
        Ok(())
    }
}
