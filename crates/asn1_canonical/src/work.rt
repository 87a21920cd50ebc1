//! Parts that are put in order.

use crate::context::Context;
use crate::item::encoding_of;
use crate::sets::{Set, sets_of};
use asn1_schema::Part;
use asn1_schema_values::end_of;
use std::alloc::{AllocError, Global};
use std::cell::Cell;

/// An item of a SET OF. Items are ordered by their octets, and those without an encoding are after the
/// others, so that an encoder returns their misfit.
#[derive(PartialEq, Eq, PartialOrd, Ord, Drop)]
struct Item {
    /// Whether it has no encoding.
    is_invalid: bool,
    /// Its encoding.
    octets: Vec<u8>,
    /// The index of its first part.
    from: usize,
    /// The index of the part after it.
    to: usize,
}

/// The parts as they are now, the index that each had, and room for the lengths of elements.
#[derive(Drop)]
struct Work {
    parts: Vec<Part>,
    order: Vec<usize>,
    lengths: Vec<Cell<u8>>,
}

/// Returns the indexes of the parts of a value of the type at a node, in an order in which the items of each
/// SET OF are ascending.
///
/// # Errors
///
/// Returns an error if out of memory.
pub(crate) fn order_of<'x>(
    alloc: Global,
    context: &'x Context<'x>,
    depth: usize,
    node: usize,
    parts: &'x [Part],
) -> Result<Vec<usize>, AllocError> {
    let sets = sets_of(alloc, context, node, parts)?;
    let mut work = Work {
        parts: Vec::from_slice(alloc, parts)?,
        order: Vec::new(alloc),
        lengths: Vec::new(alloc),
    };
    for index in 0..parts.len() {
        work.order.push(index)?;
        work.lengths.push(Cell::new(0))?;
    }
    // Those inside others first.
    for set in sets.as_slice().iter().rev() {
        work.sort(alloc, context, depth, *set)?;
    }
    let Work { order, .. } = work;
    Ok(order)
}

impl Work {
    /// Returns the items of a SET OF. `None` if the parts end before them.
    fn items<'x>(
        &'x self,
        alloc: Global,
        context: &'x Context<'x>,
        depth: usize,
        set: Set,
    ) -> Result<Option<Vec<Item>>, AllocError> {
        let mut items = Vec::new(alloc);
        let Some(Part::Count(count)) = self.parts.as_slice().get(set.head).copied() else {
            return Ok(None);
        };
        let mut from = set.head.saturating_add(1);
        for _ in 0..count {
            let Some(to) = end_of(self.parts.as_slice(), from) else {
                return Ok(None);
            };
            let own = self.parts.as_slice().get(from..to).unwrap_or(&[]);
            let lengths = self.lengths.as_slice().get(..own.len()).unwrap_or(&[]);
            let encoding = encoding_of(alloc, context, depth, set.item, own, lengths)?;
            let is_invalid = encoding.is_none();
            let octets = match encoding {
                Some(octets) => octets,
                None => Vec::new(alloc),
            };
            items.push(Item {
                is_invalid,
                octets,
                from,
                to,
            })?;
            from = to;
        }
        Ok(Some(items))
    }

    /// Puts the items of a SET OF in order.
    fn sort(
        &mut self,
        alloc: Global,
        context: &Context<'_>,
        depth: usize,
        set: Set,
    ) -> Result<(), AllocError> {
        let Some(mut items) = self.items(alloc, context, depth, set)? else {
            return Ok(());
        };
        items.sort()?;
        let mut parts = Vec::new(alloc);
        let mut order = Vec::new(alloc);
        for item in items.as_slice() {
            let (from, to) = (item.from, item.to);
            parts.extend_from_slice(self.parts.as_slice().get(from..to).unwrap_or(&[]))?;
            order.extend_from_slice(self.order.as_slice().get(from..to).unwrap_or(&[]))?;
        }
        let from = set.head.saturating_add(1);
        for (offset, part) in parts.as_slice().iter().enumerate() {
            if let Some(place) = self
                .parts
                .as_mut_slice()
                .get_mut(from.saturating_add(offset))
            {
                *place = *part;
            }
        }
        for (offset, index) in order.as_slice().iter().enumerate() {
            if let Some(place) = self
                .order
                .as_mut_slice()
                .get_mut(from.saturating_add(offset))
            {
                *place = *index;
            }
        }
        Ok(())
    }
}
