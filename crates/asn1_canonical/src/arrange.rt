//! Parts in another order.

ghost use Rattle.std.specs.Prelude.{◌≡◌, IfOk, OnErr, map};
ghost use Rattle.std.specs.List.Sorted.{IsPermutation};
ghost use Rattle.asn1_canonical.specs.Arranged.{IsArranged, indexed, part_of, index_of};

use asn1_schema::Part;
use std::alloc::{AllocError, Global};

/// A part and its index.
#[derive(Clone, Copy, Debug)]
pub(crate) struct Placed {
    /// The index that it had.
    pub(crate) index: usize,
    /// The part.
    pub(crate) part: Part,
}

/// Puts parts in an order: the indexes of the first, of the second, and so on. Returns the indexes in the order
/// in which the parts are then.
///
/// # Errors
///
/// Returns an error if out of memory. The parts are unchanged then.
pub(crate) fn arrange(
    alloc: Global,
    parts: &mut [Part],
    order: &[usize],
) -> Result<Vec<usize>, AllocError>
    ensures arranged { IfOk result (λ indexes. IsArranged parts.old parts.new indexes.items) }
    ensures unchanged { OnErr result (parts.new ≡ parts.old) }
{
    let places = places_of(alloc, order)?;
    let mut placed = with_indexes(alloc, parts)?;
    let at = places.as_slice();
    placed.sort_by_key(|it| at.get(it.index).copied().unwrap_or(0))?;
    let indexes = indexes_of(alloc, placed.as_slice())?;
    let arranged = parts_of(alloc, placed.as_slice())?;
    parts.copy_from_slice(arranged.as_slice());
    Ok(indexes)
}

/// Returns where each index is in an order.
fn places_of(alloc: Global, order: &[usize]) -> Result<Vec<usize>, AllocError> {
    let mut places: Vec<usize> = Vec::new(alloc);
    places.resize(order.len(), 0)?;
    for (place, index) in order.iter().enumerate() {
        if let Some(it) = places.as_mut_slice().get_mut(*index) {
            *it = place;
        }
    }
    Ok(places)
}

/// Returns the parts with their indexes.
fn with_indexes(alloc: Global, parts: &[Part]) -> Result<Vec<Placed>, AllocError>
    ensures { IfOk result (λ placed. placed.items ≡ indexed 0 parts.now) }
{
    let mut placed = Vec::new(alloc);
    for (index, part) in parts.iter().enumerate() {
        placed.push(Placed { index, part: *part })?;
    }
    Ok(placed)
}

/// Returns the indexes alone.
fn indexes_of(alloc: Global, placed: &[Placed]) -> Result<Vec<usize>, AllocError>
    ensures { IfOk result (λ indexes. indexes.items ≡ map index_of placed.now) }
{
    let mut indexes = Vec::new(alloc);
    for it in placed {
        indexes.push(it.index)?;
    }
    Ok(indexes)
}

/// Returns the parts alone.
fn parts_of(alloc: Global, placed: &[Placed]) -> Result<Vec<Part>, AllocError>
    ensures { IfOk result (λ parts. parts.items ≡ map part_of placed.now) }
{
    let mut parts = Vec::new(alloc);
    for it in placed {
        parts.push(it.part)?;
    }
    Ok(parts)
}
