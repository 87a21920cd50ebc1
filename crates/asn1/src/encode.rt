//! From the parts of a value to octets.

use crate::codec::{Codec, Source, Target};
use crate::sets::holder_of;
use asn1_canonical::{Context, canonical_order};
use asn1_json::Draft;
use asn1_resolve::Schema;
use asn1_schema::{MisfitKind, Part};
use asn1_schema_values::end_of;
use asn1_x691_encode::Misfit;
use asn1_x691_writers::Rejection;
use std::alloc::{AllocError, AllocFailed, Global};
use std::cell::Cell;

/// How many octets there is room for before their number is known.
const FIRST_ROOM: usize = 256;

/// The most octets of a message, 2^61 - 1, and the most parts of a value.
const MOST: usize = 0x1FFF_FFFF_FFFF_FFFF;

/// Why parts have no encoding.
#[derive(Debug, Drop)]
pub enum EncodeError {
    /// A part does not fit its type.
    Misfit(Misfit),
    /// Out of memory.
    Memory,
}

impl From<AllocError> for EncodeError {
    fn from(_error: AllocError) -> EncodeError {
        EncodeError::Memory
    }
}

impl<T: Drop> From<AllocFailed<T>> for EncodeError {
    fn from(_error: AllocFailed<T>) -> EncodeError {
        EncodeError::Memory
    }
}

/// Removes the additions among which an absent part is, if all of them are absent.
fn leave_out_additions(draft: &mut Draft, part: usize) {
    let parts = draft.parts();
    let Some(additions) = holder_of(parts, part) else {
        return;
    };
    if let Some(sequence) = holder_of(parts, additions) {
        draft.remove_absent_additions(sequence, additions);
    }
}

/// What encodes values of a type.
#[derive(Clone, Copy)]
pub struct Encoder<'s> {
    /// The allocator.
    pub alloc: Global,
    /// The types.
    pub schema: &'s Schema,
    /// What encodes values.
    pub codec: &'s Codec,
    /// The type.
    pub target: Target,
}

impl<'s> Encoder<'s> {
    /// Encodes the value of a draft. Components that have their default value are left out (X.690
    /// 11.5, X.691 19.5), and the items of each SET OF are put in order (X.690 11.6, X.691 22.1).
    ///
    /// # Errors
    ///
    /// Returns the first part that does not fit its type, or `Memory`.
    pub fn encode(&self, draft: &mut Draft) -> Result<Vec<u8>, EncodeError> {
        let most = draft.parts().len();
        let mut last = EncodeError::Memory;
        for _ in 0..=most {
            match self.octets_of(draft.parts(), draft.octets()) {
                Ok(octets) => return Ok(octets),
                Err(EncodeError::Memory) => return Err(EncodeError::Memory),
                Err(EncodeError::Misfit(misfit)) => {
                    self.mend(draft, misfit)?;
                    last = EncodeError::Misfit(misfit);
                }
            }
        }
        Err(last)
    }

    /// Encodes the value that the first parts are.
    ///
    /// # Errors
    ///
    /// Returns the first part that does not fit its type, or `Memory`.
    fn octets_of(&self, parts: &[Part], source: &[u8]) -> Result<Vec<u8>, EncodeError> {
        if source.len() > MOST || parts.len() > MOST {
            return Err(EncodeError::Memory);
        }
        let mut lengths = Vec::new(self.alloc);
        for _ in parts {
            lengths.push(Cell::new(0))?;
        }
        let source = Source {
            parts: &*parts,
            octets: &*source,
            lengths: lengths.as_slice(),
        };
        let mut octets = Vec::new(self.alloc);
        let measured = self.codec.measure(self.schema, self.target, source);
        let mut room = measured.unwrap_or(FIRST_ROOM);
        for _ in 0..usize::BITS {
            if room > MOST {
                break;
            }
            octets.resize(room, 0)?;
            match self
                .codec
                .encode(self.schema, self.target, source, octets.as_mut_slice())
            {
                Ok(count) if count <= room => {
                    octets.truncate(count);
                    return Ok(octets);
                }
                Ok(count) => room = count,
                Err(misfit) if misfit.reason == Rejection::NoRoom => {
                    room = room.saturating_mul(2);
                }
                Err(misfit) => return Err(EncodeError::Misfit(misfit)),
            }
        }
        Err(EncodeError::Memory)
    }

    /// Changes the parts so that a misfit is gone, if it is a default value that is present, or items
    /// of a SET OF that are not in order.
    ///
    /// # Errors
    ///
    /// Returns the misfit if it is another one.
    fn mend(&self, draft: &mut Draft, misfit: Misfit) -> Result<(), EncodeError> {
        match misfit.reason {
            Rejection::Misfit(MisfitKind::DefaultValue) => {
                let end = end_of(draft.parts(), misfit.part);
                draft.set_absent(misfit.part, end.unwrap_or(misfit.part));
                leave_out_additions(draft, misfit.part);
                Ok(())
            }
            Rejection::Misfit(MisfitKind::NotAscending) => self.order(draft, misfit),
            _ => Err(EncodeError::Misfit(misfit)),
        }
    }

    /// Puts the items of each SET OF in order, of which one is not.
    ///
    /// # Errors
    ///
    /// Returns the misfit if that changes nothing, or `Memory`.
    fn order(&self, draft: &mut Draft, misfit: Misfit) -> Result<(), EncodeError> {
        let mut parts = Vec::from_slice(self.alloc, draft.parts())?;
        let context = Context {
            tables: self.schema.tables(),
            tags: self.schema.tag_tables(),
            rules: self.codec.rules(),
            source: draft.octets(),
        };
        let Target { node, depth, .. } = self.target;
        let order = canonical_order(self.alloc, &context, depth, node, parts.as_mut_slice())?;
        if order
            .as_slice()
            .iter()
            .enumerate()
            .all(|(index, from)| index == *from)
        {
            return Err(EncodeError::Misfit(misfit));
        }
        draft.reorder(self.alloc, order.as_slice())?;
        Ok(())
    }
}
