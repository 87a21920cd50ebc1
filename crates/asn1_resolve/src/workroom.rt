//! What is needed to make the tables of a schema, besides the tables.

use crate::builder::{Draft, Key, NO_DRAFT, NO_KEY};
use crate::objects::{ObjectRow, OpenRow};
use crate::open_types::PathRow;
use crate::room::{Counts, NO_OBJECT, NO_OPEN, NO_PATH};
use crate::tag_tables::NO_TAG;
use asn1_x690::Tag;
use std::alloc::{AllocError, Global};

/// Rows from which tables are made.
#[derive(Drop)]
pub(crate) struct Workroom {
    pub(crate) drafts: Vec<Draft>,
    pub(crate) tags: Vec<Key>,
    pub(crate) names: Vec<Key>,
    pub(crate) opens: Vec<OpenRow>,
    pub(crate) paths: Vec<PathRow>,
    pub(crate) objects: Vec<ObjectRow>,
    pub(crate) first_rows: Vec<Tag>,
    pub(crate) sources: Vec<usize>,
}

impl Workroom {
    /// Makes rows, of each kind as many as `counts` says.
    ///
    /// # Errors
    ///
    /// Returns an error if out of memory.
    pub(crate) fn new(alloc: Global, counts: Counts) -> Result<Workroom, AllocError> {
        let mut room = Workroom {
            drafts: Vec::new(alloc),
            tags: Vec::new(alloc),
            names: Vec::new(alloc),
            opens: Vec::new(alloc),
            paths: Vec::new(alloc),
            objects: Vec::new(alloc),
            first_rows: Vec::new(alloc),
            sources: Vec::new(alloc),
        };
        room.drafts.resize(counts.drafts, NO_DRAFT)?;
        room.tags.resize(counts.tags, NO_KEY)?;
        room.names.resize(counts.names, NO_KEY)?;
        room.opens.resize(counts.opens, NO_OPEN)?;
        room.paths.resize(counts.paths, NO_PATH)?;
        room.objects.resize(counts.objects, NO_OBJECT)?;
        room.first_rows.resize(counts.first_rows, NO_TAG)?;
        room.sources.resize(counts.nodes, 0)?;
        Ok(room)
    }
}
