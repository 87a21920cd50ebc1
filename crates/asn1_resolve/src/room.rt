//! The room that the tables of a text take.

use crate::alphabet::WHOLE_ALPHABETS;
use crate::builder::{Builder, DefaultText, Enumeral, NO_NAME, NamedType};
use crate::error::SchemaError;
use crate::objects::{ObjectRow, OpenRow};
use crate::open_types::PathRow;
use asn1_definitions::{Instance, LISTS, NO_INSTANCE, Place, find_instances, index_definitions};
use asn1_notation::{Entry, Item, NO_ENTRY, Problem, Sink, error_at, parse, wide};
use asn1_schema::Range;
use std::alloc::Global;

pub(crate) const NO_RANGE: Range = Range { first: 0, last: 0 };

pub(crate) const NO_ENUMERAL: Enumeral = Enumeral {
    name: NO_NAME,
    number: 0,
};

pub(crate) const NO_PLACE: Place = Place {
    module: 0,
    index: 0,
    instance: 0,
};

pub(crate) const NO_DEFAULT: DefaultText = DefaultText {
    value: NO_NAME,
    node: 0,
    at: NO_PLACE,
    of: NO_PLACE,
};

pub(crate) const NO_OPEN: OpenRow = OpenRow {
    node: 0,
    first_path: 0,
    paths: 0,
    from: 0,
    count: 0,
};

pub(crate) const NO_PATH: PathRow = PathRow {
    at: NO_PLACE,
    levels: 0,
    of: NO_PLACE,
    node: 0,
    is_unique: false,
};

pub(crate) const NO_OBJECT: ObjectRow = ObjectRow {
    key: NO_PLACE,
    node: 0,
};

/// How often the room for instances may double.
const ROUNDS: usize = 18;

pub(crate) const NO_TYPE: NamedType = NamedType {
    module: NO_NAME,
    name: NO_NAME,
    node: 0,
};

/// How many rows each table has.
#[derive(Clone, Copy)]
pub(crate) struct Counts {
    pub(crate) nodes: usize,
    pub(crate) members: usize,
    pub(crate) ranges: usize,
    pub(crate) enumerals: usize,
    pub(crate) defaults: usize,
    pub(crate) types: usize,
    pub(crate) drafts: usize,
    pub(crate) tags: usize,
    pub(crate) names: usize,
    pub(crate) tag_rows: usize,
    pub(crate) first_rows: usize,
    pub(crate) opens: usize,
    pub(crate) paths: usize,
    pub(crate) objects: usize,
}

/// How many components, tags or names one type has at most, and how many ranges of characters all types
/// have, unless they have more.
const FEW: usize = 128;

impl Counts {
    /// Returns a guess of how many rows the tables of a text have, by its entries.
    pub(crate) fn guess(tape: &[Entry], instances: &[Instance]) -> Counts {
        let mut counts = Counts {
            nodes: 0,
            members: 0,
            ranges: WHOLE_ALPHABETS.len() + FEW,
            enumerals: 0,
            defaults: 0,
            types: 0,
            drafts: FEW,
            tags: FEW,
            names: FEW,
            tag_rows: 0,
            first_rows: 0,
            opens: 0,
            paths: 0,
            objects: 0,
        };
        counts.add_all(tape);
        for instance in instances {
            let from = instance.definition.index;
            if let Some(definition) = tape.get(from)
                && let Some(entries) = tape.get(from..wide(definition.end))
                && definition.item.is_definition()
            {
                counts.add_all(entries);
            }
        }
        // A field of a class that is an ENUMERATED has its values once more for each use.
        let again = counts.enumerals.saturating_add(counts.opens);
        counts.enumerals = again.saturating_mul(2);
        counts.tag_rows = counts.nodes.saturating_mul(2);
        counts.first_rows = counts.members.saturating_mul(2);
        counts.objects = counts
            .objects
            .saturating_add(counts.opens.saturating_mul(4));
        counts
    }

    /// Adds the rows that entries may have.
    fn add_all(&mut self, entries: &[Entry]) {
        for entry in entries {
            match entry.item {
                Item::Component => self.members = self.members.saturating_add(1),
                Item::From => self.ranges = self.ranges.saturating_add(4),
                Item::Name => self.enumerals = self.enumerals.saturating_add(1),
                Item::Default => self.defaults = self.defaults.saturating_add(1),
                Item::TypeDefinition => self.types = self.types.saturating_add(1),
                Item::Table | Item::Containing => self.opens = self.opens.saturating_add(1),
                Item::At => self.paths = self.paths.saturating_add(1),
                // An object of a set, which several open types may have.
                Item::Bar => self.objects = self.objects.saturating_add(4),
                item if item.is_type() => self.nodes = self.nodes.saturating_add(1),
                _ => {}
            }
        }
    }

    /// Returns how many rows tables have.
    pub(crate) fn of(tables: &Builder<'_>) -> Counts {
        Counts {
            nodes: tables.nodes.most(),
            members: tables.members.most(),
            ranges: tables.ranges.most(),
            enumerals: tables.enumerals.most(),
            defaults: tables.defaults.most(),
            types: tables.types.most(),
            drafts: tables.drafts.most(),
            tags: tables.tags.most(),
            names: tables.names.most(),
            tag_rows: tables.tag_rows.most(),
            first_rows: tables.first_rows.most(),
            opens: tables.opens.most(),
            paths: tables.paths.most(),
            objects: tables.objects.most(),
        }
    }

    /// Returns whether these numbers of rows fit in room for others.
    pub(crate) fn fit(self, room: Counts) -> bool {
        self.nodes <= room.nodes
            && self.members <= room.members
            && self.ranges <= room.ranges
            && self.enumerals <= room.enumerals
            && self.defaults <= room.defaults
            && self.types <= room.types
            && self.drafts <= room.drafts
            && self.tags <= room.tags
            && self.names <= room.names
            && self.tag_rows <= room.tag_rows
            && self.first_rows <= room.first_rows
            && self.opens <= room.opens
            && self.paths <= room.paths
            && self.objects <= room.objects
    }
}

/// How many octets of a text there are at least for an entry in most modules.
pub(crate) const OCTETS_OF_ENTRY: usize = 4;

/// Returns the entries of a text. The text is read once, and a second time if it has more entries than the
/// first room holds.
pub(crate) fn tape_of(alloc: Global, text: &[u8]) -> Result<Vec<Entry>, SchemaError> {
    let mut tape: Vec<Entry> = Vec::new(alloc);
    tape.resize(text.len() / OCTETS_OF_ENTRY, NO_ENTRY)?;
    let count = parse(text, tape.as_mut_slice())?;
    if count > tape.len() {
        tape.resize(count, NO_ENTRY)?;
        parse(text, tape.as_mut_slice())?;
    }
    tape.truncate(count);
    Ok(tape)
}

/// Puts the definitions of a text in lists, and returns the instances of its parameterized types.
pub(crate) fn instances_of(
    alloc: Global,
    text: &[u8],
    tape: &mut [Entry],
    lists: &mut [u32; LISTS],
) -> Result<Vec<Instance>, SchemaError> {
    index_definitions(text, tape, lists)?;
    let mut instances: Vec<Instance> = Vec::new(alloc);
    let mut room = 1usize;
    for entry in tape.iter() {
        if entry.item == Item::Arguments {
            room = room.saturating_add(1);
        }
    }
    if room == 1 {
        // Without arguments there are no instances but the text itself.
        instances.push(NO_INSTANCE)?;
        return Ok(instances);
    }
    // The room doubles until it holds all.
    for _ in 0..ROUNDS {
        instances.resize(room, NO_INSTANCE)?;
        let mut found = Sink::new(instances.as_mut_slice());
        find_instances(text, tape, lists, &mut found)?;
        let count = found.count();
        if count <= room {
            instances.truncate(count);
            return Ok(instances);
        }
        room = count.saturating_mul(2);
    }
    Err(error_at(Problem::TooMuchWork, 0).into())
}
