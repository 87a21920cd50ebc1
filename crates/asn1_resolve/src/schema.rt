//! The tables of a text, on the heap.

ghost use Rattle.std.specs.Prelude.{◌≡◌};

use crate::builder;
use crate::builder::{Builder, DefaultText, Enumeral, NO_MEMBER, NO_NAME, NO_ROWS, NamedType};
use crate::built_in::{refer_to_associated_types, with_associated_types};
use crate::error::SchemaError;
use crate::modules::resolve_instances;
use crate::open::{OpenObject, OpenPath, OpenType};
use crate::room::{Counts, NO_DEFAULT, NO_ENUMERAL, NO_RANGE, NO_TYPE, instances_of, tape_of};
use crate::tag_tables::{NO_FIRST_TAGS, NO_TAG, NO_TYPE_TAGS};
use crate::values::Values;
use crate::workroom::Workroom;
use asn1_definitions::{Instance, LISTS, Scope};
use asn1_notation::{Entry, NotationError, parse, part_of};
use asn1_schema::{Member, Node, Part, Range, Rows, Tables};
use asn1_schema_values::{NameSpan, Names};
use asn1_x690::{FirstTags, Tag, TagTables, TypeTags};
use std::alloc::{AllocError, Global};

/// The tables of the types of a text's modules.
#[derive(Drop)]
pub struct Schema {
    pub(crate) text: String,
    pub(crate) nodes: Vec<Node>,
    pub(crate) node_names: Vec<NameSpan>,
    pub(crate) node_enumerals: Vec<Rows>,
    pub(crate) members: Vec<Member>,
    pub(crate) member_names: Vec<NameSpan>,
    pub(crate) ranges: Vec<Range>,
    pub(crate) enumerals: Vec<Enumeral>,
    pub(crate) defaults: Vec<DefaultText>,
    pub(crate) types: Vec<NamedType>,
    pub(crate) type_tags: Vec<TypeTags>,
    pub(crate) member_tags: Vec<FirstTags>,
    pub(crate) tags: Vec<Tag>,
    pub(crate) numbers: Vec<i128>,
    pub(crate) default_parts: Vec<Option<Rows>>,
    pub(crate) value_parts: Vec<Part>,
    pub(crate) value_octets: Vec<u8>,
    pub(crate) opens: Vec<OpenType>,
    pub(crate) open_paths: Vec<OpenPath>,
    pub(crate) open_names: Vec<NameSpan>,
    pub(crate) open_objects: Vec<OpenObject>,
}

impl Schema {
    /// Makes a schema with room for its tables.
    fn with_room(alloc: Global, text: &str, counts: Counts) -> Result<Schema, SchemaError> {
        let mut schema = Schema {
            text: String::from_str(alloc, text)?,
            nodes: Vec::new(alloc),
            node_names: Vec::new(alloc),
            node_enumerals: Vec::new(alloc),
            members: Vec::new(alloc),
            member_names: Vec::new(alloc),
            ranges: Vec::new(alloc),
            enumerals: Vec::new(alloc),
            defaults: Vec::new(alloc),
            types: Vec::new(alloc),
            type_tags: Vec::new(alloc),
            member_tags: Vec::new(alloc),
            tags: Vec::new(alloc),
            numbers: Vec::new(alloc),
            default_parts: Vec::new(alloc),
            value_parts: Vec::new(alloc),
            value_octets: Vec::new(alloc),
            opens: Vec::new(alloc),
            open_paths: Vec::new(alloc),
            open_names: Vec::new(alloc),
            open_objects: Vec::new(alloc),
        };
        schema.nodes.resize(counts.nodes, Node::Null)?;
        schema.node_names.resize(counts.nodes, NO_NAME)?;
        schema.node_enumerals.resize(counts.nodes, NO_ROWS)?;
        schema.members.resize(counts.members, NO_MEMBER)?;
        schema.member_names.resize(counts.members, NO_NAME)?;
        schema.ranges.resize(counts.ranges, NO_RANGE)?;
        schema.enumerals.resize(counts.enumerals, NO_ENUMERAL)?;
        schema.defaults.resize(counts.defaults, NO_DEFAULT)?;
        schema.types.resize(counts.types, NO_TYPE)?;
        schema.type_tags.resize(counts.nodes, NO_TYPE_TAGS)?;
        schema.member_tags.resize(counts.members, NO_FIRST_TAGS)?;
        schema.tags.resize(counts.tag_rows, NO_TAG)?;
        Ok(schema)
    }

    /// Makes the tables of the types of a text's modules.
    ///
    /// # Errors
    ///
    /// Returns [`SchemaError::Notation`] with the first problem of the text that is found, or
    /// [`SchemaError::Memory`] if out of memory. A problem of the syntax is found before any other.
    ///
    /// # Examples
    ///
    /// ```
    /// use asn1_resolve::Schema;
    ///
    /// let text = "M DEFINITIONS AUTOMATIC TAGS ::= BEGIN Age ::= INTEGER (0..150) END";
    /// let schema = Schema::parse(rt.alloc(), text)?;
    /// assert!(rt; schema.node_named("Age").is_some());
    /// assert!(rt; schema.node_named("Name").is_none());
    /// ```
    pub fn parse(alloc: Global, text: &str) -> Result<Schema, SchemaError> {
        let whole = with_associated_types(alloc, text)?;
        if text.len() < whole.len() {
            // An error of the text must not be one of the definitions after it.
            parse(text.as_bytes(), &mut [])?;
        }
        let mut tape = tape_of(alloc, whole.as_str().as_bytes())?;
        refer_to_associated_types(tape.as_mut_slice(), text.len());
        let mut schema = Schema::of_entries(alloc, whole.as_str(), &mut tape)?;
        schema.leave_types_from(text.len());
        Ok(schema)
    }

    /// Removes the names of types that are defined from an octet of the text on.
    fn leave_types_from(&mut self, end: usize) {
        let types = self.types.as_slice();
        let count = types
            .iter()
            .position(|named| end <= named.name.from)
            .unwrap_or(types.len());
        self.types.truncate(count);
    }

    /// Makes the tables of the modules that the entries of a text are.
    pub(crate) fn of_entries(
        alloc: Global,
        text: &str,
        tape: &mut Vec<Entry>,
    ) -> Result<Schema, SchemaError> {
        let octets = text.as_bytes();
        let mut lists = [0u32; LISTS];
        let mut instances = instances_of(alloc, octets, tape.as_mut_slice(), &mut lists)?;
        let guess = Counts::guess(tape.as_slice(), instances.as_slice());
        let mut schema = Schema::with_room(alloc, text, guess)?;
        let mut room = Workroom::new(alloc, guess)?;
        let tape = tape.as_mut_slice();
        let mut counts = schema.fill(&mut room, octets, tape, &lists, instances.as_mut_slice())?;
        if !counts.fit(guess) {
            schema = Schema::with_room(alloc, text, counts)?;
            room = Workroom::new(alloc, counts)?;
            counts = schema.fill(&mut room, octets, tape, &lists, instances.as_mut_slice())?;
        }
        schema.keep(counts);
        schema.finish_tags(
            room.first_rows
                .as_slice()
                .get(..counts.first_rows)
                .unwrap_or(&[]),
        )?;
        let scope = Scope {
            text: octets,
            tape,
            lists: &lists,
            instances: instances.as_slice(),
        };
        let mut values = Values::new(alloc);
        schema.add_values(alloc, scope, &mut values)?;
        schema.add_opens(scope, &mut values, &room, counts.opens)?;
        let sources = room.sources.as_slice().get(..counts.nodes).unwrap_or(&[]);
        schema.add_copied_opens(sources)?;
        schema.value_parts = values.parts;
        schema.value_octets = values.octets;
        Ok(schema)
    }

    /// Makes the tables in the room that there is, and returns how many rows they have. Where they have
    /// more than the room holds, the first ones are made.
    fn fill(
        &mut self,
        room: &mut Workroom,
        text: &[u8],
        tape: &mut [Entry],
        lists: &[u32; LISTS],
        instances: &mut [Instance],
    ) -> Result<Counts, NotationError> {
        let tables = Builder::new(
            self.nodes.as_mut_slice(),
            self.node_names.as_mut_slice(),
            self.node_enumerals.as_mut_slice(),
            self.members.as_mut_slice(),
            self.member_names.as_mut_slice(),
            self.ranges.as_mut_slice(),
            self.enumerals.as_mut_slice(),
            self.defaults.as_mut_slice(),
            self.types.as_mut_slice(),
            room.drafts.as_mut_slice(),
            room.tags.as_mut_slice(),
            room.names.as_mut_slice(),
        );
        let tables = tables.with_tags(
            self.type_tags.as_mut_slice(),
            self.tags.as_mut_slice(),
            self.member_tags.as_mut_slice(),
            room.first_rows.as_mut_slice(),
            room.sources.as_mut_slice(),
        );
        let mut tables = tables.with_objects(
            room.opens.as_mut_slice(),
            room.paths.as_mut_slice(),
            room.objects.as_mut_slice(),
        );
        resolve_instances(text, tape, lists, instances, &mut tables)?;
        Ok(Counts::of(&tables))
    }

    /// Removes the rows after those that the tables have.
    fn keep(&mut self, counts: Counts) {
        self.nodes.truncate(counts.nodes);
        self.node_names.truncate(counts.nodes);
        self.node_enumerals.truncate(counts.nodes);
        self.members.truncate(counts.members);
        self.member_names.truncate(counts.members);
        self.ranges.truncate(counts.ranges);
        self.enumerals.truncate(counts.enumerals);
        self.defaults.truncate(counts.defaults);
        self.types.truncate(counts.types);
        self.type_tags.truncate(counts.nodes);
        self.member_tags.truncate(counts.members);
        self.tags.truncate(counts.tag_rows);
    }

    /// Appends the first tags to the other tags, and the numbers of values to a table of their own.
    fn finish_tags(&mut self, first_rows: &[Tag]) -> Result<(), AllocError> {
        let from = self.tags.len();
        self.tags.extend_from_slice(first_rows)?;
        for member in self.member_tags.as_mut_slice().iter_mut() {
            let tags = Rows {
                from: member.tags.from.saturating_add(from),
                ..member.tags
            };
            *member = FirstTags { tags, ..*member };
        }
        for enumeral in self.enumerals.as_slice() {
            self.numbers.push(enumeral.number)?;
        }
        Ok(())
    }

    /// Returns the tags of the types, in the form that decoders and encoders of DER take.
    pub fn tag_tables(&self) -> TagTables<'_>
        ensures types { result.types.now ≡ self.now.type_tags.items }
        ensures members { result.members.now ≡ self.now.member_tags.items }
        ensures tags { result.tags.now ≡ self.now.tags.items }
        ensures numbers { result.numbers.now ≡ self.now.numbers.items }
    {
        TagTables {
            types: self.type_tags.as_slice(),
            members: self.member_tags.as_slice(),
            tags: self.tags.as_slice(),
            numbers: self.numbers.as_slice(),
        }
    }

    /// Returns the tables, in the form that decoders and encoders take.
    pub fn tables(&self) -> Tables<'_>
        ensures nodes { result.nodes.now ≡ self.now.nodes.items }
        ensures members { result.members.now ≡ self.now.members.items }
        ensures ranges { result.ranges.now ≡ self.now.ranges.items }
    {
        Tables {
            nodes: self.nodes.as_slice(),
            members: self.members.as_slice(),
            ranges: self.ranges.as_slice(),
        }
    }

    /// Returns the names of the rows of the tables.
    pub fn names(&self) -> Names<'_>
        ensures nodes { result.nodes.now ≡ self.now.node_names.items }
        ensures members { result.members.now ≡ self.now.member_names.items }
    {
        Names {
            text: self.text.as_str().as_bytes(),
            nodes: self.node_names.as_slice(),
            members: self.member_names.as_slice(),
        }
    }

    /// Returns the types that have names, in the order of the text.
    pub fn types(&self) -> &[NamedType]
        ensures { result.now ≡ self.now.types.items }
    {
        self.types.as_slice()
    }

    /// Returns the values after DEFAULT, by the index in
    /// [`Presence::Default`](asn1_schema::Presence::Default).
    pub fn defaults(&self) -> &[DefaultText]
        ensures { result.now ≡ self.now.defaults.items }
    {
        self.defaults.as_slice()
    }

    /// Returns the parts of a value after DEFAULT by its index, and the octets in which they have their
    /// bits. `None` if there is no such value, if values of its type are not supported, or if it is no
    /// value of its type.
    pub fn default_value(&self, index: usize) -> Option<(&[Part], &[u8])> {
        let rows = (*self.default_parts.as_slice().get(index)?)?;
        let end = rows.from.saturating_add(rows.count as usize);
        let parts = self.value_parts.as_slice().get(rows.from..end)?;
        Some((parts, self.value_octets.as_slice()))
    }

    /// Returns the octets of a name, as far as the text has them.
    pub fn text_of(&self, span: NameSpan) -> &[u8] {
        part_of(self.text.as_str().as_bytes(), span.from, span.count)
    }

    /// Returns the values of an ENUMERATED, by the index that its parts have. Returns none for another
    /// type.
    pub fn enumerals(&self, node: usize) -> &[Enumeral] {
        let Some(rows) = self.node_enumerals.as_slice().get(node) else {
            return &[];
        };
        let end = rows.from.saturating_add(rows.count as usize);
        self.enumerals.as_slice().get(rows.from..end).unwrap_or(&[])
    }

    /// Returns the index of the first type with this name. `None` if there is none.
    pub fn node_named(&self, name: &str) -> Option<usize> {
        for named in self.types.as_slice() {
            if self.text_of(named.name) == name.as_bytes() {
                return Some(named.node);
            }
        }
        None
    }
}
