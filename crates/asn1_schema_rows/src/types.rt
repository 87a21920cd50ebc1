//! Types from words. A type is a word, followed by the types that it names:
//!
//! ```text
//! null  bool  int  int:0..  int:0..7  intx:0..7  enum:LAST  enumx:LAST:ADDITIONS
//! bits:0..  bits:3..3  bitsx:1..2  named:0..  octets:..  of:0.. ITEM  ofx:1..2 ITEM  setof:0.. ITEM  open TYPE
//! text:0..4:48-57  textx:1..2:65-66:32-126   oid  relative  utf8  any
//! seq:ROOT ..  seqx:ROOT:ADDITIONS ..  group:COUNT ..
//! choice:ROOT ..  choicex:ROOT:ADDITIONS ..
//! ```
//!
//! Each component of a SEQUENCE is after `!`, after `?`, which says that it is OPTIONAL, or after `=` and
//! the bits that encode its DEFAULT value: at each of the eight positions in an octet, or at all of them.
//! The bits of `named` have names. A text has ranges of characters by their numbers: of its alphabet, and
//! of its type's alphabet.
//!
//! A `group` is an addition group: in DER its components are those of the SEQUENCE; in PER it is `seq`.
//!
//! Components and alternatives have automatic tags (X.680 25.8): from 0 on, those of the root before the
//! additions. The values of an ENUMERATED are numbered from 0 on. The second alphabet of a text tells of
//! which type it is.

use crate::bounds::{integer_of, length_of, small};
use crate::tags::{TagRows, universal_number};
use asn1_schema::{Length, Member, Node, Presence, Range, Rows, Span, TimeKind};
use asn1_test_rows::{RowError, parse_word, wrong};
use std::alloc::Global;

/// The tables of a type.
#[derive(Drop)]
pub struct Schema {
    /// The types.
    pub nodes: Vec<Node>,
    /// Components and alternatives.
    pub members: Vec<Member>,
    /// Ranges of characters.
    pub ranges: Vec<Range>,
    /// The bits of default values, each in an octet.
    pub default_octets: Vec<u8>,
    /// Where the bits of each default value are.
    pub default_spans: Vec<Span>,
    /// Tags, and the numbers of ENUMERATED.
    pub tags: TagRows,
    /// The node of the type.
    pub node: usize,
}

/// Types that are read from the last word to the first: each is left until a word names it.
#[derive(Drop)]
struct Types {
    nodes: Vec<Node>,
    members: Vec<Member>,
    ranges: Vec<Range>,
    default_octets: Vec<u8>,
    default_spans: Vec<Span>,
    tags: TagRows,
    is_aligned: bool,
    left: Vec<Member>,
}

impl Types {
    /// Adds a type.
    fn add(&mut self, node: Node) -> Result<(), RowError> {
        let alphabet = match node {
            Node::Text { whole, .. } => self.ranges.as_slice().get(whole.from).copied(),
            _ => None,
        };
        self.add_with(node, universal_number(&node, alphabet))
    }

    /// Adds a type with the number of its universal tag, if it has one.
    fn add_with(&mut self, node: Node, number: Option<u64>) -> Result<(), RowError> {
        let index = self.nodes.len();
        self.tags.add_type(&node, number)?;
        self.nodes.push(node)?;
        self.left.push(Member {
            node: index,
            presence: Presence::Mandatory,
        })?;
        Ok(())
    }

    /// Adds a type of which each element is a value.
    fn add_any(&mut self) -> Result<(), RowError> {
        let index = self.nodes.len();
        self.add(Node::OctetString {
            length: Length::AtLeast { least: 0 },
            is_extensible: false,
        })?;
        self.tags.permit_any(index);
        Ok(())
    }

    /// Takes the type that was read last.
    fn take(&mut self, alloc: Global) -> Result<Member, RowError> {
        match self.left.pop() {
            Some(member) => Ok(member),
            None => Err(wrong(alloc, "the row", "type")),
        }
    }

    /// Takes the last `count` types as rows of members. The first has this automatic tag.
    fn take_rows(&mut self, alloc: Global, count: usize, tag: usize) -> Result<Rows, RowError> {
        let from = self.members.len();
        let mut tag = tag as u64;
        for _ in 0..count {
            let member = self.take(alloc)?;
            match self.group_at(member.node) {
                Some(group) => {
                    let members = self.members.as_slice();
                    self.tags.add_group(members, group, tag)?;
                    tag = tag.saturating_add(u64::from(group.count));
                }
                None => {
                    self.tags.add_member(member.node, tag)?;
                    tag = tag.saturating_add(1);
                }
            }
            self.members.push(member)?;
        }
        Ok(Rows {
            from,
            count: small(alloc, count)?,
        })
    }

    /// Returns the components of an addition group, which is a SEQUENCE without tags.
    fn group_at(&self, node: usize) -> Option<Rows> {
        match self.nodes.as_slice().get(node) {
            Some(Node::Sequence { root, .. }) if !self.tags.has_tags(node) => Some(*root),
            _ => None,
        }
    }

    /// Adds an addition group of `count` components.
    fn add_group(&mut self, alloc: Global, count: usize) -> Result<(), RowError> {
        let root = self.take_rows(alloc, count, 0)?;
        self.add_with(
            Node::Sequence {
                root,
                is_extensible: false,
                additions: Rows { from: 0, count: 0 },
            },
            None,
        )
    }

    /// Adds ranges of characters, as `32-32.48-57`.
    fn add_ranges(&mut self, alloc: Global, text: &str) -> Result<Rows, RowError> {
        let from = self.ranges.len();
        for range in text.split('.') {
            let Some((first, last)) = range.split_once('-') else {
                return Err(wrong(alloc, text, "ranges of characters"));
            };
            let first = parse_word::<u32>(alloc, first)?;
            let last = parse_word::<u32>(alloc, last)?;
            self.ranges.push(Range { first, last })?;
        }
        let count = self.ranges.len().saturating_sub(from);
        Ok(Rows {
            from,
            count: small(alloc, count)?,
        })
    }

    /// Adds the bits of a word, from an octet on.
    fn add_bits(&mut self, bits: &str) -> Result<Span, RowError> {
        let at = self.default_octets.len().saturating_mul(8);
        let (mut octet, mut mask) = (0_u8, 0x80_u8);
        for bit in bits.chars() {
            if bit == '1' {
                octet |= mask;
            }
            mask /= 2;
            if mask == 0 {
                self.default_octets.push(octet)?;
                (octet, mask) = (0, 0x80);
            }
        }
        self.default_octets.push(octet)?;
        Ok(Span {
            at,
            count: bits.len(),
        })
    }

    /// Adds the encodings of a default value, as `101`, or eight of them with dots between.
    fn add_default(&mut self, alloc: Global, text: &str) -> Result<usize, RowError> {
        let value = if self.is_aligned {
            self.default_spans.len() / 8
        } else {
            self.default_spans.len()
        };
        let times = if !self.is_aligned || text.contains('.') {
            1
        } else {
            8
        };
        for _ in 0..times {
            for bits in text.split('.') {
                let span = self.add_bits(bits)?;
                self.default_spans.push(span)?;
            }
        }
        Ok(value)
    }

    /// Says whether the type that was read last is a component that must be present.
    fn mark(&mut self, alloc: Global, presence: Presence) -> Result<(), RowError> {
        let member = self.take(alloc)?;
        self.left.push(Member {
            node: member.node,
            presence,
        })?;
        Ok(())
    }
}

/// Returns the tables of the type that words name.
pub fn schema_of(alloc: Global, is_aligned: bool, words: &[&str]) -> Result<Schema, RowError> {
    let mut types = Types {
        nodes: Vec::new(alloc),
        members: Vec::new(alloc),
        ranges: Vec::new(alloc),
        default_octets: Vec::new(alloc),
        default_spans: Vec::new(alloc),
        tags: TagRows::new(alloc),
        is_aligned,
        left: Vec::new(alloc),
    };
    for word in words.iter().rev() {
        read_word(alloc, &mut types, word)?;
    }
    let member = types.take(alloc)?;
    Ok(Schema {
        nodes: types.nodes,
        members: types.members,
        ranges: types.ranges,
        default_octets: types.default_octets,
        default_spans: types.default_spans,
        tags: types.tags,
        node: member.node,
    })
}

/// Reads a word.
fn read_word(alloc: Global, types: &mut Types, word: &str) -> Result<(), RowError> {
    match word {
        "!" => return types.mark(alloc, Presence::Mandatory),
        "?" => return types.mark(alloc, Presence::Optional),
        "null" => return types.add(Node::Null),
        "bool" => return types.add(Node::Boolean),
        "int" => return types.add(Node::Integer),
        "oid" => return types.add(Node::ObjectIdentifier),
        "relative" => return types.add(Node::RelativeIdentifier),
        "utf8" => return types.add(Node::Utf8String),
        "real" => return types.add(Node::Real),
        "utc" => {
            return types.add(Node::Time {
                kind: TimeKind::Utc,
            });
        }
        "generalized" => {
            return types.add(Node::Time {
                kind: TimeKind::Generalized,
            });
        }
        "any" => return types.add_any(),
        "open" => {
            let inner = types.take(alloc)?;
            return types.add(Node::Open { inner: inner.node });
        }
        _ => {}
    }
    if let Some(bits) = word.strip_prefix('=') {
        let value = types.add_default(alloc, bits)?;
        return types.mark(alloc, Presence::Default { value });
    }
    let Some((name, text)) = word.split_once(':') else {
        return Err(wrong(alloc, word, "type"));
    };
    match name.strip_suffix('x') {
        Some(name) => read_sized(alloc, types, name, text, true),
        None => read_sized(alloc, types, name, text, false),
    }
}

/// Reads a word that has bounds, a size or counts.
fn read_sized(
    alloc: Global,
    types: &mut Types,
    name: &str,
    text: &str,
    is_extensible: bool,
) -> Result<(), RowError> {
    match name {
        "int" => types.add(integer_of(alloc, text, is_extensible)?),
        "bits" => types.add(Node::BitString {
            length: length_of(alloc, text)?,
            is_extensible,
            has_names: false,
        }),
        "named" => types.add(Node::BitString {
            length: length_of(alloc, text)?,
            is_extensible,
            has_names: true,
        }),
        "octets" => types.add(Node::OctetString {
            length: length_of(alloc, text)?,
            is_extensible,
        }),
        "of" => {
            let length = length_of(alloc, text)?;
            let item = types.take(alloc)?;
            types.add(Node::SequenceOf {
                length,
                is_extensible,
                item: item.node,
            })
        }
        "setof" => {
            let length = length_of(alloc, text)?;
            let item = types.take(alloc)?;
            types.add(Node::SetOf {
                length,
                is_extensible,
                item: item.node,
            })
        }
        "text" => read_text(alloc, types, text, is_extensible),
        _ => read_counted(alloc, types, name, text, is_extensible),
    }
}

/// Reads a word that has a size and ranges of characters.
fn read_text(
    alloc: Global,
    types: &mut Types,
    text: &str,
    is_extensible: bool,
) -> Result<(), RowError> {
    let Some((size, ranges)) = text.split_once(':') else {
        return Err(wrong(alloc, text, "size and ranges"));
    };
    let (ranges, whole) = match ranges.split_once(':') {
        Some((ranges, whole)) => (ranges, whole),
        None => (ranges, ranges),
    };
    let length = length_of(alloc, size)?;
    let alphabet = types.add_ranges(alloc, ranges)?;
    let whole = types.add_ranges(alloc, whole)?;
    types.add(Node::Text {
        length,
        is_extensible,
        alphabet,
        whole,
    })
}

/// Reads a word that has counts: of its root, and of its additions.
fn read_counted(
    alloc: Global,
    types: &mut Types,
    name: &str,
    text: &str,
    is_extensible: bool,
) -> Result<(), RowError> {
    let (first, second) = match text.split_once(':') {
        Some((first, second)) => (first, second),
        None => (text, "0"),
    };
    let first = parse_word::<usize>(alloc, first)?;
    let second = parse_word::<usize>(alloc, second)?;
    match name {
        "enum" => types.add(Node::Enumerated {
            last: small(alloc, first)?,
            is_extensible,
            additions: small(alloc, second)?,
        }),
        "group" => types.add_group(alloc, first),
        "seq" => {
            let root = types.take_rows(alloc, first, 0)?;
            let additions = types.take_rows(alloc, second, first)?;
            types.add(Node::Sequence {
                root,
                is_extensible,
                additions,
            })
        }
        "choice" => {
            let alternatives = types.take_rows(alloc, first, 0)?;
            let additions = types.take_rows(alloc, second, first)?;
            types.add(Node::Choice {
                alternatives,
                is_extensible,
                additions,
            })
        }
        _ => Err(wrong(alloc, name, "type")),
    }
}
