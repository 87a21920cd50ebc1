//! How many bits the values of types take in the UNALIGNED variant of PER (X.691).

use crate::types::{are_of_one_module, push_name};
use asn1_resolve::Schema;
use asn1_schema::{Length, Member, Node, Presence, Range, Rows, Tables, TimeKind};
use std::alloc::{AllocError, Global};

/// A number of bits without a bound.
const NONE: u64 = u64::MAX;

/// The bits of a UTCTime: a length octet, and 13 characters of 7 bits. Those of a GeneralizedTime
/// without a fraction: a length octet, and 15 characters.
const UTC_TIME: u64 = 99;

const GENERALIZED_TIME: u64 = 113;

/// The least and the most bits of the values of a type.
#[derive(Clone, Copy, Debug, PartialEq, Eq)]
struct Extent {
    /// The least; `NONE` where no value is known.
    least: u64,
    /// The most; `NONE` where there is no bound.
    most: u64,
}

/// The extent of a type that is not known yet.
const UNKNOWN: Extent = Extent {
    least: NONE,
    most: NONE,
};

/// Returns the extent of a type of at least `least` bits without an upper bound.
const fn unbounded(least: u64) -> Extent {
    Extent { least, most: NONE }
}

/// Returns the extent of values of `bits` bits.
const fn fixed(bits: u64) -> Extent {
    Extent {
        least: bits,
        most: bits,
    }
}

impl Extent {
    /// Returns the extent of a value after `bits` bits.
    fn after(self, bits: u64) -> Extent {
        Extent {
            least: self.least.saturating_add(bits),
            most: self.most.saturating_add(bits),
        }
    }

    /// Returns the extent of a value and another one after it.
    fn then(self, next: Extent) -> Extent {
        Extent {
            least: self.least.saturating_add(next.least),
            most: self.most.saturating_add(next.most),
        }
    }

    /// Returns the extent of a value of either sort.
    fn or(self, other: Extent) -> Extent {
        Extent {
            least: self.least.min(other.least),
            most: self.most.max(other.most),
        }
    }

    /// Returns the extent of a value that may be absent.
    fn or_absent(self) -> Extent {
        Extent { least: 0, ..self }
    }

    /// Returns the extent of an open type that holds the value (X.691 11.2).
    fn opened(self) -> Extent {
        Extent {
            least: opened(self.least),
            most: opened(self.most),
        }
    }
}

/// Returns the bits of a number that may be so much at most (X.691 11.5.6).
fn width(most: u128) -> u64 {
    u64::from(u128::BITS - most.leading_zeros())
}

/// Returns the bits of the lengths of `count` units (X.691 11.9).
fn length_bits(count: u64) -> u64 {
    if count == NONE {
        return NONE;
    }
    let fragments = count / 65_536 + u64::from(count % 65_536 >= 16_384);
    let last = count % 16_384;
    let bits = if last < 128 { 8 } else { 16 };
    fragments.saturating_mul(8).saturating_add(bits)
}

/// Returns the bits of `count` units, with their lengths.
fn counted(count: u64, unit: u64) -> u64 {
    length_bits(count).saturating_add(unit.saturating_mul(count))
}

/// Returns the bits of an open type around `bits` bits: whole octets, at least one, after their
/// number.
fn opened(bits: u64) -> u64 {
    if bits == NONE {
        return NONE;
    }
    let octets = bits / 8 + u64::from(bits % 8 != 0);
    counted(octets.max(1), 8)
}

/// Returns the bits of a normally small number (X.691 11.6).
fn small_number(number: u64) -> u64 {
    if number < 64 {
        return 7;
    }
    let octets = width(u128::from(number)).saturating_add(7) / 8;
    octets.saturating_mul(8).saturating_add(9)
}

/// Returns the bits of the number and the presence of `count` additions (X.691 19.7, 19.8).
fn presence_of_additions(count: u64) -> u64 {
    let number = if count <= 64 {
        7
    } else {
        length_bits(count).saturating_add(1)
    };
    number.saturating_add(count)
}

/// Returns the extent of units whose number is bounded by a size.
fn sized(length: Length, is_extensible: bool, unit: Extent) -> Extent {
    let root = match length {
        Length::AtLeast { least } => {
            let least = u64::try_from(least).unwrap_or(NONE);
            unbounded(counted(least, unit.least))
        }
        Length::Between { least, range } => {
            let greatest = u64::from(least).saturating_add(u64::from(range));
            Extent {
                least: unit.least.saturating_mul(u64::from(least)),
                most: unit.most.saturating_mul(greatest),
            }
            .after(width(u128::from(range)))
        }
    };
    if !is_extensible {
        return root;
    }
    let is_empty_added = match length {
        Length::AtLeast { least } => least > 0,
        Length::Between { least, .. } => least > 0,
    };
    let added = unbounded(if is_empty_added { 8 } else { NONE });
    root.or(added).after(1)
}

/// Returns the bits of the code of each character of an alphabet (X.691 30.5.2).
fn character_bits(ranges: &[Range], alphabet: Rows) -> u64 {
    let end = alphabet.from.saturating_add(alphabet.count as usize);
    let mut count = 0u64;
    for range in ranges.get(alphabet.from..end).unwrap_or(&[]) {
        let more = u64::from(range.last.saturating_sub(range.first)).saturating_add(1);
        count = count.saturating_add(more);
    }
    width(u128::from(count.saturating_sub(1)))
}

/// The extents of types so far.
#[derive(Clone, Copy)]
struct Extents<'a> {
    /// The types.
    tables: Tables<'a>,
    /// Of each node.
    known: &'a [Extent],
}

impl<'a> Extents<'a> {
    /// Returns what is known of a node.
    fn of(&self, node: usize) -> Extent {
        self.known.get(node).copied().unwrap_or(UNKNOWN)
    }

    /// Returns the members of rows.
    fn members(&self, rows: Rows) -> &'a [Member] {
        let end = rows.from.saturating_add(rows.count as usize);
        self.tables.members.get(rows.from..end).unwrap_or(&[])
    }

    /// Returns the extent of a SEQUENCE or a SET (X.691 19).
    fn sequence(&self, root: Rows, is_extensible: bool, additions: Rows) -> Extent {
        let mut extent = fixed(u64::from(is_extensible));
        for member in self.members(root) {
            let own = self.of(member.node);
            extent = extent.then(match member.presence {
                Presence::Mandatory => own,
                Presence::Optional | Presence::Default { .. } => own.or_absent().after(1),
            });
        }
        if !is_extensible || additions.count == 0 {
            return extent;
        }
        let mut added = fixed(presence_of_additions(u64::from(additions.count)));
        for member in self.members(additions) {
            added = added.then(self.of(member.node).opened());
        }
        extent.then(added.or_absent())
    }

    /// Returns the extent of a CHOICE (X.691 23).
    fn choice(&self, root: Rows, is_extensible: bool, additions: Rows) -> Extent {
        let index = width(u128::from(root.count.saturating_sub(1)));
        let mut extent = Extent {
            least: NONE,
            most: 0,
        };
        for member in self.members(root) {
            extent = extent.or(self.of(member.node).after(index));
        }
        if !is_extensible {
            return extent;
        }
        let mut number = 0u64;
        for member in self.members(additions) {
            let own = self.of(member.node).opened();
            extent = extent.or(own.after(small_number(number)));
            number = number.saturating_add(1);
        }
        extent.after(1)
    }

    /// Returns the extent of an ENUMERATED (X.691 14).
    fn enumerated(&self, last: u32, is_extensible: bool, additions: u32) -> Extent {
        let root = fixed(width(u128::from(last)));
        if !is_extensible {
            return root;
        }
        let mut extent = root;
        if additions > 0 {
            let most = small_number(u64::from(additions - 1));
            extent = extent.or(Extent { least: 7, most });
        }
        extent.after(1)
    }

    /// Returns the extent of a type by what is known of the types in it.
    fn next(&self, node: Node) -> Extent {
        match node {
            Node::Null => fixed(0),
            Node::Boolean => fixed(1),
            Node::IntegerBetween {
                bounds,
                is_extensible,
            } => {
                let root = fixed(width(bounds.range));
                if is_extensible {
                    root.or(unbounded(16)).after(1)
                } else {
                    root
                }
            }
            Node::IntegerAtLeast { is_extensible, .. } => {
                unbounded(16).after(u64::from(is_extensible))
            }
            Node::Integer | Node::ObjectIdentifier | Node::RelativeIdentifier => unbounded(16),
            Node::Enumerated {
                last,
                is_extensible,
                additions,
            } => self.enumerated(last, is_extensible, additions),
            Node::BitString {
                length,
                is_extensible,
                ..
            } => sized(length, is_extensible, fixed(1)),
            Node::OctetString {
                length,
                is_extensible,
            } => sized(length, is_extensible, fixed(8)),
            Node::Utf8String | Node::Real => unbounded(8),
            Node::Time {
                kind: TimeKind::Utc,
            } => fixed(UTC_TIME),
            Node::Time {
                kind: TimeKind::Generalized,
            } => unbounded(GENERALIZED_TIME),
            Node::Text {
                length,
                is_extensible,
                alphabet,
                ..
            } => {
                let unit = character_bits(self.tables.ranges, alphabet);
                sized(length, is_extensible, fixed(unit))
            }
            Node::Sequence {
                root,
                is_extensible,
                additions,
            } => self.sequence(root, is_extensible, additions),
            Node::SequenceOf {
                length,
                is_extensible,
                item,
            }
            | Node::SetOf {
                length,
                is_extensible,
                item,
            } => sized(length, is_extensible, self.of(item)),
            Node::Choice {
                alternatives,
                is_extensible,
                additions,
            } => self.choice(alternatives, is_extensible, additions),
            Node::Open { inner } => self.of(inner).opened(),
        }
    }
}

/// Makes each extent anew from the others, the last one first, and returns whether one has changed.
fn improve(tables: Tables<'_>, known: &mut [Extent]) -> bool {
    let mut is_changed = false;
    for node in (0..known.len()).rev() {
        let Some(kind) = tables.nodes.get(node) else {
            continue;
        };
        let extent = Extents { tables, known }.next(*kind);
        if extent != known[node] {
            known[node] = extent;
            is_changed = true;
        }
    }
    is_changed
}

/// Returns the extent of each node. What contains itself has no bound.
fn extents_of(alloc: Global, tables: Tables<'_>) -> Result<Vec<Extent>, AllocError> {
    let mut known = Vec::new(alloc);
    known.resize(tables.nodes.len(), UNKNOWN)?;
    for _ in 0..tables.nodes.len() {
        if !improve(tables, known.as_mut_slice()) {
            break;
        }
    }
    Ok(known)
}

/// Returns the names of the types, one a line, each with the least and the most bits of its values.
pub fn list_with_sizes(alloc: Global, schema: &Schema) -> Result<String, AllocError> {
    let extents = extents_of(alloc, schema.tables())?;
    let mut list = String::new(alloc);
    let is_one = are_of_one_module(schema);
    for named in schema.types() {
        push_name(&mut list, schema, named, is_one)?;
        let extent = extents.get(named.node).copied().unwrap_or(UNKNOWN);
        let Extent { least, most } = extent;
        if least == NONE {
            list.push_str(": no value\n")?;
        } else if most == NONE {
            write!(list, ": at least {least} bits\n")?;
        } else if most == 1 && least == 1 {
            list.push_str(": 1 bit\n")?;
        } else if least == most {
            write!(list, ": {least} bits\n")?;
        } else {
            write!(list, ": {least} to {most} bits\n")?;
        }
    }
    Ok(list)
}
