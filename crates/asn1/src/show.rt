//! A type as the rules of encoding see it.

use crate::stop::Stop;
use asn1_resolve::Schema;
use asn1_schema::{Bounds, Length, Member, Node, Presence, Rows, TimeKind};
use asn1_x690::{Class, Tag};
use std::alloc::{AllocError, Global};
use std::str;

/// A type in words, line by line.
#[derive(Drop)]
struct Shown<'s> {
    /// The types.
    schema: &'s Schema,
    /// The lines.
    text: String,
}

/// Returns the greatest value of bounds.
fn greatest_of(bounds: Bounds) -> i128 {
    let half = bounds.range / 2;
    let rest = bounds.range - half;
    match (i128::try_from(half), i128::try_from(rest)) {
        (Ok(half), Ok(rest)) => bounds.least.saturating_add(half).saturating_add(rest),
        _ => i128::MAX,
    }
}

/// Returns the end of a constraint: its extension marker, if it has one.
fn end_of<'a>(is_extensible: bool) -> &'a str {
    if is_extensible { ", ...)" } else { ")" }
}

impl<'s> Shown<'s> {
    /// Appends a word.
    fn word(&mut self, word: &str) -> Result<(), AllocError> {
        self.text.push_str(word)
    }

    /// Appends a type that has a size.
    fn sized(&mut self, word: &str, length: Length, is_extensible: bool) -> Result<(), AllocError> {
        self.word(word)?;
        let end = end_of(is_extensible);
        match length {
            Length::AtLeast { least: 0 } => Ok(()),
            Length::AtLeast { least } => write!(self.text, " (SIZE ({least}..MAX){end}"),
            Length::Between { least, range: 0 } => write!(self.text, " (SIZE ({least}){end}"),
            Length::Between { least, range } => {
                let greatest = least.saturating_add(range);
                write!(self.text, " (SIZE ({least}..{greatest}){end}")
            }
        }
    }

    /// Appends the values of an ENUMERATED with their numbers, and the marker before the additions.
    fn values(&mut self, node: usize, root: usize, is_extensible: bool) -> Result<(), AllocError> {
        let schema = self.schema;
        self.word("ENUMERATED {")?;
        for (index, enumeral) in schema.enumerals(node).iter().enumerate() {
            if index > 0 {
                self.word(",")?;
            }
            if is_extensible && index == root {
                self.word(" ...,")?;
            }
            let name = str::from_utf8(schema.text_of(enumeral.name)).unwrap_or("");
            let number = enumeral.number;
            write!(self.text, " {name}({number})")?;
        }
        let is_root_alone = schema.enumerals(node).len() <= root;
        if is_extensible && is_root_alone {
            self.word(", ...")?;
        }
        self.word(" }")
    }

    /// Appends how many characters an alphabet has.
    fn characters(&mut self, alphabet: Rows) -> Result<(), AllocError> {
        let end = alphabet.from.saturating_add(alphabet.count as usize);
        let mut count = 0u64;
        for range in self
            .schema
            .tables()
            .ranges
            .get(alphabet.from..end)
            .unwrap_or(&[])
        {
            let more = u64::from(range.last.saturating_sub(range.first)).saturating_add(1);
            count = count.saturating_add(more);
        }
        write!(self.text, ", {count} characters")
    }

    /// Appends a type with its constraints.
    fn kind(&mut self, node: usize, of: Node) -> Result<(), AllocError> {
        match of {
            Node::Null => self.word("NULL"),
            Node::Boolean => self.word("BOOLEAN"),
            Node::Integer => self.word("INTEGER"),
            Node::IntegerAtLeast {
                bound,
                is_extensible,
            } => {
                let (least, end) = (bound.least, end_of(is_extensible));
                write!(self.text, "INTEGER ({least}..MAX{end}")
            }
            Node::IntegerBetween {
                bounds,
                is_extensible,
            } => {
                let (greatest, end) = (greatest_of(bounds), end_of(is_extensible));
                let least = bounds.least;
                write!(self.text, "INTEGER ({least}..{greatest}{end}")
            }
            Node::Enumerated {
                last,
                is_extensible,
                ..
            } => self.values(node, (last as usize).saturating_add(1), is_extensible),
            Node::BitString {
                length,
                is_extensible,
                ..
            } => self.sized("BIT STRING", length, is_extensible),
            Node::OctetString {
                length,
                is_extensible,
            } => self.sized("OCTET STRING", length, is_extensible),
            Node::ObjectIdentifier => self.word("OBJECT IDENTIFIER"),
            Node::RelativeIdentifier => self.word("RELATIVE-OID"),
            Node::Utf8String => self.word("UTF8String"),
            Node::Real => self.word("REAL"),
            Node::Time {
                kind: TimeKind::Utc,
            } => self.word("UTCTime"),
            Node::Time {
                kind: TimeKind::Generalized,
            } => self.word("GeneralizedTime"),
            Node::Text {
                length,
                is_extensible,
                alphabet,
                ..
            } => {
                self.sized("character string", length, is_extensible)?;
                self.characters(alphabet)
            }
            other => self.structure(other),
        }
    }

    /// Appends a type that has others inside, without these.
    fn structure(&mut self, of: Node) -> Result<(), AllocError> {
        match of {
            Node::Sequence { is_extensible, .. } => {
                self.word("SEQUENCE or SET")?;
                self.word(if is_extensible { ", extensible" } else { "" })
            }
            Node::Choice { is_extensible, .. } => {
                self.word("CHOICE")?;
                self.word(if is_extensible { ", extensible" } else { "" })
            }
            Node::SequenceOf {
                length,
                is_extensible,
                ..
            } => {
                self.sized("SEQUENCE", length, is_extensible)?;
                self.word(" OF")
            }
            Node::SetOf {
                length,
                is_extensible,
                ..
            } => {
                self.sized("SET", length, is_extensible)?;
                self.word(" OF")
            }
            _ => self.word("open type"),
        }
    }

    /// Appends the tags of a type, from the outermost to the innermost, and whether any element is a
    /// value of it.
    fn tags(&mut self, node: usize) -> Result<(), AllocError> {
        let tables = self.schema.tag_tables();
        let Some(of) = tables.types.get(node) else {
            return Ok(());
        };
        let end = of.tags.from.saturating_add(of.tags.count as usize);
        for tag in tables.tags.get(of.tags.from..end).unwrap_or(&[]) {
            let Tag { class, number } = *tag;
            match class {
                Class::Universal => write!(self.text, " [UNIVERSAL {number}]")?,
                Class::Application => write!(self.text, " [APPLICATION {number}]")?,
                Class::Context => write!(self.text, " [{number}]")?,
                Class::Private => write!(self.text, " [PRIVATE {number}]")?,
            }
        }
        if of.is_any { self.word(" ANY") } else { Ok(()) }
    }

    /// Begins a line.
    fn begin(&mut self, indent: usize, name: &str) -> Result<(), AllocError> {
        for _ in 0..indent {
            self.word("  ")?;
        }
        self.word(name)?;
        self.word(": ")
    }

    /// Appends a type and those inside it, unless they have names of their own. The line has begun.
    #[cycle(showing)]
    fn type_at(&mut self, depth: usize, indent: usize, node: usize) -> Result<(), Stop> {
        let Some(of) = self.schema.tables().nodes.get(node).copied() else {
            return Ok(());
        };
        self.kind(node, of)?;
        self.tags(node)?;
        self.word("\n")?;
        if depth == 0 {
            return Ok(());
        }
        let inside = indent.saturating_add(1);
        match of {
            Node::Sequence {
                root,
                additions,
                ..
            } => {
                self.members(depth - 1, inside, root, "")?;
                self.members(depth - 1, inside, additions, "addition")
            }
            Node::Choice {
                alternatives,
                additions,
                ..
            } => {
                self.members(depth - 1, inside, alternatives, "index")?;
                self.members(depth - 1, inside, additions, "addition")
            }
            Node::SequenceOf { item, .. } | Node::SetOf { item, .. } => {
                self.begin(inside, "item")?;
                self.used(depth - 1, inside, item)
            }
            Node::Open { inner } => {
                self.begin(inside, "value")?;
                self.used(depth - 1, inside, inner)
            }
            _ => Ok(()),
        }
    }

    /// Appends a type where it is used: its name, or what it is. The line has begun.
    #[cycle(showing)]
    fn used(&mut self, depth: usize, indent: usize, node: usize) -> Result<(), Stop> {
        let name = self.schema.names().of_node(node).unwrap_or(&[]);
        if name.is_empty() {
            return self.type_at(depth, indent, node);
        }
        self.word(str::from_utf8(name).unwrap_or(""))?;
        self.tags(node)?;
        self.word("\n")?;
        Ok(())
    }

    /// Appends members: components, each with the index of its presence bit (X.691 19.2.2) if it has
    /// one; or alternatives or additions, each with its index.
    #[cycle(showing)]
    fn members(&mut self, depth: usize, indent: usize, rows: Rows, word: &str) -> Result<(), Stop> {
        let schema = self.schema;
        let mut bits = 0usize;
        for index in 0..rows.count as usize {
            let row = rows.from.saturating_add(index);
            let Some(member) = schema.tables().members.get(row).copied() else {
                return Ok(());
            };
            let name = schema.names().of_member(row).unwrap_or(&[]);
            let name = if name.is_empty() {
                b"[[ ]]".as_slice()
            } else {
                name
            };
            self.begin(indent, str::from_utf8(name).unwrap_or(""))?;
            if word.is_empty() {
                bits = self.presence(member, bits)?;
            } else {
                write!(self.text, "{word} {index}, ")?;
            }
            self.used(depth, indent, member.node)?;
        }
        Ok(())
    }

    /// Appends whether a component may be absent, and the index of its presence bit, before which
    /// there are `bits` presence bits. Returns their number after it.
    fn presence(&mut self, member: Member, bits: usize) -> Result<usize, AllocError> {
        match member.presence {
            Presence::Mandatory => return Ok(bits),
            Presence::Optional => write!(self.text, "OPTIONAL, bit {bits}, ")?,
            Presence::Default { value } => {
                let text = match self.schema.defaults().get(value) {
                    Some(default) => self.schema.text_of(default.value),
                    None => &[],
                };
                let text = str::from_utf8(text).unwrap_or("");
                write!(self.text, "DEFAULT {text}, bit {bits}, ")?;
            }
        }
        Ok(bits.saturating_add(1))
    }
}

/// Returns the type at a node in words: a line for it, and one for each type inside it, which says how
/// it is encoded. A type inside it that has a name is named alone.
///
/// # Errors
///
/// Returns an error if out of memory.
pub fn words_of_type(
    alloc: Global,
    schema: &Schema,
    name: &str,
    node: usize,
    depth: usize,
) -> Result<String, Stop> {
    let mut shown = Shown {
        schema,
        text: String::new(alloc),
    };
    shown.begin(0, name)?;
    shown.type_at(depth, 0, node)?;
    let Shown { text, .. } = shown;
    Ok(text)
}
