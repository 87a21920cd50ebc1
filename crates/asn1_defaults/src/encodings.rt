//! The encodings of the default values of a schema.

use crate::element::element_of;
use crate::probe::Probe;
use crate::reach::reached_from;
use crate::rules::Rules;
use asn1_resolve::{DefaultText, Schema};
use asn1_schema::{Node, Part, Span};
use asn1_x691_decode::Defaults;
use std::alloc::{AllocError, AllocFailed, Global};
use thiserror::Error;

/// How many bits can precede a value in an octet.
const PHASES: usize = 8;

/// A span of no bits.
const NO_BITS: Span = Span { at: 0, count: 0 };

/// Why there are no encodings of default values.
#[derive(Clone, Copy, Debug, PartialEq, Eq, Drop, Error)]
pub enum DefaultError {
    /// The value at this octet of the text has no encoding: its notation is not supported for such a
    /// type, or it is no value of the type.
    #[error("DEFAULT with {kind} is not supported here")]
    Unsupported {
        /// The index of the octet.
        at: usize,
        /// What the value is.
        kind: &'static str,
    },
    /// Out of memory.
    #[error("out of memory")]
    Memory,
}

impl From<AllocError> for DefaultError {
    fn from(_error: AllocError) -> DefaultError {
        DefaultError::Memory
    }
}

impl<T: Drop> From<AllocFailed<T>> for DefaultError {
    fn from(_error: AllocFailed<T>) -> DefaultError {
        DefaultError::Memory
    }
}

/// Returns what a value is of, for an error.
fn kind_of(of: Option<&Node>) -> &'static str {
    match of {
        Some(Node::Boolean) => "a value of BOOLEAN (X.680 18)",
        Some(Node::Integer | Node::IntegerAtLeast { .. } | Node::IntegerBetween { .. }) => {
            "a value of INTEGER (X.680 19)"
        }
        Some(Node::Enumerated { .. }) => "a value of ENUMERATED (X.680 20)",
        Some(Node::BitString { .. }) => "a value of BIT STRING (X.680 22)",
        Some(Node::OctetString { .. }) => "a value of OCTET STRING or ANY (X.680 23)",
        Some(Node::Sequence { .. }) => "a value of SEQUENCE or SET (X.680 25, 27)",
        Some(Node::SequenceOf { .. } | Node::SetOf { .. }) => {
            "a value of SEQUENCE OF or SET OF (X.680 26, 28)"
        }
        Some(Node::Choice { .. }) => "a value of CHOICE (X.680 29)",
        Some(Node::ObjectIdentifier) => "a value of OBJECT IDENTIFIER (X.680 32)",
        Some(Node::RelativeIdentifier) => "a value of RELATIVE-OID (X.680 33)",
        Some(Node::Text { .. } | Node::Utf8String) => "a value of a character string (X.680 41)",
        Some(Node::Time { .. }) => "a value of UTCTime or GeneralizedTime (X.680 46, 47)",
        Some(Node::Real) => "a value of REAL (X.680 21)",
        _ => "this value",
    }
}

/// Returns how many encodings a default value has.
fn count_of(rules: Rules) -> usize {
    match rules {
        Rules::Der | Rules::UnalignedPer => 1,
        Rules::AlignedPer => PHASES,
    }
}

/// The encodings of the default values of a schema by one set of rules.
#[derive(Drop)]
pub struct DefaultEncodings {
    octets: Vec<u8>,
    spans: Vec<Span>,
}

impl DefaultEncodings {
    /// Encodes the default values of the types to which the type at a node leads. The other default
    /// values have no encodings.
    ///
    /// # Errors
    ///
    /// Returns [`DefaultError::Unsupported`] for the first default value that has no encoding, or
    /// [`DefaultError::Memory`] if out of memory.
    ///
    /// # Examples
    ///
    /// ```
    /// use asn1_defaults::{DefaultEncodings, Rules};
    /// use asn1_resolve::Schema;
    ///
    /// let text = "M DEFINITIONS ::= BEGIN S ::= SEQUENCE { a BOOLEAN DEFAULT TRUE } END";
    /// let schema = Schema::parse(rt.alloc(), text)?;
    /// let node = schema.node_named("S").unwrap_or(0);
    /// let encodings = DefaultEncodings::new(rt.alloc(), &schema, node, Rules::Der)?;
    /// assert!(rt; encodings.defaults().octets == [1, 1, 0xFF].as_slice());
    /// ```
    pub fn new(
        alloc: Global,
        schema: &Schema,
        node: usize,
        rules: Rules,
    ) -> Result<DefaultEncodings, DefaultError> {
        let mut encodings = DefaultEncodings {
            octets: Vec::new(alloc),
            spans: Vec::new(alloc),
        };
        let is_reached = reached_from(alloc, schema, node)?;
        let mut probe = Probe::new(alloc, schema)?;
        for (index, default) in schema.defaults().iter().enumerate() {
            let is_wanted = is_reached.as_slice().get(default.node).copied();
            if is_wanted == Some(true) {
                encodings.add(alloc, schema, &mut probe, index, *default, rules)?;
            } else {
                encodings.add_none(rules)?;
            }
        }
        Ok(encodings)
    }

    /// Returns the encodings, in the form that decoders and encoders take.
    pub fn defaults(&self) -> Defaults<'_> {
        Defaults {
            octets: self.octets.as_slice(),
            spans: self.spans.as_slice(),
        }
    }

    /// Appends spans without bits, which no value that the type at hand leads to is compared with.
    fn add_none(&mut self, rules: Rules) -> Result<(), DefaultError> {
        for _ in 0..count_of(rules) {
            self.spans.push(NO_BITS)?;
        }
        Ok(())
    }

    /// Appends an encoding: the bits of octets from an index on, before another one.
    fn push(&mut self, octets: &[u8], from: usize, end: usize) -> Result<(), AllocError> {
        let at = self.octets.len().saturating_mul(8).saturating_add(from);
        self.octets.extend_from_slice(octets)?;
        let count = end.saturating_sub(from);
        self.spans.push(Span { at, count })?;
        Ok(())
    }

    /// Appends the encodings of a default value, which has an index.
    fn add(
        &mut self,
        alloc: Global,
        schema: &Schema,
        probe: &mut Probe,
        index: usize,
        default: DefaultText,
        rules: Rules,
    ) -> Result<(), DefaultError> {
        if let Some((parts, source)) = schema.default_value(index)
            && self.add_parts(alloc, schema, probe, default.node, parts, source, rules)?
        {
            return Ok(());
        }
        Err(DefaultError::Unsupported {
            at: default.value.from,
            kind: kind_of(schema.tables().nodes.get(default.node)),
        })
    }

    /// Appends the encodings of a value of the type at a node. Returns whether the parts are one.
    fn add_parts(
        &mut self,
        alloc: Global,
        schema: &Schema,
        probe: &mut Probe,
        node: usize,
        parts: &[Part],
        source: &[u8],
        rules: Rules,
    ) -> Result<bool, AllocError> {
        if rules == Rules::Der {
            let Some(element) = element_of(alloc, schema, node, parts, source)? else {
                return Ok(false);
            };
            self.push(element.as_slice(), 0, element.len().saturating_mul(8))?;
            return Ok(true);
        }
        let is_aligned = rules == Rules::AlignedPer;
        for before in 0..count_of(rules) {
            let encoded = probe.encode_after(
                alloc, schema, node, parts, source, is_aligned, before,
            )?;
            let Some((octets, end)) = encoded else {
                return Ok(false);
            };
            self.push(octets.as_slice(), before, end)?;
        }
        Ok(true)
    }
}
