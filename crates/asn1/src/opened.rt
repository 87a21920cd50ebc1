//! The contents of open types, decoded.

use crate::codec::Target;
use crate::decode::Decoder;
use crate::stop::Stop;
use asn1_json::{Contents, OpenValue, octets_of_part, open_values};
use asn1_schema::Part;

/// The values of open types whose contents are to be decoded: those of one message or of the contents of
/// one.
#[derive(Drop)]
struct Found {
    /// What has them: 0 for the message, otherwise one more than the index of its contents.
    inside: usize,
    /// The values.
    values: Vec<OpenValue>,
}

impl<'s> Decoder<'s> {
    /// Returns the contents of the open types of a message, and of those in them.
    ///
    /// # Errors
    ///
    /// Returns the first fault in words, or what exceeds a limit.
    pub fn opened(&self, octets: &[u8], parts: &[Part]) -> Result<Vec<Contents>, Stop> {
        let mut all = Vec::new(self.alloc);
        let found = Found {
            inside: 0,
            values: self.open_values(octets, parts, self.target.node)?,
        };
        self.decode_all(&mut all, octets, parts, &found)?;
        for index in 0..self.parts {
            let Some(contents) = all.as_slice().get(index) else {
                break;
            };
            let inner = self.inner_of(contents, index)?;
            for contents in inner {
                all.push(contents)?;
            }
        }
        Ok(all)
    }

    /// Returns the values of open types in a value.
    fn open_values(
        &self,
        octets: &[u8],
        parts: &[Part],
        node: usize,
    ) -> Result<Vec<OpenValue>, Stop> {
        let depth = self.target.depth;
        Ok(open_values(self.alloc, self.schema, octets, parts, depth, node)?)
    }

    /// Returns the contents of the open types in contents, which have an index.
    fn inner_of(&self, contents: &Contents, index: usize) -> Result<Vec<Contents>, Stop> {
        let octets = contents.octets.as_slice();
        let parts = contents.parts.as_slice();
        let found = Found {
            inside: index.saturating_add(1),
            values: self.open_values(octets, parts, contents.value.node)?,
        };
        let mut inner = Vec::new(self.alloc);
        self.decode_all(&mut inner, octets, parts, &found)?;
        Ok(inner)
    }

    /// Appends the contents of values.
    fn decode_all(
        &self,
        all: &mut Vec<Contents>,
        octets: &[u8],
        parts: &[Part],
        found: &Found,
    ) -> Result<(), Stop> {
        for value in found.values.as_slice() {
            let Some(part) = parts.get(value.part).copied() else {
                continue;
            };
            let Some(octets) = octets_of_part(self.alloc, octets, part)? else {
                continue;
            };
            let parts = self.contents_of(*value, octets.as_slice())?;
            all.push(Contents {
                inside: found.inside,
                value: *value,
                octets,
                parts,
            })?;
        }
        Ok(())
    }

    /// Returns the parts of the contents of a value.
    fn contents_of(&self, value: OpenValue, octets: &[u8]) -> Result<Vec<Part>, Stop> {
        let decoder = Decoder {
            target: Target {
                node: value.node,
                is_prefix: false,
                ..self.target
            },
            ..*self
        };
        match decoder.parts_of(octets) {
            Err(Stop::Input(text)) => {
                Err(Stop::input(format!(in self.alloc; "in the contents of an open type: {text}")))
            }
            other => other,
        }
    }
}
