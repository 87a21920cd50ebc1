//! From octets to text.

ghost use Rattle.std.specs.Prelude.{◌*◌, ◌^◌, ◌<◌, length};

use crate::args::Output;
use crate::codec::{Codec, Fault, Target};
use crate::stop::Stop;
use crate::tree::{Source, value_tree};
use crate::types::words_of;
use asn1_json::{Contents, PrintError, print_in_notation, print_with_contents};
use asn1_resolve::Schema;
use asn1_schema::Part;
use asn1_schema_values::Path;
use asn1_x690_decode::{Explanation, Reason};
use std::alloc::{AllocError, Global};

/// How many parts there is room for before their number is known.
const FIRST_ROOM: usize = 1024;

/// The most octets of a message, 2^61 - 1.
const MOST_OCTETS: usize = 0x1FFF_FFFF_FFFF_FFFF;

/// What decodes values of a type and prints them.
#[derive(Clone, Copy)]
pub struct Decoder<'s> {
    /// The allocator.
    pub alloc: Global,
    /// The types.
    pub schema: &'s Schema,
    /// What decodes values.
    pub codec: &'s Codec,
    /// The type.
    pub target: Target,
    /// The most parts of a value.
    pub parts: usize,
    /// How values are printed.
    pub printed: Output,
}

impl<'s> Decoder<'s> {
    /// Returns the text of the value that octets encode, followed by the end of a line.
    ///
    /// # Errors
    ///
    /// Returns the first fault in words, or what exceeds a limit.
    pub fn text_of(&self, octets: &[u8]) -> Result<Vec<u8>, Stop> {
        let parts = self.parts_of(octets)?;
        let contents = self.opened(octets, parts.as_slice())?;
        self.print(octets, parts.as_slice(), contents.as_slice())
    }

    /// Returns the parts of the value that octets encode.
    ///
    /// # Errors
    ///
    /// Returns the first fault in words, or what exceeds a limit.
    pub fn parts_of(&self, octets: &[u8]) -> Result<Vec<Part>, Stop> {
        if octets.len() > MOST_OCTETS {
            return Err(Stop::Memory);
        }
        let mut parts = Vec::new(self.alloc);
        parts.resize(FIRST_ROOM.min(self.parts), Part::Absent)?;
        let mut count = self.decode(octets, parts.as_mut_slice())?;
        if count > self.parts {
            let most = self.parts;
            let text = format!(in self.alloc;
                "the value has {count} parts, and --parts permits {most}"
            );
            return Err(Stop::input(text));
        }
        if count > parts.len() {
            parts.resize(count, Part::Absent)?;
            count = self.decode(octets, parts.as_mut_slice())?;
        }
        parts.truncate(count);
        Ok(parts)
    }

    /// Decodes a value. Returns how many parts it has.
    fn decode(&self, octets: &[u8], parts: &mut [Part]) -> Result<usize, Stop>
        requires { 8 * length octets.now < 2 ^ 64 }
    {
        match self.codec.decode(self.schema, self.target, octets, parts) {
            Ok(count) => Ok(count),
            Err(fault) => {
                let count = fault.parts.min(parts.len());
                let path = Path {
                    tables: self.schema.tables(),
                    names: self.schema.names(),
                    node: self.target.node,
                    parts: parts.get(..count).unwrap_or(&[]),
                };
                let explained = self.codec.explain(self.schema, octets, fault);
                Err(Stop::input(fault_text(self.alloc, self.schema, path, fault, explained)))
            }
        }
    }

    /// Prints the value of parts.
    fn print(&self, octets: &[u8], parts: &[Part], contents: &[Contents]) -> Result<Vec<u8>, Stop> {
        let Target { node, depth, .. } = self.target;
        let schema = self.schema;
        let printed = match self.printed {
            Output::Json => {
                print_with_contents(self.alloc, schema, octets, parts, contents, depth, node)
            }
            Output::Notation => {
                let text = print_in_notation(
                    self.alloc, schema, octets, parts, contents, depth, node,
                );
                text.map(String::into_bytes)
            }
            Output::Tree => {
                let source = Source { octets, parts };
                let is_der = self.codec.is_der();
                let text = value_tree(self.alloc, schema, source, contents, is_der, depth, node);
                text.map(String::into_bytes)
            }
        };
        match printed {
            Ok(mut text) => {
                if self.printed != Output::Tree {
                    text.push(b'\n')?;
                }
                Ok(text)
            }
            Err(PrintError::Memory) => Err(Stop::Memory),
            Err(error) => Err(Stop::input(format!(in self.alloc; "{error}"))),
        }
    }
}

/// Returns a fault in words: the offset of its octet, for PER the bit in it; the path to the value, or the
/// name of its type if the path has no steps; and why no value is encoded there.
///
/// # Errors
///
/// Returns an error if out of memory.
fn fault_text(
    alloc: Global,
    schema: &Schema,
    path: Path<'_>,
    fault: Fault,
    explained: Option<Explanation<'_>>,
) -> Result<String, AllocError> {
    let (mut text, reason) = match explained {
        Some(explanation) => (
            format!(in alloc; "offset {}", explanation.offset())?,
            format!(in alloc; "{}", Reason { explanation })?,
        ),
        None => (
            format!(in alloc; "offset {}, bit {}", fault.at / 8, fault.at % 8)?,
            format!(in alloc; "{}", fault.kind)?,
        ),
    };
    let steps = format!(in alloc; "{path}")?;
    if steps.is_empty() {
        let words = words_of(alloc, schema, fault.node)?;
        write!(text, ": {words}{reason}")?;
    } else {
        write!(text, ", {steps}: {reason}")?;
    }
    Ok(text)
}
