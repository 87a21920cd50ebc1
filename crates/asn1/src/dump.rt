//! Elements of DER as a tree, without a schema.

ghost use Rattle.std.specs.Prelude.{◌*◌, ◌^◌, ◌<◌, length};

use crate::stop::Stop;
use asn1_x690::Class;
use asn1_x690_decode::TagName;
use asn1_x690_elements::{Fault, decode_elements};
use asn1_x690_fields::{FoundIdentifier, Header};
use std::alloc::{AllocError, Global};

/// The most octets of an input, 2^61 - 1.
const MOST_OCTETS: usize = 0x1FFF_FFFF_FFFF_FFFF;

/// How many contents octets of an element are printed.
const SHOWN: usize = 32;

/// A header before the elements are known.
const NO_HEADER: Header = Header {
    identifier: FoundIdentifier {
        class: Class::Universal,
        number: None,
        is_constructed: false,
    },
    from: 0,
    to: 0,
};

/// Returns the headers of the elements of octets.
///
/// # Errors
///
/// Returns the first fault in words, or what exceeds a limit.
fn headers_of(
    alloc: Global,
    octets: &[u8],
    depth: usize,
    most: usize,
) -> Result<Vec<Header>, Stop> {
    if octets.len() > MOST_OCTETS {
        return Err(Stop::Memory);
    }
    let mut headers = Vec::new(alloc);
    let count = match decode_elements(octets, depth, &mut []) {
        Ok(count) => count,
        Err(fault) => return Err(Stop::input(fault_text(alloc, fault))),
    };
    if count > most {
        let text = format!(in alloc; "there are {count} elements, and --parts permits {most}");
        return Err(Stop::input(text));
    }
    headers.resize(count, NO_HEADER)?;
    match decode_elements(octets, depth, headers.as_mut_slice()) {
        Ok(_) => Ok(headers),
        Err(fault) => Err(Stop::input(fault_text(alloc, fault))),
    }
}

/// Returns a fault in words.
fn fault_text(alloc: Global, fault: Fault) -> Result<String, AllocError> {
    let (offset, kind) = (fault.at / 8, fault.kind);
    format!(in alloc; "offset {offset}: {kind}")
}

/// A tree that is being written.
#[derive(Drop)]
struct Writer {
    /// The lines.
    text: String,
    /// The offset after each element that is open, from the outermost on.
    ends: Vec<usize>,
    /// The offset of the next element.
    next: usize,
}

impl Writer {
    /// Appends the line of an element: the offset of its first octet, the number of octets before its
    /// contents, the number of its contents octets, its tag, and the first contents octets if it is
    /// primitive.
    fn add(&mut self, octets: &[u8], header: Header) -> Result<(), AllocError> {
        let (offset, from, to) = (self.next, header.from / 8, header.to / 8);
        self.close(offset);
        let before = from.saturating_sub(offset);
        let count = to.saturating_sub(from);
        write!(self.text, "{offset:>6} {before:>2} {count:>6}  ")?;
        for _ in self.ends.as_slice() {
            self.text.push_str("  ")?;
        }
        let tag = TagName {
            identifier: header.identifier,
        };
        write!(self.text, "{tag}")?;
        if header.identifier.is_constructed {
            self.ends.push(to)?;
            self.next = from;
        } else {
            self.contents(octets.get(from..to).unwrap_or(&[]))?;
            self.next = to;
        }
        self.text.push('\n')
    }

    /// Closes the elements that end before an offset, or at it.
    fn close(&mut self, offset: usize) {
        for _ in 0..self.ends.len() {
            match self.ends.as_slice().last() {
                Some(end) if *end <= offset => self.ends.pop(),
                _ => break,
            };
        }
    }

    /// Appends the first contents octets of an element.
    fn contents(&mut self, contents: &[u8]) -> Result<(), AllocError> {
        for (index, octet) in contents.iter().enumerate() {
            if index == SHOWN {
                return self.text.push_str("..");
            }
            if index == 0 {
                self.text.push(' ')?;
            }
            write!(self.text, "{octet:02X}")?;
        }
        Ok(())
    }
}

/// Returns the tree of the elements of octets, one a line. Elements must be nested less deep than
/// `depth`, and be no more than the limit.
///
/// # Errors
///
/// Returns the first fault in words, or what exceeds a limit.
pub fn tree_of(alloc: Global, octets: &[u8], depth: usize, most: usize) -> Result<String, Stop> {
    let headers = headers_of(alloc, octets, depth, most)?;
    let mut writer = Writer {
        text: String::new(alloc),
        ends: Vec::new(alloc),
        next: 0,
    };
    for header in headers.as_slice() {
        writer.add(octets, *header)?;
    }
    Ok(writer.text)
}
