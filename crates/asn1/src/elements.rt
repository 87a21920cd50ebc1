//! The elements of values in DER.

ghost use Rattle.std.specs.Prelude.{◌*◌, ◌^◌, ◌<◌, length};

use asn1_resolve::Schema;
use asn1_x690_decode::header_at;
use asn1_x690_fields::{Header, is_identifier, tags_in};

/// The most octets of a message, 2^61 - 1.
const MOST_OCTETS: usize = 0x1FFF_FFFF_FFFF_FFFF;

/// The element that encodes a value.
#[derive(Clone, Copy, Debug, PartialEq, Eq)]
pub struct Element {
    /// The offset of its first octet.
    pub offset: usize,
    /// Its header. Of an element in EXPLICIT tags, that of the outermost one.
    pub header: Header,
    /// The offset of the first octet inside the innermost tag.
    pub inner: usize,
}

impl Element {
    /// Returns the offset after the element.
    pub fn end(&self) -> usize {
        self.header.to / 8
    }
}

/// Returns the header of the element at an offset. `None` if no element begins there.
fn header_of(octets: &[u8], offset: usize) -> Option<Header> {
    if octets.len() > MOST_OCTETS || offset > octets.len() {
        return None;
    }
    header_at(octets, 8 * offset)
}

/// Returns the element of any tag at an offset. `None` if no element begins there.
pub fn any_element(octets: &[u8], offset: usize) -> Option<Element> {
    let header = header_of(octets, offset)?;
    Some(Element {
        offset,
        header,
        inner: offset,
    })
}

/// Returns the element at an offset, which encodes a value of the type at a node. `None` if the element
/// there has other tags than the type.
pub fn element_of(schema: &Schema, octets: &[u8], node: usize, offset: usize) -> Option<Element> {
    let tables = schema.tag_tables();
    let of = tables.types.get(node)?;
    let header = header_of(octets, offset)?;
    let mut inner = offset;
    for tag in tags_in(tables.tags, of.tags) {
        let found = header_of(octets, inner)?;
        if !is_identifier(&found.identifier, *tag, found.identifier.is_constructed) {
            return None;
        }
        inner = found.from / 8;
    }
    Some(Element {
        offset,
        header,
        inner,
    })
}
