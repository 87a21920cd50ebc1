//! What a decoder is given.

use asn1_schema::Tables;
use asn1_x690::TagTables;
use asn1_x691_fields::Defaults;

/// A message, and the tables of the schema by which it is decoded.
#[derive(Clone, Copy, Debug)]
pub struct Context<'s> {
    /// The types.
    pub tables: Tables<'s>,
    /// Their tags, and the numbers of ENUMERATED.
    pub tags: TagTables<'s>,
    /// The elements that encode the default values, one for each.
    pub defaults: Defaults<'s>,
    /// The octets of the message.
    pub octets: &'s [u8],
}
