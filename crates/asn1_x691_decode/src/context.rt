//! What a decoder works on.

use asn1_schema::Tables;
use asn1_x691_fields::Defaults;

/// A schema, and a message.
#[derive(Clone, Copy, Debug)]
pub struct Context<'s> {
    /// The types.
    pub tables: Tables<'s>,
    /// The encodings of default values.
    pub defaults: Defaults<'s>,
    /// The message.
    pub octets: &'s [u8],
    /// Whether the variant is ALIGNED.
    pub is_aligned: bool,
}
