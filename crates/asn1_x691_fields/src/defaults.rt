//! Tables of default values.

use asn1_schema::Span;

/// The encodings of default values.
#[derive(Clone, Copy, Debug)]
pub struct Defaults<'s> {
    /// Octets, among whose bits are the encodings of the default values.
    pub octets: &'s [u8],
    /// The bits of each. In the ALIGNED variant an encoding depends on how many bits of an octet
    /// precede it, so that each value has eight: after no bit of an octet, after one, up to seven.
    /// In the UNALIGNED variant it has one.
    pub spans: &'s [Span],
}
