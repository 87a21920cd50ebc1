//! What octets are in names and white space.

/// What an octet is in a text.
#[derive(Clone, Copy, PartialEq, Eq)]
pub(crate) enum OctetKind {
    /// Neither of the others.
    Other,
    /// A letter or a digit.
    Letter,
    /// A hyphen.
    Hyphen,
    /// White space of one octet: SPACE, or HT, LF, VT, FF and CR, 9 to 13 (X.680 12.1.6).
    Blank,
}

const O: OctetKind = OctetKind::Other;

const L: OctetKind = OctetKind::Letter;

const H: OctetKind = OctetKind::Hyphen;

const B: OctetKind = OctetKind::Blank;

/// All octets, in rows of 32.
static KINDS: [OctetKind; 256] = [
    O, O, O, O, O, O, O, O, O, B, B, B, B, B, O, O, O, O, O, O, O, O, O, O, O, O, O, O, O, O, O, O,
    B, O, O, O, O, O, O, O, O, O, O, O, O, H, O, O, L, L, L, L, L, L, L, L, L, L, O, O, O, O, O, O,
    O, L, L, L, L, L, L, L, L, L, L, L, L, L, L, L, L, L, L, L, L, L, L, L, L, L, L, O, O, O, O, O,
    O, L, L, L, L, L, L, L, L, L, L, L, L, L, L, L, L, L, L, L, L, L, L, L, L, L, L, O, O, O, O, O,
    O, O, O, O, O, O, O, O, O, O, O, O, O, O, O, O, O, O, O, O, O, O, O, O, O, O, O, O, O, O, O, O,
    O, O, O, O, O, O, O, O, O, O, O, O, O, O, O, O, O, O, O, O, O, O, O, O, O, O, O, O, O, O, O, O,
    O, O, O, O, O, O, O, O, O, O, O, O, O, O, O, O, O, O, O, O, O, O, O, O, O, O, O, O, O, O, O, O,
    O, O, O, O, O, O, O, O, O, O, O, O, O, O, O, O, O, O, O, O, O, O, O, O, O, O, O, O, O, O, O, O,
];

/// Returns what an octet is.
#[inline(always)]
pub(crate) fn kind_of(octet: u8) -> OctetKind {
    KINDS[octet as usize]
}

/// Returns whether an octet is a letter or a digit.
#[inline(always)]
pub(crate) fn is_letter(octet: u8) -> bool {
    kind_of(octet) == OctetKind::Letter
}
