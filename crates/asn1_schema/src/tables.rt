//! A schema: the types of modules as tables. A type names others by their index in the tables.

ghost use Rattle.std.specs.Prelude.{pos, ◌+ℤ◌, ◌<ℤ◌, ◌^◌};

/// Consecutive rows of a table.
#[derive(Clone, Copy, Debug, PartialEq, Eq)]
pub struct Rows {
    /// The index of the first row.
    pub from: usize,
    /// How many rows there are.
    pub count: u32,
}

/// How many units a string may have, or items a list: its effective size constraint (X.680 51.5).
#[derive(Clone, Copy, Debug, PartialEq, Eq)]
pub enum Length {
    /// SIZE (least..MAX), also if there is no SIZE.
    AtLeast {
        /// The least length.
        least: usize,
    },
    /// SIZE (least..least + range), up to 65,535.
    Between {
        /// The least length.
        least: u32,
        /// The difference of the greatest and the least length.
        range: u32,
    },
}

/// The bounds of an INTEGER. The greatest value, `least + range`, is at most 2^127 - 1.
#[derive(Clone, Copy, Debug)]
pub struct Bounds {
    /// The least value.
    pub least: i128,
    /// The difference of the greatest and the least value.
    pub range: u128,
    ghost fits: { (least +ℤ pos range) <ℤ pos (2 ^ 127) },
}

/// The lower bound of an INTEGER that has no upper bound.
#[derive(Clone, Copy, Debug, PartialEq, Eq)]
pub struct LowerBound {
    /// The least value.
    pub least: i128,
}

/// The types of times.
#[derive(Clone, Copy, Debug, PartialEq, Eq)]
pub enum TimeKind {
    /// UTCTime (X.680 47).
    Utc,
    /// GeneralizedTime (X.680 46).
    Generalized,
}

/// A type.
#[derive(Clone, Copy, Debug)]
pub enum Node {
    /// NULL.
    Null,
    /// BOOLEAN.
    Boolean,
    /// INTEGER (least..least + range).
    IntegerBetween {
        /// The least value, and the range.
        bounds: Bounds,
        /// Whether it has an extension marker.
        is_extensible: bool,
    },
    /// INTEGER (least..MAX).
    IntegerAtLeast {
        /// The least value.
        bound: LowerBound,
        /// Whether it has an extension marker.
        is_extensible: bool,
    },
    /// INTEGER without a lower bound.
    Integer,
    /// ENUMERATED: the values of its root by their order, and then those of its additions.
    Enumerated {
        /// The index of the last value of the root.
        last: u32,
        /// Whether it has an extension marker.
        is_extensible: bool,
        /// How many additions are known.
        additions: u32,
    },
    /// BIT STRING, in bits.
    BitString {
        /// How many bits it may have.
        length: Length,
        /// Whether the size has an extension marker.
        is_extensible: bool,
        /// Whether its bits have names, so that zeros after the last 1 have no meaning.
        has_names: bool,
    },
    /// OCTET STRING, in octets.
    OctetString {
        /// How many octets it may have.
        length: Length,
        /// Whether the size has an extension marker.
        is_extensible: bool,
    },
    /// OBJECT IDENTIFIER.
    ObjectIdentifier,
    /// RELATIVE-OID.
    RelativeIdentifier,
    /// UTF8String.
    Utf8String,
    /// REAL.
    Real,
    /// UTCTime or GeneralizedTime.
    Time {
        /// Which of them.
        kind: TimeKind,
    },
    /// A string of characters whose alphabet is known: NumericString, PrintableString, VisibleString,
    /// IA5String, BMPString or UniversalString.
    Text {
        /// How many characters it may have.
        length: Length,
        /// Whether the size has an extension marker.
        is_extensible: bool,
        /// The ranges of its alphabet, in ascending order.
        alphabet: Rows,
        /// The ranges of its type's alphabet, for sizes that are not in the root.
        whole: Rows,
    },
    /// SEQUENCE; or SET, whose root has the canonical order of the tags (X.691 21).
    Sequence {
        /// The components of its root, in the table of members.
        root: Rows,
        /// Whether it has an extension marker.
        is_extensible: bool,
        /// The additions that are known, in the table of members, in the order of the text. An
        /// addition group is one addition, a SEQUENCE.
        additions: Rows,
    },
    /// SEQUENCE OF.
    SequenceOf {
        /// How many items it may have.
        length: Length,
        /// Whether the size has an extension marker.
        is_extensible: bool,
        /// The type of the items.
        item: usize,
    },
    /// SET OF.
    SetOf {
        /// How many items it may have.
        length: Length,
        /// Whether the size has an extension marker.
        is_extensible: bool,
        /// The type of the items.
        item: usize,
    },
    /// CHOICE.
    Choice {
        /// The alternatives of its root, in the table of members, in the canonical order of their
        /// tags.
        alternatives: Rows,
        /// Whether it has an extension marker.
        is_extensible: bool,
        /// The additions that are known, in the table of members, in the order of the text.
        additions: Rows,
    },
    /// An open type that holds a value of this type.
    Open {
        /// The type.
        inner: usize,
    },
}

/// Characters with consecutive numbers.
#[derive(Clone, Copy, Debug, PartialEq, Eq)]
pub struct Range {
    /// The first.
    pub first: u32,
    /// The last.
    pub last: u32,
}

/// Whether a component may be absent.
#[derive(Clone, Copy, Debug)]
pub enum Presence {
    /// It must be present. An alternative of a CHOICE is so too.
    Mandatory,
    /// OPTIONAL.
    Optional,
    /// DEFAULT: if it is absent, it has this value, and otherwise another one.
    Default {
        /// The index of the value among the defaults, of which each encoding rule has its encodings.
        value: usize,
    },
}

/// A component of a SEQUENCE, or an alternative of a CHOICE.
#[derive(Clone, Copy, Debug)]
pub struct Member {
    /// Its type.
    pub node: usize,
    /// Whether it may be absent.
    pub presence: Presence,
}

/// The tables of a schema.
#[derive(Clone, Copy, Debug)]
pub struct Tables<'s> {
    /// The types.
    pub nodes: &'s [Node],
    /// Components and alternatives.
    pub members: &'s [Member],
    /// Ranges of characters.
    pub ranges: &'s [Range],
}
