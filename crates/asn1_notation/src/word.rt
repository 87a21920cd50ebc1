//! The reserved words of the notation.

/// A reserved word (X.680 12.38), or ANY of the notation of 1988.
#[derive(Clone, Copy, PartialEq, Eq)]
pub enum Word {
    Absent,
    All,
    Any,
    Application,
    Automatic,
    Begin,
    Bit,
    BmpString,
    Boolean,
    By,
    Character,
    Choice,
    Class,
    Component,
    Components,
    Constrained,
    Containing,
    Date,
    Defined,
    DateTime,
    Default,
    Definitions,
    Descendants,
    Duration,
    Embedded,
    Encoded,
    End,
    Enumerated,
    Except,
    Explicit,
    Exports,
    Extensibility,
    External,
    False,
    From,
    GeneralizedTime,
    GeneralString,
    GraphicString,
    Ia5String,
    Identifier,
    Implicit,
    Implied,
    Imports,
    Includes,
    Instance,
    Integer,
    Intersection,
    Iso646String,
    Max,
    Min,
    MinusInfinity,
    NotANumber,
    Null,
    NumericString,
    Object,
    ObjectDescriptor,
    Octet,
    Of,
    OidIri,
    Optional,
    Pattern,
    Pdv,
    PlusInfinity,
    Present,
    PrintableString,
    Private,
    Real,
    RelativeOid,
    RelativeOidIri,
    Sequence,
    Set,
    Settings,
    Size,
    String,
    Successors,
    Syntax,
    T61String,
    Tags,
    TeletexString,
    Time,
    TimeOfDay,
    True,
    TypeIdentifier,
    Union,
    Unique,
    Universal,
    UniversalString,
    UtcTime,
    Utf8String,
    VideotexString,
    VisibleString,
    With,
}

/// The reserved words with their text, in the order of its octets.
static WORDS: [(&str, Word); 92] = [
    ("ABSENT", Word::Absent),
    ("ALL", Word::All),
    ("ANY", Word::Any),
    ("APPLICATION", Word::Application),
    ("AUTOMATIC", Word::Automatic),
    ("BEGIN", Word::Begin),
    ("BIT", Word::Bit),
    ("BMPString", Word::BmpString),
    ("BOOLEAN", Word::Boolean),
    ("BY", Word::By),
    ("CHARACTER", Word::Character),
    ("CHOICE", Word::Choice),
    ("CLASS", Word::Class),
    ("COMPONENT", Word::Component),
    ("COMPONENTS", Word::Components),
    ("CONSTRAINED", Word::Constrained),
    ("CONTAINING", Word::Containing),
    ("DATE", Word::Date),
    ("DATE-TIME", Word::DateTime),
    ("DEFAULT", Word::Default),
    ("DEFINED", Word::Defined),
    ("DEFINITIONS", Word::Definitions),
    ("DESCENDANTS", Word::Descendants),
    ("DURATION", Word::Duration),
    ("EMBEDDED", Word::Embedded),
    ("ENCODED", Word::Encoded),
    ("END", Word::End),
    ("ENUMERATED", Word::Enumerated),
    ("EXCEPT", Word::Except),
    ("EXPLICIT", Word::Explicit),
    ("EXPORTS", Word::Exports),
    ("EXTENSIBILITY", Word::Extensibility),
    ("EXTERNAL", Word::External),
    ("FALSE", Word::False),
    ("FROM", Word::From),
    ("GeneralString", Word::GeneralString),
    ("GeneralizedTime", Word::GeneralizedTime),
    ("GraphicString", Word::GraphicString),
    ("IA5String", Word::Ia5String),
    ("IDENTIFIER", Word::Identifier),
    ("IMPLICIT", Word::Implicit),
    ("IMPLIED", Word::Implied),
    ("IMPORTS", Word::Imports),
    ("INCLUDES", Word::Includes),
    ("INSTANCE", Word::Instance),
    ("INTEGER", Word::Integer),
    ("INTERSECTION", Word::Intersection),
    ("ISO646String", Word::Iso646String),
    ("MAX", Word::Max),
    ("MIN", Word::Min),
    ("MINUS-INFINITY", Word::MinusInfinity),
    ("NOT-A-NUMBER", Word::NotANumber),
    ("NULL", Word::Null),
    ("NumericString", Word::NumericString),
    ("OBJECT", Word::Object),
    ("OCTET", Word::Octet),
    ("OF", Word::Of),
    ("OID-IRI", Word::OidIri),
    ("OPTIONAL", Word::Optional),
    ("ObjectDescriptor", Word::ObjectDescriptor),
    ("PATTERN", Word::Pattern),
    ("PDV", Word::Pdv),
    ("PLUS-INFINITY", Word::PlusInfinity),
    ("PRESENT", Word::Present),
    ("PRIVATE", Word::Private),
    ("PrintableString", Word::PrintableString),
    ("REAL", Word::Real),
    ("RELATIVE-OID", Word::RelativeOid),
    ("RELATIVE-OID-IRI", Word::RelativeOidIri),
    ("SEQUENCE", Word::Sequence),
    ("SET", Word::Set),
    ("SETTINGS", Word::Settings),
    ("SIZE", Word::Size),
    ("STRING", Word::String),
    ("SUCCESSORS", Word::Successors),
    ("SYNTAX", Word::Syntax),
    ("T61String", Word::T61String),
    ("TAGS", Word::Tags),
    ("TIME", Word::Time),
    ("TIME-OF-DAY", Word::TimeOfDay),
    ("TRUE", Word::True),
    ("TYPE-IDENTIFIER", Word::TypeIdentifier),
    ("TeletexString", Word::TeletexString),
    ("UNION", Word::Union),
    ("UNIQUE", Word::Unique),
    ("UNIVERSAL", Word::Universal),
    ("UTCTime", Word::UtcTime),
    ("UTF8String", Word::Utf8String),
    ("UniversalString", Word::UniversalString),
    ("VideotexString", Word::VideotexString),
    ("VisibleString", Word::VisibleString),
    ("WITH", Word::With),
];

/// For each capital letter, the index of the first word that begins with it or a later one; then how many
/// words there are.
static STARTS: [usize; 27] = [
    0, 5, 10, 17, 24, 33, 35, 38, 38, 48, 48, 48, 48, 51, 54, 60, 66, 66, 69, 76, 83, 89, 91, 92,
    92, 92, 92,
];

/// Returns the words that begin with an octet.
fn words_from(first: u8) -> &'static [(&'static str, Word)] {
    let letter = first.wrapping_sub(b'A') as usize;
    if letter >= 26 {
        return &[];
    }
    WORDS.get(STARTS[letter]..STARTS[letter + 1]).unwrap_or(&[])
}

impl Word {
    /// Returns the word with a text. `None` if the text is no reserved word.
    pub fn of_text(text: &[u8]) -> Option<Word> {
        for (word_text, word) in words_from(*text.first()?) {
            if word_text.as_bytes() == text {
                return Some(*word);
            }
        }
        None
    }

    /// Returns whether the word has no small letters.
    pub fn is_capitals(self) -> bool {
        for (word_text, word) in &WORDS {
            if *word == self {
                return !word_text
                    .as_bytes()
                    .iter()
                    .any(|octet| octet.is_ascii_lowercase());
            }
        }
        false
    }

    /// Returns the text of the word, in quotes for a message.
    pub fn quoted(self) -> &'static str {
        for (word_text, word) in &QUOTED {
            if *word == self {
                return word_text;
            }
        }
        "a reserved word"
    }
}

/// The words that a message can ask for, with their text in quotes.
static QUOTED: [(&str, Word); 15] = [
    ("`BEGIN`", Word::Begin),
    ("`BY`", Word::By),
    ("`COMPONENTS`", Word::Components),
    ("`DEFINITIONS`", Word::Definitions),
    ("`END`", Word::End),
    ("`EXCEPT`", Word::Except),
    ("`FROM`", Word::From),
    ("`IDENTIFIER`", Word::Identifier),
    ("`IMPLIED`", Word::Implied),
    ("`OF`", Word::Of),
    ("`PDV`", Word::Pdv),
    ("`STRING`", Word::String),
    ("`SYNTAX`", Word::Syntax),
    ("`TAGS`", Word::Tags),
    ("`WITH`", Word::With),
];
