//! Names of tags.

use asn1_x690::Class;
use asn1_x690_fields::FoundIdentifier;
use std::fmt;

/// The tag of an identifier. Its `Display` is the name of a universal type (X.680 8.4), as
/// `OCTET STRING`, or the class and the number, as `[0]` and `[APPLICATION 3]`.
#[derive(Clone, Copy, Debug)]
pub struct TagName {
    /// The identifier.
    pub identifier: FoundIdentifier,
}

/// Returns the name of the type with a universal tag. It is empty if there is none.
fn universal_name(number: u64) -> &'static str {
    match number {
        1 => "BOOLEAN",
        2 => "INTEGER",
        3 => "BIT STRING",
        4 => "OCTET STRING",
        5 => "NULL",
        6 => "OBJECT IDENTIFIER",
        7 => "ObjectDescriptor",
        8 => "EXTERNAL",
        9 => "REAL",
        10 => "ENUMERATED",
        11 => "EMBEDDED PDV",
        12 => "UTF8String",
        13 => "RELATIVE-OID",
        14 => "TIME",
        16 => "SEQUENCE",
        17 => "SET",
        18 => "NumericString",
        19 => "PrintableString",
        20 => "TeletexString",
        21 => "VideotexString",
        22 => "IA5String",
        23 => "UTCTime",
        24 => "GeneralizedTime",
        25 => "GraphicString",
        26 => "VisibleString",
        27 => "GeneralString",
        28 => "UniversalString",
        29 => "CHARACTER STRING",
        30 => "BMPString",
        _ => "",
    }
}

/// Returns the word before the number of a tag.
fn class_word(class: Class) -> &'static str {
    match class {
        Class::Universal => "UNIVERSAL ",
        Class::Application => "APPLICATION ",
        Class::Context => "",
        Class::Private => "PRIVATE ",
    }
}

impl fmt::Display for TagName {
    fn fmt<W: fmt::Write>(&self, f: &mut fmt::Formatter<W>) -> fmt::Result {
        let FoundIdentifier { class, number, .. } = self.identifier;
        let Some(number) = number else {
            return write!(f, "[{}2^64 or more]", class_word(class));
        };
        let name = universal_name(number);
        if class == Class::Universal && !name.is_empty() {
            return f.write_str(name);
        }
        write!(f, "[{}{number}]", class_word(class))
    }
}
