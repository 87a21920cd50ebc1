//! `Utf8String`.

/// A `UTF8String` (X.680 41): any text.
pub type Utf8String = String;
