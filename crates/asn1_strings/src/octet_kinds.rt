//! The calls of strings whose characters are octets.
ghost use Rattle.std.specs.Prelude.{◌≡◌, ◌≢◌, ◌<◌, ℕ, true, [], Some, OnErr, IfOk, IfErr, string_bytes};
ghost use Rattle.asn1_characters.specs.Sets.{base_set, has_character};
ghost use Rattle.asn1_strings.specs.Strings.{Answers, string_of_octets};

use crate::octet_string::OctetString;
use crate::restricted_string::RestrictedString;
use crate::static_permitted_alphabet::StaticPermittedAlphabet;
use crate::string_kind::StringKind;
use asn1_characters::PermittedAlphabetError;
use std::alloc::Global;
use std::convert::AsSlice;
use std::fmt;

/// A kind whose strings have `from_bytes`.
pub trait HasFromBytes: StringKind<T = u8> {}

/// A kind whose strings have `as_bytes`.
pub trait HasAsBytes: StringKind<T = u8> {}

/// A kind whose characters are below 128, so that its strings are texts: they have `as_str`,
/// `into_string` and `Display`.
pub trait AsText: StringKind<T = u8> {
    ghost is_ascii: { (c : ℕ) → has_character (base_set Self.NAME) c ≡ true → c < 128 };
}

/// A kind whose strings have the calls that are named for ISO 646.
pub trait IsIso646: AsText {}

impl<K: HasFromBytes> RestrictedString<K> {
    /// Returns the string of these characters, one octet each.
    ///
    /// # Errors
    ///
    /// Returns `InvalidRestrictedString` for the first character that the string may not hold,
    /// otherwise `Memory` if out of memory. An empty input never fails.
    pub fn from_bytes(alloc: Global, bytes: &[u8]) -> Result<Self, PermittedAlphabetError>
        ensures { Answers (λ s. s) result (string_of_octets K.NAME 1 bytes.now) }
    {
        Self::try_from_slice(alloc, bytes)
    }
}

impl<K: HasAsBytes> RestrictedString<K> {
    /// Borrows the characters, one octet each.
    pub fn as_bytes(&self) -> &[u8]
        ensures { result.now ≡ self.now }
    {
        self.as_slice()
    }
}

impl<K: StringKind<T = u8>> AsSlice<u8> for RestrictedString<K> {
    ghost items = { λ s. s };

    fn as_slice(&self) -> &[u8] {
        RestrictedString::as_slice(self)
    }
}

impl<K: AsText> RestrictedString<K> {
    /// Borrows the characters as a text. It reads each, to check that it is ASCII.
    pub fn as_str(&self) -> &str
        ensures { result.now ≡ self.now }
    {
        str::from_utf8(self.as_slice()).unwrap()
    }

    /// Returns the characters as a text, without a copy. It allocates nothing.
    pub fn into_string(self) -> String
        ensures { string_bytes result ≡ self }
    {
        String::from_utf8(self.into_vec()).unwrap()
    }
}

impl<K: IsIso646> RestrictedString<K> {
    /// Returns the string of these characters, one octet each.
    ///
    /// # Errors
    ///
    /// Returns `InvalidRestrictedString` for the first character that the string may not hold,
    /// otherwise `Memory` if out of memory. An empty input never fails.
    pub fn from_iso646_bytes(alloc: Global, bytes: &[u8]) -> Result<Self, PermittedAlphabetError>
        ensures { Answers (λ s. s) result (string_of_octets K.NAME 1 bytes.now) }
    {
        Self::try_from_slice(alloc, bytes)
    }

    /// Borrows the characters, one octet each.
    pub fn as_iso646_bytes(&self) -> &[u8]
        ensures { result.now ≡ self.now }
    {
        self.as_slice()
    }

    /// Returns the characters as octets, without a copy.
    ///
    /// # Errors
    ///
    /// Returns the string if out of memory for the reference count. An empty string never fails.
    pub fn into_octet_string(self) -> Result<OctetString, Self>
        ensures octets { IfOk result (λ octets. octets ≡ self) }
        ensures back { IfErr result (λ s. s ≡ self) }
        ensures memory { OnErr result (self ≢ []) }
    {
        match OctetString::from_vec(self.into_vec()) {
            Ok(octets) => Ok(octets),
            Err(units) => Err(RestrictedString::from_units(units)),
        }
    }
}

impl<K: AsText> fmt::Display for RestrictedString<K> {
    ghost output = { λ s. Some s };

    fn fmt<W: fmt::Write>(&self, f: &mut fmt::Formatter<W>) -> fmt::Result {
        f.write_str(self.as_str())
    }
}
