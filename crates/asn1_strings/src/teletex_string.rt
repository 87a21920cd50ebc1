//! `TeletexString`.
ghost use Rattle.std.specs.Prelude.{◌≡◌, ◌≢◌, [], IfOk, OnErr, refl};
ghost use Rattle.asn1_characters.specs.Laws.SetLaws.{below_limit};
ghost use Rattle.asn1_characters.specs.declared.character_set.CharacterSetName.TheVariants.{Teletex as name};

use crate::octet_kinds::HasFromBytes;
use crate::restricted_string::RestrictedString;
use crate::string_kind::StringKind;
use asn1_characters::CharacterSetName;
use std::alloc::AllocError;

/// The kind of `TeletexString`.
#[derive(Clone, Copy, Debug)]
pub struct Teletex;

impl StringKind for Teletex {
    type T = u8;

    ghost NAME = { name };

    const NAME: CharacterSetName = CharacterSetName::Teletex;

    ghost fits = { below_limit name 256 refl };

    ghost octets = { refl };
}

impl HasFromBytes for Teletex {}

/// A `TeletexString` (X.680 41): 0 to FF.
pub type TeletexString = RestrictedString<Teletex>;

impl RestrictedString<Teletex> {
    /// Copies the characters, one octet each.
    ///
    /// # Errors
    ///
    /// Returns `AllocError` if out of memory. An empty string never fails.
    pub fn to_bytes(&self) -> Result<Vec<u8>, AllocError>
        ensures octets { IfOk result (λ v. v.items ≡ self.now) }
        ensures memory { OnErr result (self.now ≢ []) }
    {
        if self.as_slice().is_empty() {
            return Ok(Vec::new(self.allocator()));
        }
        Vec::from_slice(self.allocator(), self.as_slice())
    }
}
