//! `NumericString`.
ghost use Rattle.std.specs.Prelude.{refl};
ghost use Rattle.asn1_characters.specs.Laws.SetLaws.{below_limit};
ghost use Rattle.asn1_characters.specs.declared.character_set.CharacterSetName.TheVariants.{Numeric as name};

use crate::octet_kinds::{AsText, HasAsBytes, HasFromBytes};
use crate::restricted_string::RestrictedString;
use crate::string_kind::StringKind;
use asn1_characters::CharacterSetName;

/// The kind of `NumericString`.
#[derive(Clone, Copy, Debug)]
pub struct Numeric;

impl StringKind for Numeric {
    type T = u8;

    ghost NAME = { name };

    const NAME: CharacterSetName = CharacterSetName::Numeric;

    ghost fits = { below_limit name 256 refl };

    ghost octets = { refl };
}

impl HasFromBytes for Numeric {}

impl HasAsBytes for Numeric {}

impl AsText for Numeric {
    ghost is_ascii = { below_limit name 128 refl };
}

/// A `NumericString` (X.680 41): the space and the digits.
pub type NumericString = RestrictedString<Numeric>;
