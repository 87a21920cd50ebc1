//! `GeneralString`.
ghost use Rattle.std.specs.Prelude.{refl};
ghost use Rattle.asn1_characters.specs.Laws.SetLaws.{below_limit};
ghost use Rattle.asn1_characters.specs.declared.character_set.CharacterSetName.TheVariants.{General as name};

use crate::octet_kinds::{HasAsBytes, HasFromBytes};
use crate::restricted_string::RestrictedString;
use crate::string_kind::StringKind;
use asn1_characters::CharacterSetName;

/// The kind of `GeneralString`.
#[derive(Clone, Copy, Debug)]
pub struct General;

impl StringKind for General {
    type T = u8;

    ghost NAME = { name };

    const NAME: CharacterSetName = CharacterSetName::General;

    ghost fits = { below_limit name 256 refl };

    ghost octets = { refl };
}

impl HasFromBytes for General {}

impl HasAsBytes for General {}

/// A `GeneralString` (X.680 41): 0 to 7F and A1 to FF.
pub type GeneralString = RestrictedString<General>;
