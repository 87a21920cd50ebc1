//! `Ia5String`.
ghost use Rattle.std.specs.Prelude.{refl};
ghost use Rattle.asn1_characters.specs.Laws.SetLaws.{below_limit};
ghost use Rattle.asn1_characters.specs.declared.character_set.CharacterSetName.TheVariants.{IA5 as name};

use crate::octet_kinds::{AsText, IsIso646};
use crate::restricted_string::RestrictedString;
use crate::string_kind::StringKind;
use asn1_characters::CharacterSetName;

/// The kind of `Ia5String`.
#[derive(Clone, Copy, Debug)]
pub struct Ia5;

impl StringKind for Ia5 {
    type T = u8;

    ghost NAME = { name };

    const NAME: CharacterSetName = CharacterSetName::IA5;

    ghost fits = { below_limit name 256 refl };

    ghost octets = { refl };
}

impl AsText for Ia5 {
    ghost is_ascii = { below_limit name 128 refl };
}

impl IsIso646 for Ia5 {}

/// An `Ia5String` (X.680 41): 0 to 7F.
pub type Ia5String = RestrictedString<Ia5>;
