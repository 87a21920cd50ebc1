//! `GraphicString`.
ghost use Rattle.std.specs.Prelude.{refl};
ghost use Rattle.asn1_characters.specs.Laws.SetLaws.{below_limit};
ghost use Rattle.asn1_characters.specs.declared.character_set.CharacterSetName.TheVariants.{Graphic as name};

use crate::octet_kinds::{HasAsBytes, HasFromBytes};
use crate::restricted_string::RestrictedString;
use crate::string_kind::StringKind;
use asn1_characters::CharacterSetName;

/// The kind of `GraphicString`.
#[derive(Clone, Copy, Debug)]
pub struct Graphic;

impl StringKind for Graphic {
    type T = u8;

    ghost NAME = { name };

    const NAME: CharacterSetName = CharacterSetName::Graphic;

    ghost fits = { below_limit name 256 refl };

    ghost octets = { refl };
}

impl HasFromBytes for Graphic {}

impl HasAsBytes for Graphic {}

/// A `GraphicString` (X.680 41): 20 to 7E and A1 to FF.
pub type GraphicString = RestrictedString<Graphic>;
