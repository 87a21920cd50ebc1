//! `PrintableString`.
ghost use Rattle.std.specs.Prelude.{refl};
ghost use Rattle.asn1_characters.specs.Laws.SetLaws.{below_limit};
ghost use Rattle.asn1_characters.specs.declared.character_set.CharacterSetName.TheVariants.{Printable as name};

use crate::octet_kinds::{AsText, HasAsBytes, HasFromBytes};
use crate::restricted_string::RestrictedString;
use crate::string_kind::StringKind;
use asn1_characters::CharacterSetName;

/// The kind of `PrintableString`.
#[derive(Clone, Copy, Debug)]
pub struct Printable;

impl StringKind for Printable {
    type T = u8;

    ghost NAME = { name };

    const NAME: CharacterSetName = CharacterSetName::Printable;

    ghost fits = { below_limit name 256 refl };

    ghost octets = { refl };
}

impl HasFromBytes for Printable {}

impl HasAsBytes for Printable {}

impl AsText for Printable {
    ghost is_ascii = { below_limit name 128 refl };
}

/// A `PrintableString` (X.680 41): letters, digits, the space and `'()+,-./:=?`.
pub type PrintableString = RestrictedString<Printable>;
