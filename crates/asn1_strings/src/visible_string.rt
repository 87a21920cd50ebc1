//! `VisibleString`.
ghost use Rattle.std.specs.Prelude.{refl};
ghost use Rattle.asn1_characters.specs.Laws.SetLaws.{below_limit};
ghost use Rattle.asn1_characters.specs.declared.character_set.CharacterSetName.TheVariants.{Visible as name};

use crate::octet_kinds::{AsText, IsIso646};
use crate::restricted_string::RestrictedString;
use crate::string_kind::StringKind;
use asn1_characters::CharacterSetName;

/// The kind of `VisibleString`.
#[derive(Clone, Copy, Debug)]
pub struct Visible;

impl StringKind for Visible {
    type T = u8;

    ghost NAME = { name };

    const NAME: CharacterSetName = CharacterSetName::Visible;

    ghost fits = { below_limit name 256 refl };

    ghost octets = { refl };
}

impl AsText for Visible {
    ghost is_ascii = { below_limit name 128 refl };
}

impl IsIso646 for Visible {}

/// A `VisibleString` (X.680 41): 20 to 7E.
pub type VisibleString = RestrictedString<Visible>;
