//! The kinds of string: what distinguishes the eight.
ghost use Rattle.std.specs.Prelude.{◌≡◌, ◌<◌, ℕ, true};
ghost use Rattle.asn1_characters.specs.Sets.{base_set, has_character};
ghost use Rattle.asn1_strings.specs.Strings.{character_octets};

use crate::code_unit::CodeUnit;
use asn1_characters::CharacterSetName;
use std::fmt;

/// One of the eight kinds of string: a marker type without values.
pub trait StringKind: fmt::Debug {
    ghost use Rattle.asn1_characters.specs.declared.character_set.CharacterSetName.{CharacterSetName};

    /// The integer that keeps a character.
    type T: CodeUnit;

    ghost NAME: { CharacterSetName };

    /// The name of the string.
    const NAME: CharacterSetName;

    /// Every character of the set can be kept.
    ghost fits: { (c : ℕ) → has_character (base_set NAME) c ≡ true → c < Self.T.limit };

    /// A character has the number of octets that the standard says.
    ghost octets: { Self.T.OCTETS ≡ character_octets NAME };
}
