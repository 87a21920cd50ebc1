//! The base set that a string names.
use crate::character_set::CharacterSetName;

/// A type of string whose characters are in one of the eight base sets. It is all that the
/// alphabets of `asn1_alphabets` need of a string.
pub trait HasCharacterSet {
    ghost use Rattle.asn1_characters.specs.declared.character_set.CharacterSetName.{CharacterSetName};

    ghost CHARACTER_SET_NAME: { CharacterSetName };

    /// The name of the string.
    const CHARACTER_SET_NAME: CharacterSetName;
}
