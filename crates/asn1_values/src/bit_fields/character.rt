//! A character as a field: its code in the width of its alphabet (X.691 30.5).

ghost use Rattle.std.specs.Prelude.{◌≡◌, Err, ◌+◌, ◌*◌, ◌<◌, ◌++◌, length, OnOk, IfOk, Ok, take, [], ◌∷◌, vec_len, vec_capacity};
ghost use Rattle.asn1_bits.specs.BitAppender.{room};
ghost use Rattle.asn1_bits.specs.BitReader.{bits_left};
ghost use Rattle.asn1_bits.specs.Bits.{bits, number};
ghost use Rattle.asn1_alphabets.specs.AlphabetView.{alphabet_of};
ghost use Rattle.asn1_values.specs.Fields as plain;
ghost use Rattle.asn1_values.specs.Steps.{HasRoomBehind, FitsWithin, Measures, Overwrites, ExaminesValue, AppendsNext, PushesIfFits};
ghost use Rattle.asn1_values.specs.Walk.{field_at};

use super::error::{ReadError, WriteError};
use super::field::Field;
use super::gathered::Gathered;
use super::number::overwrite_digits;
use super::take::take_few;
use asn1_alphabets::CharacterAlphabet;
use asn1_bits::{BitAppender, BitReader, Turns};

/// Returns the width of the alphabet, if it has a code for the character.
#[inline(always)]
pub(super) fn len_or_misfit(
    alphabet: &CharacterAlphabet<'_>,
    character: u32,
    field: usize,
) -> Result<u128, WriteError>
    ensures { Measures field (plain.Character (alphabet_of alphabet.now) character) result }
{
    match alphabet.encode(character) {
        Ok(_) => Ok(alphabet.width() as u128),
        Err(_) => Err(WriteError::Character { field, character }),
    }
}

/// Gathers a code of a character, if its alphabet has it. As many bits fit the room.
#[inline(always)]
pub(super) fn push(
    appender: &mut BitAppender<'_>,
    gathered: &mut Gathered,
    alphabet: &CharacterAlphabet<'_>,
    character: u32,
    turns: &mut Turns,
) -> Option<()>
    requires { HasRoomBehind (plain.Character (alphabet_of alphabet.now) character)
        gathered.old.width (room appender.old) }
    ensures { PushesIfFits (plain.Character (alphabet_of alphabet.now) character) appender.old
        appender.new gathered.old.word gathered.old.width gathered.new.word gathered.new.width
        turns.old.count turns.new.count result }
{
    match alphabet.encode(character) {
        Ok(code) => {
            gathered.add(appender, u64::from(code), alphabet.width(), turns);
            Some(())
        }
        Err(_) => None,
    }
}

/// Writes a code of a character over the old bits, and returns the bit after it.
pub(super) fn overwrite(
    target: &mut [u8],
    position: usize,
    alphabet: &CharacterAlphabet<'_>,
    character: u32,
) -> usize
    requires { FitsWithin (8 * length target.old) position
        (plain.Character (alphabet_of alphabet.now) character) }
    ensures { Overwrites (plain.Character (alphabet_of alphabet.now) character) position
        (bits target.old) (bits target.new) result }
{
    match alphabet.encode(character) {
        Ok(code) => overwrite_digits(target, position, u128::from(code), alphabet.width()),
        Err(_) => unreachable!(),
    }
}

/// Reads a character, and returns it, if the alphabet has one for the code.
#[inline(always)]
#[tactic(auto, unfolding(crate::specs::Walk::field_at, crate::specs::Walk::cut_at))]
pub(super) fn take_value(
    reader: &mut BitReader<'_>,
    alphabet: &CharacterAlphabet<'_>,
    field: usize,
) -> Result<u32, ReadError>
    ensures { let set = alphabet_of alphabet.now in
        ExaminesValue (plain.Character set) set.width field (plain.OfCharacter set) reader.old
        reader.new result }
{
    let width = alphabet.width();
    let front = take_few(reader, width, field)?;
    let code = front.first_bits(width);
    match alphabet.decode(code) {
        Ok(character) => Ok(character),
        Err(_) => Err(ReadError::Character { field, code }),
    }
}

/// Appends the next character to the fields, for which there is room.
pub(super) fn read_into<'a, 's>(
    fields: &mut Vec<Field<'a, 's>>,
    reader: &mut BitReader<'a>,
    alphabet: &CharacterAlphabet<'s>,
    field: usize,
) -> Result<(), ReadError>
    requires { vec_len fields.old < vec_capacity fields.old }
    ensures { AppendsNext (plain.OfCharacter (alphabet_of alphabet.now)) field reader.old reader.new
        fields.old fields.new result }
{
    let character = take_value(reader, alphabet, field)?;
    fields.push_reserved(Field::Character {
        character,
        alphabet: *alphabet,
    });
    Ok(())
}
