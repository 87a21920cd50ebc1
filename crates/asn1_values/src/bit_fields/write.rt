//! Writing fields.

ghost use Rattle.std.specs.Prelude.{◌-◌, ◌≡◌, ◌≢◌, Bool, List, Err, ◌+◌, ◌*◌, ◌/◌, ◌^◌, ◌<◌, ◌≤◌, ◌++◌, min, length, OnOk, IfErr, OnErr, IsOk, IsOkUnless, MatchOption};
ghost use Rattle.std.specs.Int.{div_ceil};
ghost use Rattle.asn1_bits.specs.Bits.{AddsNoOctet, bits};
ghost use Rattle.asn1_bits.specs.BitAppender.{room};
ghost use Rattle.asn1_values.specs.Fields.{AreSpelledBy, HaveOneSpelling};
ghost use Rattle.asn1_values.specs.Plain.{plain_field, plain_fields};
ghost use Rattle.asn1_values.specs.Refusals.{IsWriteRefusal};
ghost use Rattle.asn1_values.specs.Steps.{TakesBits, HasLength, EndsAt, CanBeRefused, HasRoomBehind, HaveRoom, Measures, MeasuresAll, IsTheRefusal, AppendsFields, PushesAllIfFit, PushesIfFits};
ghost use Rattle.asn1_values.specs.Wrong.{Fits};

use super::error::WriteError;
use super::field::Field;
use super::gathered::Gathered;
use super::{bits, character, counted_integer, identifier, integer, number, octets};
use asn1_bits::{BitAppender, BitBuffer, Turns};

/// Appends the fields' bits to the buffer, one after another, in one growth.
///
/// # Errors
///
/// The first field that does not fit is named:
///
/// - `NumberWidth` if a width exceeds 128 bits, otherwise `Number` if the number does not fit it;
/// - `Character` if a character has no code in its alphabet;
/// - `IntegerLength` if a counted integer exceeds 127 octets;
/// - `ArcCount` if an identifier has one arc.
///
/// If all fit, it returns `TooLong` if the new length exceeds `usize::MAX` bits, otherwise `Memory`
/// if out of memory, never if no octet is added. After an error the buffer's bits are unchanged.
/// Codes of characters are looked up after the growth, so after `Character` the buffer may have
/// more capacity.
///
/// # Examples
///
/// ```
/// use asn1_values::{BitBuffer, Field, write_fields};
///
/// let mut buffer = BitBuffer::new(rt.alloc());
/// let version = Field::Number { value: 5, width: 3 };
/// let length = Field::Number { value: 9, width: 8 };
/// write_fields(&mut buffer, &[version, length])?;
/// assert!(rt; buffer.as_bytes() == [0b1010_0001, 0b0010_0000].as_slice());
/// ```
pub fn write_fields(buffer: &mut BitBuffer, fields: &[Field<'_, '_>]) -> Result<(), WriteError>
    // The old bits are followed by a concatenation of the fields' encodings.
    ensures written { OnOk result ((list : List Bool) × AreSpelledBy (plain_fields fields.now) list
        × (buffer.new ≡ buffer.old ++ list)) }
    // It is the one concatenation, if no alphabet has a character with two codes.
    ensures one { HaveOneSpelling (plain_fields fields.now)
        → (list : List Bool) → AreSpelledBy (plain_fields fields.now) list
        → OnOk result (buffer.new ≡ buffer.old ++ list) }

    // If all fit, the error is `TooLong` exactly if the new length exceeds `usize::MAX`, and
    // otherwise `Memory`; it allocates only if an octet is added.
    ensures too_long { (list : List Bool) → AreSpelledBy (plain_fields fields.now) list
        → 2 ^ 64 ≤ length buffer.old + length list → result ≡ Err WriteError.TooLong }
    ensures accepted { (list : List Bool) → AreSpelledBy (plain_fields fields.now) list
        → length buffer.old + length list < 2 ^ 64 → IsOkUnless result WriteError.Memory }
    ensures free { (list : List Bool) → AreSpelledBy (plain_fields fields.now) list
        → length buffer.old + length list < 2 ^ 64 → AddsNoOctet (length buffer.old) (length list)
        → IsOk result }

    // An error names the first field that doesn't fit, with its reason; where all fit, the new
    // length or memory. The error is unique: if a cause other than memory applies, exactly that
    // one is named, independent of allocation.
    ensures refused { IfErr result (IsWriteRefusal (length buffer.old) (plain_fields fields.now)) }
    ensures named { (e : WriteError) → e ≢ WriteError.Memory
        → IsWriteRefusal (length buffer.old) (plain_fields fields.now) e → result ≡ Err e }
    ensures unchanged { OnErr result (buffer.new ≡ buffer.old) }
{
    write_fields_counted(buffer, fields, &mut Turns::new())
}

/// Appends the fields' bits as `write_fields` does, and counts turns: for b bits of F fields at
/// least b / 64, rounded up, and at most b / 64 + 8 * F.
///
/// # Errors
///
/// Returns the errors of `write_fields`. After an error the buffer's bits and the turns are
/// unchanged.
pub fn write_fields_counted(
    buffer: &mut BitBuffer,
    fields: &[Field<'_, '_>],
    turns: &mut Turns,
) -> Result<(), WriteError>
    ensures written { OnOk result ((list : List Bool) × AreSpelledBy (plain_fields fields.now) list
        × (buffer.new ≡ buffer.old ++ list)) }
    ensures one { HaveOneSpelling (plain_fields fields.now)
        → (list : List Bool) → AreSpelledBy (plain_fields fields.now) list
        → OnOk result (buffer.new ≡ buffer.old ++ list) }
    ensures too_long { (list : List Bool) → AreSpelledBy (plain_fields fields.now) list
        → 2 ^ 64 ≤ length buffer.old + length list → result ≡ Err WriteError.TooLong }
    ensures accepted { (list : List Bool) → AreSpelledBy (plain_fields fields.now) list
        → length buffer.old + length list < 2 ^ 64 → IsOkUnless result WriteError.Memory }
    ensures free { (list : List Bool) → AreSpelledBy (plain_fields fields.now) list
        → length buffer.old + length list < 2 ^ 64 → AddsNoOctet (length buffer.old) (length list)
        → IsOk result }
    ensures refused { IfErr result (IsWriteRefusal (length buffer.old) (plain_fields fields.now)) }
    ensures named { (e : WriteError) → e ≢ WriteError.Memory
        → IsWriteRefusal (length buffer.old) (plain_fields fields.now) e → result ≡ Err e }
    ensures unchanged { OnErr result (buffer.new ≡ buffer.old) }

    // For b bits of F fields it takes at least b / 64 turns, rounded up, and at most b / 64 + 8 *
    // F.
    ensures turns_at_least { (list : List Bool) → AreSpelledBy (plain_fields fields.now) list
        → OnOk result (turns.old.count + div_ceil (length list) 64 ≤ turns.new.count) }
    ensures turns_at_most { (list : List Bool) → AreSpelledBy (plain_fields fields.now) list
        → OnOk result
        (turns.new.count ≤ turns.old.count + length list / 64 + 8 * length fields.now) }
    ensures turns_unchanged { OnErr result (turns.new.count ≡ turns.old.count) }
{
    match append_all(buffer, fields, turns) {
        Some(()) => Ok(()),
        None => Err(refusal_of(buffer.len(), fields)),
    }
}

/// Appends the fields' bits. `None` if a field or the new length does not fit, or memory fails;
/// then nothing has changed. Characters are checked when their code is pushed, to avoid a second
/// lookup.
#[inline(always)]
fn append_all(buffer: &mut BitBuffer, fields: &[Field<'_, '_>], turns: &mut Turns) -> Option<()>
    ensures { AppendsFields (plain_fields fields.now) buffer.old buffer.new turns.old.count
        turns.new.count result }
{
    let len = buffer.len();
    let end = append_end_if_all_fit(len, fields)?;
    let mut taken = Turns::new();
    let Ok(mut appender) = buffer.appender(end - len) else {
        return None;
    };
    match push_all(&mut appender, fields, &mut taken) {
        Some(()) => {
            turns.add(&taken);
            Some(())
        }
        None => {
            buffer.truncate(len);
            None
        }
    }
}

/// Picks the error to report: the first field that does not fit, otherwise the new length,
/// otherwise `Memory`.
#[cold]
#[inline(never)]
fn refusal_of(len: usize, fields: &[Field<'_, '_>]) -> WriteError
    requires { CanBeRefused len (plain_fields fields.now) }
    ensures { IsTheRefusal len (plain_fields fields.now) result }
{
    match end_or_misfit(len, fields) {
        Err(misfit) => misfit,
        Ok(end) if end > usize::MAX as u128 => WriteError::TooLong,
        Ok(_) => WriteError::Memory,
    }
}

/// Returns the length after the fields, without checking that characters have codes. `None` if a
/// field of another kind does not fit, or the length exceeds `usize::MAX`.
#[inline(always)]
fn append_end_if_all_fit(len: usize, fields: &[Field<'_, '_>]) -> Option<usize>
    ensures { MatchOption result
        ((list : List Bool) → AreSpelledBy (plain_fields fields.now) list → 2 ^ 64 ≤ len
        + length list)
        (EndsAt TakesBits len (plain_fields fields.now)) }
{
    let mut end = len;
    for field in fields {
        end = end_after(end, len_if_fits(field)?)?;
    }
    Some(end)
}

/// Returns the end of `additional` bits after another end. `None` if it exceeds `usize::MAX`.
#[inline(always)]
pub(super) fn end_after(end: usize, additional: u128) -> Option<usize>
    ensures { MatchOption result (2 ^ 64 ≤ end + additional) (λ n. n ≡ end + additional) }
{
    if additional > usize::MAX as u128 {
        return None;
    }
    let (sum, is_past) = end.overflowing_add(additional as usize);
    if is_past {
        return None;
    }
    Some(sum)
}

/// Returns the number of a field's bits: the alphabet's width for a character; for another kind the
/// bits that encode it, if it fits.
#[inline(always)]
fn len_if_fits(field: &Field<'_, '_>) -> Option<u128>
    ensures { MatchOption result (Fits (plain_field field.now) → ⊥)
        (HasLength TakesBits (plain_field field.now)) }
{
    match field {
        Field::Character { alphabet, .. } => Some(alphabet.width() as u128),
        other => len_or_misfit(other, 0).ok(),
    }
}

/// Returns the length after the fields, if all fit. The sum saturates at `u128::MAX`, and later
/// fields are still examined.
#[inline(always)]
pub(super) fn end_or_misfit(len: usize, fields: &[Field<'_, '_>]) -> Result<u128, WriteError>
    ensures { MeasuresAll len (plain_fields fields.now) result }
{
    let mut end = len as u128;
    for (i, field) in fields.iter().enumerate() {
        end = sum_of(end, len_or_misfit(field, i)?);
    }
    Ok(end)
}

/// Returns the sum of two lengths, saturating.
#[inline(always)]
fn sum_of(one: u128, other: u128) -> u128
    ensures { result ≡ min (one + other) (2 ^ 128 - 1) }
{
    match one.checked_add(other) {
        Some(sum) => sum,
        None => past_all_lengths(one, other),
    }
}

/// Returns the sum for `sum_of`. Cold: the lengths of fields in memory never get there.
#[cold]
#[inline(never)]
fn past_all_lengths(one: u128, other: u128) -> u128
    ensures { result ≡ min (one + other) (2 ^ 128 - 1) }
{
    one.saturating_add(other)
}

/// Returns the number of a field's bits, if it fits.
#[inline(always)]
pub(super) fn len_or_misfit(field: &Field<'_, '_>, index: usize) -> Result<u128, WriteError>
    ensures { Measures index (plain_field field.now) result }
{
    match field {
        Field::Number { value, width } => number::len_or_misfit(*value, *width, index),
        Field::Octets(octets) => Ok(octets::len_or_misfit(octets)),
        Field::Bits(bits) => Ok(bits::len_or_misfit(bits)),
        Field::Integer(number) => Ok(integer::len_or_misfit(number)),
        Field::Character {
            character,
            alphabet,
        } => character::len_or_misfit(alphabet, *character, index),
        Field::CountedInteger(number) => counted_integer::len_or_misfit(number, index),
        Field::Oid(oid) => identifier::len_or_misfit(oid, index),
    }
}

/// Pushes fields whose bits fit the room, up to the first character that its alphabet lacks. Short
/// fields are gathered, and pushed as one word.
#[inline(always)]
fn push_all(
    appender: &mut BitAppender<'_>,
    fields: &[Field<'_, '_>],
    turns: &mut Turns,
) -> Option<()>
    requires { HaveRoom (plain_fields fields.now) (room appender.old) }
    ensures { PushesAllIfFit (plain_fields fields.now) appender.old appender.new turns.old.count
        turns.new.count result }
{
    let mut gathered = Gathered::none();
    for field in fields {
        push(appender, &mut gathered, field, turns)?;
    }
    gathered.push(appender, turns);
    Some(())
}

/// Pushes or gathers a field whose bits fit the room after those that are gathered; a character
/// only if its alphabet has it.
#[inline(always)]
fn push(
    appender: &mut BitAppender<'_>,
    gathered: &mut Gathered,
    field: &Field<'_, '_>,
    turns: &mut Turns,
) -> Option<()>
    requires { HasRoomBehind (plain_field field.now) gathered.old.width (room appender.old) }
    ensures { PushesIfFits (plain_field field.now) appender.old appender.new gathered.old.word
        gathered.old.width gathered.new.word gathered.new.width turns.old.count turns.new.count
        result }
{
    match field {
        Field::Number { value, width } => number::push(appender, gathered, *value, *width, turns),
        Field::Character {
            character,
            alphabet,
        } => return character::push(appender, gathered, alphabet, *character, turns),
        Field::Octets(octets) => octets::push(appender, gathered, octets, turns),
        Field::Bits(bits) => bits::push(appender, gathered, bits, turns),
        Field::Integer(number) => {
            gathered.push(appender, turns);
            integer::push(appender, number, turns);
        }
        Field::CountedInteger(number) => {
            gathered.push(appender, turns);
            counted_integer::push(appender, number, turns);
        }
        Field::Oid(oid) => {
            gathered.push(appender, turns);
            identifier::push(appender, oid, turns);
        }
    }
    Some(())
}
