//! Fields of the caller's octets, from any bit on.

ghost use Rattle.std.specs.Prelude.{◌≡◌, ◌≢◌, ◌↔◌, ◌+◌, ◌-◌, ◌*◌, ◌/◌, ◌^◌, ◌<◌, ◌≤◌, ◌⊎◌, Some, None, length, take, drop, IfOk, IfErr, OnOk, MatchOption};
ghost use Rattle.std.specs.Option.{option_map};
ghost use Rattle.asn1_bits.specs.Bits.{bits, number};
ghost use Rattle.asn1_values.specs.Fields as plain;
ghost use Rattle.asn1_values.specs.Plain.{plain_shape};
ghost use Rattle.asn1_c.specs.Sets.{alphabet_at};
ghost use Rattle.asn1_c.specs.Fields.{IsSpelledAt, NamesReason, IsReadAt, AreReadAt, IsRefusal, IsRefusedAt, number_of_words, end_of, shape_named};

use crate::alphabets::Alphabet;
use crate::character_fields::read_character;
use crate::codes::{DONE, OUTSIDE, ROOM, SHAPE, SHORT, TOO_MANY, WIDTH};
use crate::identifier_fields::read_identifier;
use crate::integer_fields::{read_counted, read_integer};
use asn1_values::{Shape as Known, read_wide};

/// What C says of a field before it is read: `kind` is 0 for a number of `count` bits, 1 for
/// `count` octets, 2 for `count` bits, 3 for an integer of `count` octets, 4 for an integer after
/// an octet that counts its octets, 5 for a character of the alphabet at the index `count`, and 6
/// for an identifier whose contents have `count` octets.
#[repr(C)]
#[derive(Clone, Copy, Debug)]
pub struct Shape {
    /// Which kind of field it is.
    pub kind: u32,
    /// How many bits or octets, or the index of the alphabet.
    pub count: usize,
}

/// A field: where its bits lie, and its number: that of a number, of an integer of up to sixteen
/// octets in two's complement, or of a character with its code above.
#[repr(C)]
#[derive(Clone, Copy, Debug)]
pub struct Field {
    /// Its first bit.
    pub first: usize,
    /// How many bits.
    pub length: usize,
    /// The upper 64 bits of a number or an integer, the code of a character, otherwise 0.
    pub high: u64,
    /// The lower 64 bits, a character, otherwise 0.
    pub low: u64,
}

/// The first invalid field, counted from 0, and its reason, with the number that the reason has.
#[repr(C)]
#[derive(Clone, Copy, Debug)]
pub struct Refusal {
    /// The reason.
    pub code: u32,
    /// Which field.
    pub field: usize,
    /// The upper 64 bits of the number that the reason has, otherwise 0.
    pub high: u64,
    /// The lower 64 bits.
    pub low: u64,
}

impl Refusal {
    /// Returns an error with a number.
    pub(crate) fn with(code: u32, field: usize, number: u128) -> Refusal
        ensures code { result.code ≡ code }
        ensures field { result.field ≡ field }
        ensures number { number_of_words result.high result.low ≡ number }
    {
        Refusal {
            code,
            field,
            high: (number >> 64) as u64,
            low: (number % (1 << 64)) as u64,
        }
    }
}

/// Returns a field of `need` bits from an index on, without a number, if the octets have them.
pub(crate) fn field_at(octets: &[u8], at: usize, need: u128, field: usize) -> Result<Field, Refusal>
    requires few { 8 * length octets.now < 2 ^ 64 }
    requires within { at ≤ 8 * length octets.now }
    requires small { need < 2 ^ 70 }
    ensures bits { IfOk result (λ f. (f.first ≡ at) × (f.length ≡ need)) }
    ensures enough { OnOk result (at + need ≤ 8 * length octets.now) }
    ensures no_number { IfOk result (λ f. (f.high ≡ 0) × (f.low ≡ 0)) }
    ensures code { IfErr result (λ r. (r.code ≡ 15) × (r.field ≡ field)) }
    ensures short { IfErr result (λ r. (8 * length octets.now < at + need)
        × (number_of_words r.high r.low ≡ at + need - 8 * length octets.now)) }
{
    let bits = 8 * (octets.len() as u128);
    let end = at as u128 + need;
    if end > bits {
        return Err(Refusal::with(SHORT, field, end - bits));
    }
    Ok(Field {
        first: at,
        length: need as usize,
        high: 0,
        low: 0,
    })
}

impl Field {
    /// Returns the number.
    pub(crate) fn number(&self) -> u128
        ensures { result ≡ number_of_words self.now.high self.now.low }
    {
        u128::from(self.high) * (1 << 64) + u128::from(self.low)
    }

    /// Returns the field with another number.
    pub(crate) fn with_number(&self, number: u128) -> Field
        ensures place { (result.first ≡ self.now.first) × (result.length ≡ self.now.length) }
        ensures number { number_of_words result.high result.low ≡ number }
    {
        Field {
            high: (number >> 64) as u64,
            low: (number % (1 << 64)) as u64,
            ..*self
        }
    }
}

/// Reads a number.
fn read_number(octets: &[u8], at: usize, width: usize, field: usize) -> Result<Field, Refusal>
    requires few { 8 * length octets.now < 2 ^ 64 }
    requires within { at ≤ 8 * length octets.now }
    ensures read { IfOk result (IsSpelledAt octets.now at (plain.OfNumber width)) }
    ensures refused { IfErr result
        (NamesReason (plain.OfNumber width) (drop at (bits octets.now))) }
    ensures field { IfErr result (λ r. r.field ≡ field) }
{
    if width > 128 {
        return Err(Refusal::with(WIDTH, field, width as u128));
    }
    match field_at(octets, at, width as u128, field) {
        Ok(place) => Ok(place.with_number(read_wide(octets, at, width))),
        Err(refusal) => Err(refusal),
    }
}

/// Reads octets.
fn read_octets(octets: &[u8], at: usize, count: usize, field: usize) -> Result<Field, Refusal>
    requires few { 8 * length octets.now < 2 ^ 64 }
    requires within { at ≤ 8 * length octets.now }
    ensures read { IfOk result (IsSpelledAt octets.now at (plain.OfOctets count)) }
    ensures refused { IfErr result
        (NamesReason (plain.OfOctets count) (drop at (bits octets.now))) }
    ensures field { IfErr result (λ r. r.field ≡ field) }
{
    field_at(octets, at, 8 * (count as u128), field)
}

/// Reads bits.
fn read_bits(octets: &[u8], at: usize, count: usize, field: usize) -> Result<Field, Refusal>
    requires few { 8 * length octets.now < 2 ^ 64 }
    requires within { at ≤ 8 * length octets.now }
    ensures read { IfOk result (IsSpelledAt octets.now at (plain.OfBits count)) }
    ensures refused { IfErr result
        (NamesReason (plain.OfBits count) (drop at (bits octets.now))) }
    ensures field { IfErr result (λ r. r.field ≡ field) }
{
    field_at(octets, at, count as u128, field)
}

/// Returns the shape that the numbers name.
pub(crate) fn known_shape<'s>(alphabets: &[Alphabet<'s>], shape: &Shape) -> Option<Known<'s>>
    ensures { MatchOption result (shape_named alphabets.now shape.now ≡ None)
        (λ s. shape_named alphabets.now shape.now ≡ Some (plain_shape s)) }
{
    match shape.kind {
        0 => Some(Known::Number { width: shape.count }),
        1 => Some(Known::Octets { count: shape.count }),
        2 => Some(Known::Bits {
            length: shape.count,
        }),
        3 => Some(Known::Integer {
            octets: shape.count,
        }),
        4 => Some(Known::CountedInteger),
        5 => character_shape(alphabets, shape.count),
        6 => Some(Known::Oid {
            octets: shape.count,
        }),
        _ => None,
    }
}

/// Returns the shape of a character of the alphabet at an index.
fn character_shape<'s>(alphabets: &[Alphabet<'s>], place: usize) -> Option<Known<'s>>
    ensures { MatchOption result (alphabet_at alphabets.now place ≡ None)
        (λ s. option_map (λ a. plain.OfCharacter a) (alphabet_at alphabets.now place)
        ≡ Some (plain_shape s)) }
{
    let Some(alphabet) = alphabets.get(place) else {
        return None;
    };
    match alphabet.read() {
        Some(alphabet) => Some(Known::Character { alphabet }),
        None => None,
    }
}

/// Reads a field of the shape, if one begins there.
pub(crate) fn read_known(
    octets: &[u8],
    at: usize,
    shape: &Known<'_>,
    field: usize,
) -> Result<Field, Refusal>
    requires few { 8 * length octets.now < 2 ^ 64 }
    requires within { at ≤ 8 * length octets.now }
    ensures read { IfOk result (IsSpelledAt octets.now at (plain_shape shape.now)) }
    ensures refused { IfErr result
        (NamesReason (plain_shape shape.now) (drop at (bits octets.now))) }
    ensures field { IfErr result (λ r. r.field ≡ field) }
{
    match shape {
        Known::Number { width } => read_number(octets, at, *width, field),
        Known::Octets { count } => read_octets(octets, at, *count, field),
        Known::Bits { length } => read_bits(octets, at, *length, field),
        Known::Integer { octets: count } => read_integer(octets, at, *count, field),
        Known::Character { alphabet } => read_character(octets, at, alphabet, field),
        Known::CountedInteger => read_counted(octets, at, field),
        Known::Oid { octets: count } => read_identifier(octets, at, *count, field),
    }
}

/// Reads a field of the shape that the numbers name, if one begins there.
fn read_one(
    octets: &[u8],
    at: usize,
    alphabets: &[Alphabet<'_>],
    shape: &Shape,
    field: usize,
) -> Result<Field, Refusal>
    requires few { 8 * length octets.now < 2 ^ 64 }
    requires within { at ≤ 8 * length octets.now }
    ensures read { IfOk result (IsReadAt octets.now alphabets.now at shape.now) }
    ensures end { IfOk result (λ f. end_of f ≤ 8 * length octets.now) }
    ensures refused { IfErr result
        (IsRefusal alphabets.now shape.now (drop at (bits octets.now))) }
    ensures codes { IfErr result
        (λ r. (r.code ≢ 0) × (r.code ≢ 1) × (r.code ≢ 3) × (r.code ≢ 23)) }
    ensures field { IfErr result (λ r. r.field ≡ field) }
{
    match known_shape(alphabets, shape) {
        Some(known) => read_known(octets, at, &known, field),
        None => Err(Refusal::with(SHAPE, field, 0)),
    }
}

/// Reads fields of the shapes one after another from bit `position` on, and returns the first bit
/// after them. An error names the first invalid field; those before it were read.
#[unsafe(no_mangle)]
pub extern "C" fn asn1v_read_fields(
    octets: &[u8],
    position: usize,
    alphabets: &[Alphabet<'_>],
    shapes: &[Shape],
    fields: &mut [Field],
    end: &mut usize,
    refusal: &mut Refusal,
) -> u32
    ensures read { result ≡ 0 → AreReadAt octets.now alphabets.now position shapes.now
        (take (length shapes.now) fields.new) end.new }
    ensures refused { result ≢ 0 → result ≢ 1 → result ≢ 3 → result ≢ 23
        → IsRefusedAt octets.now alphabets.now position shapes.now fields.new refusal.new }
    ensures code { result ≢ 0 → result ≢ 1 → result ≢ 3 → result ≢ 23 → refusal.new.code ≡ result }
    ensures too_many { result ≡ 23 ↔ (2 ^ 64 ≤ 8 * length octets.now) }
    ensures outside { result ≡ 1 → 8 * length octets.now < position }
    ensures room { result ≡ 3 → length fields.old < length shapes.now }
    ensures within { result ≢ 23 → result ≢ 1 → position ≤ 8 * length octets.now }
    ensures enough { result ≢ 23 → result ≢ 1 → result ≢ 3
        → length shapes.now ≤ length fields.old }
    ensures same_length { length fields.new ≡ length fields.old }
    // After what was read nothing changes.
    ensures rest { result ≡ 0
        → drop (length shapes.now) fields.new ≡ drop (length shapes.now) fields.old }
    ensures kept_fields { result ≢ 0 → result ≢ 1 → result ≢ 3 → result ≢ 23
        → drop refusal.new.field fields.new ≡ drop refusal.new.field fields.old }
    ensures kept_end { result ≢ 0 → end.new ≡ end.old }
    ensures kept_refusal { result ≡ 0 → refusal.new ≡ refusal.old }
    // If nothing was read, `refusal` and the fields are unchanged.
    ensures same_refusal { (result ≡ 1) ⊎ ((result ≡ 3) ⊎ (result ≡ 23)) → refusal.new
        ≡ refusal.old }
    ensures same_fields { (result ≡ 1) ⊎ ((result ≡ 3) ⊎ (result ≡ 23)) → fields.new ≡ fields.old }
{
    let Some(bits) = octets.len().checked_mul(8) else {
        return TOO_MANY;
    };
    if position > bits {
        return OUTSIDE;
    }
    if shapes.len() > fields.len() {
        return ROOM;
    }
    let mut at = position;
    for (i, shape) in shapes.iter().enumerate() {
        match read_one(octets, at, alphabets, shape, i) {
            Ok(field) => {
                fields[i] = field;
                at = field.first + field.length;
            }
            Err(found) => {
                *refusal = found;
                return found.code;
            }
        }
    }
    *end = at;
    DONE
}
