//! How fields are written: by an octet, a number, and bits of the source, of each maybe none.

ghost use Rattle.std.specs.Prelude.{◌≡◌, ◌+◌, ◌*◌, ◌^◌, ◌<◌, ◌≤◌, ℕ, List, length, IfOk, IfErr};
ghost use Rattle.asn1_bits.specs.Bits.{bits, overwritten};
ghost use Rattle.asn1_alphabets.specs.AlphabetView.{alphabet_of};
ghost use Rattle.asn1_values.specs.Fields as plain;
ghost use Rattle.asn1_values.specs.Plain.{plain_shape};
ghost use Rattle.asn1_c.specs.Writing.{IsNamedAs, IsWrong, IsMisplaced, IsSound, planned};

use crate::bits::fits_width;
use crate::codes::{CHARACTER, LENGTH, OUTSIDE, OVERFLOW, WIDTH};
use crate::fields::{Field, Refusal};
use crate::identifier_fields::read_identifier;
use crate::integer_fields::{read_counted, read_integer, shortest_word};
use asn1_values::{
    BitStr, CharacterAlphabet, Shape as Known, Turns, overwrite_bitslice, overwrite_number,
};

/// What is written for a field: `lead` digits of an octet, `width` digits of a number, and bits of
/// the source.
#[derive(Clone, Copy)]
pub(crate) struct Plan {
    pub(crate) octet: u8,
    pub(crate) lead: usize,
    pub(crate) number: u128,
    pub(crate) width: usize,
    pub(crate) first: usize,
    pub(crate) length: usize,
}

impl Plan {
    /// Makes a plan of digits of a number alone.
    fn of_number(number: u128, width: usize) -> Plan
        ensures number { (result.number ≡ number) × (result.width ≡ width) }
        ensures no_octet { result.lead ≡ 0 }
        ensures no_bits { (result.first ≡ 0) × (result.length ≡ 0) }
    {
        Plan {
            octet: 0,
            lead: 0,
            number,
            width,
            first: 0,
            length: 0,
        }
    }

    /// Makes a plan of bits of the source alone.
    fn of_bits(first: usize, length: usize) -> Plan
        ensures bits { (result.first ≡ first) × (result.length ≡ length) }
        ensures no_octet { result.lead ≡ 0 }
        ensures no_number { result.width ≡ 0 }
    {
        Plan {
            octet: 0,
            lead: 0,
            number: 0,
            width: 0,
            first,
            length,
        }
    }

    /// Returns how many bits are written.
    pub(crate) fn len(&self) -> u128
        ensures { result ≡ self.now.lead + self.now.width + self.now.length }
    {
        self.lead as u128 + self.width as u128 + self.length as u128
    }

    /// Writes the bits over those of the target from a bit on, and returns the bit after them.
    pub(crate) fn put(&self, target: &mut [u8], at: usize, source: &[u8]) -> usize
        requires sound { IsSound source.now self.now }
        requires within { at + length (planned source.now self.now) ≤ 8 * length target.old }
        requires fits { at + length (planned source.now self.now) < 2 ^ 64 }
        ensures written { bits target.new
            ≡ overwritten (bits target.old) at (planned source.now self.now) }
        ensures end { result ≡ at + length (planned source.now self.now) }
    {
        overwrite_number(
            target,
            at,
            u128::from(self.octet),
            self.lead,
            &mut Turns::new(),
        );
        let behind = at + self.lead;
        overwrite_number(target, behind, self.number, self.width, &mut Turns::new());
        let last = behind + self.width;
        match BitStr::new(source, self.first, self.length) {
            Some(view) => overwrite_bitslice(target, last, view, &mut Turns::new()),
            None => unreachable!(),
        }
        last + self.length
    }
}

/// Returns the plan of a field of the shape, if there is one.
pub(crate) fn plan_of(
    source: &[u8],
    shape: &Known<'_>,
    field: &Field,
    place: usize,
) -> Result<Plan, Refusal>
    requires few { 8 * length source.now < 2 ^ 64 }
    ensures sound { IfOk result (IsSound source.now) }
    ensures named { IfOk result (λ p. IsNamedAs source.now (plain_shape shape.now) field.now
        (planned source.now p)) }
    ensures wrong { IfErr result (IsWrong source.now (plain_shape shape.now) field.now) }
    ensures place { IfErr result (λ r. r.field ≡ place) }
{
    match shape {
        Known::Number { width } => plan_number(field, *width, place),
        Known::Octets { count } => plan_octets(source, field, *count, place),
        Known::Bits { length } => plan_bits(source, field, *length, place),
        Known::Integer { octets } => plan_integer(source, field, *octets, place),
        Known::Character { alphabet } => plan_character(field, alphabet, place),
        Known::CountedInteger => plan_counted(source, field, place),
        Known::Oid { octets } => plan_identifier(source, field, *octets, place),
    }
}

/// Returns the plan of a number.
fn plan_number(field: &Field, width: usize, place: usize) -> Result<Plan, Refusal>
    ensures sound { (source : List ℕ) → IfOk result (IsSound source) }
    ensures named { (source : List ℕ) → IfOk result (λ p. IsNamedAs source (plain.OfNumber width)
        field.now (planned source p)) }
    ensures wrong { (source : List ℕ) → IfErr result
        (IsWrong source (plain.OfNumber width) field.now) }
    ensures place { IfErr result (λ r. r.field ≡ place) }
{
    if width > 128 {
        return Err(Refusal::with(WIDTH, place, width as u128));
    }
    let number = field.number();
    if !fits_width(number, width) {
        return Err(Refusal::with(OVERFLOW, place, 0));
    }
    Ok(Plan::of_number(number, width))
}

/// Returns the plan of bits of the source, if they are as many as are needed, and it has them.
fn plan_placed(source: &[u8], field: &Field, need: u128, place: usize) -> Result<Plan, Refusal>
    ensures bits { IfOk result (λ p. (p.first ≡ field.now.first) × (p.length ≡ field.now.length)
        × (p.lead ≡ 0) × (p.width ≡ 0)) }
    ensures lies { IfOk result (λ p. (p.length ≡ need)
        × (p.first + p.length ≤ 8 * length source.now) × (p.length < 2 ^ 64)) }
    ensures wrong { IfErr result (IsMisplaced source.now need field.now) }
    ensures place { IfErr result (λ r. r.field ≡ place) }
{
    if field.length as u128 != need {
        return Err(Refusal::with(LENGTH, place, field.length as u128));
    }
    if field.first as u128 + need > 8 * (source.len() as u128) {
        return Err(Refusal::with(OUTSIDE, place, 0));
    }
    Ok(Plan::of_bits(field.first, field.length))
}

/// Returns the plan of octets.
fn plan_octets(source: &[u8], field: &Field, count: usize, place: usize) -> Result<Plan, Refusal>
    ensures sound { IfOk result (IsSound source.now) }
    ensures named { IfOk result (λ p. IsNamedAs source.now (plain.OfOctets count) field.now
        (planned source.now p)) }
    ensures wrong { IfErr result (IsWrong source.now (plain.OfOctets count) field.now) }
    ensures place { IfErr result (λ r. r.field ≡ place) }
{
    plan_placed(source, field, 8 * (count as u128), place)
}

/// Returns the plan of bits.
fn plan_bits(source: &[u8], field: &Field, count: usize, place: usize) -> Result<Plan, Refusal>
    ensures sound { IfOk result (IsSound source.now) }
    ensures named { IfOk result (λ p. IsNamedAs source.now (plain.OfBits count) field.now
        (planned source.now p)) }
    ensures wrong { IfErr result (IsWrong source.now (plain.OfBits count) field.now) }
    ensures place { IfErr result (λ r. r.field ≡ place) }
{
    plan_placed(source, field, count as u128, place)
}

/// Returns the plan of an integer: of its number where its length says at most sixteen octets,
/// otherwise of the bits of the source.
fn plan_integer(source: &[u8], field: &Field, count: usize, place: usize) -> Result<Plan, Refusal>
    requires few { 8 * length source.now < 2 ^ 64 }
    ensures sound { IfOk result (IsSound source.now) }
    ensures named { IfOk result (λ p. IsNamedAs source.now (plain.OfInteger count) field.now
        (planned source.now p)) }
    ensures wrong { IfErr result (IsWrong source.now (plain.OfInteger count) field.now) }
    ensures place { IfErr result (λ r. r.field ≡ place) }
{
    if field.length <= 128 {
        let (number, octets) = shortest_word(field.number());
        if octets != count {
            return Err(Refusal::with(LENGTH, place, octets as u128));
        }
        return Ok(Plan::of_number(number, 8 * octets));
    }
    match plan_placed(source, field, 8 * (count as u128), place) {
        Ok(plan) => match read_integer(source, field.first, count, place) {
            Ok(_) => Ok(plan),
            Err(refusal) => Err(refusal),
        },
        Err(refusal) => Err(refusal),
    }
}

/// Returns the plan of an integer after the octet that counts its octets.
fn plan_counted(source: &[u8], field: &Field, place: usize) -> Result<Plan, Refusal>
    requires few { 8 * length source.now < 2 ^ 64 }
    ensures sound { IfOk result (IsSound source.now) }
    ensures named { IfOk result (λ p. IsNamedAs source.now plain.OfCountedInteger field.now
        (planned source.now p)) }
    ensures wrong { IfErr result (IsWrong source.now plain.OfCountedInteger field.now) }
    ensures place { IfErr result (λ r. r.field ≡ place) }
{
    if field.length <= 136 {
        let (number, octets) = shortest_word(field.number());
        return Ok(Plan {
            octet: octets as u8,
            lead: 8,
            ..Plan::of_number(number, 8 * octets)
        });
    }
    if field.first as u128 + field.length as u128 > 8 * (source.len() as u128) {
        return Err(Refusal::with(OUTSIDE, place, 0));
    }
    match read_counted(source, field.first, place) {
        Ok(found) => {
            if found.length != field.length {
                return Err(Refusal::with(LENGTH, place, field.length as u128));
            }
            Ok(Plan::of_bits(field.first, field.length))
        }
        Err(refusal) => Err(refusal),
    }
}

/// Returns the plan of a character.
fn plan_character(
    field: &Field,
    alphabet: &CharacterAlphabet<'_>,
    place: usize,
) -> Result<Plan, Refusal>
    ensures sound { (source : List ℕ) → IfOk result (IsSound source) }
    ensures named { (source : List ℕ) → IfOk result
        (λ p. IsNamedAs source (plain.OfCharacter (alphabet_of alphabet.now)) field.now
        (planned source p)) }
    ensures wrong { (source : List ℕ) → IfErr result
        (IsWrong source (plain.OfCharacter (alphabet_of alphabet.now)) field.now) }
    ensures place { IfErr result (λ r. r.field ≡ place) }
{
    if field.low > 4_294_967_295 {
        return Err(Refusal::with(OVERFLOW, place, 0));
    }
    match alphabet.encode(field.low as u32) {
        Ok(code) => Ok(Plan::of_number(u128::from(code), alphabet.width())),
        Err(_) => Err(Refusal::with(CHARACTER, place, u128::from(field.low))),
    }
}

/// Returns the plan of an identifier.
fn plan_identifier(
    source: &[u8],
    field: &Field,
    count: usize,
    place: usize,
) -> Result<Plan, Refusal>
    requires few { 8 * length source.now < 2 ^ 64 }
    ensures sound { IfOk result (IsSound source.now) }
    ensures named { IfOk result (λ p. IsNamedAs source.now (plain.OfIdentifier count) field.now
        (planned source.now p)) }
    ensures wrong { IfErr result (IsWrong source.now (plain.OfIdentifier count) field.now) }
    ensures place { IfErr result (λ r. r.field ≡ place) }
{
    match plan_placed(source, field, 8 * (count as u128), place) {
        Ok(plan) => match read_identifier(source, field.first, count, place) {
            Ok(_) => Ok(plan),
            Err(refusal) => Err(refusal),
        },
        Err(refusal) => Err(refusal),
    }
}
