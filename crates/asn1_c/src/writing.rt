//! Fields written over bits of the caller's octets, from any bit on.

ghost use Rattle.std.specs.Prelude.{◌≡◌, ◌≢◌, ◌↔◌, ◌⊎◌, ◌+◌, ◌*◌, ◌^◌, ◌<◌, ◌≤◌, List, Bool, length, IfOk, IfErr};
ghost use Rattle.asn1_bits.specs.Bits.{bits, overwritten};
ghost use Rattle.asn1_values.specs.Refusals.{IsPast};
ghost use Rattle.asn1_c.specs.Fields.{Says};
ghost use Rattle.asn1_c.specs.Writing.{AreNamed, IsNamed, IsUnnamed, IsUnnamedAt, IsSound, planned};

use crate::alphabets::Alphabet;
use crate::codes::{COUNT, DONE, ROOM, SHAPE, TOO_MANY};
use crate::fields::{Field, Refusal, Shape, known_shape};
use crate::plans::{Plan, plan_of};

/// Writes fields of the shapes one after another over the bits of the target from bit `position`
/// on, and returns where they end: a number, a character and an integer of up to sixteen
/// octets by its number, any other field by its bits, which lie in the source. Every other bit
/// stays. An error names the first invalid field.
#[unsafe(no_mangle)]
pub extern "C" fn asn1v_write_fields(
    target: &mut [u8],
    position: usize,
    source: &[u8],
    alphabets: &[Alphabet<'_>],
    shapes: &[Shape],
    fields: &[Field],
    end: &mut usize,
    refusal: &mut Refusal,
) -> u32
    ensures written { result ≡ 0 → (list : List Bool)
        × AreNamed source.now alphabets.now shapes.now fields.now list
        × (bits target.new ≡ overwritten (bits target.old) position list)
        × (end.new ≡ position + length list) }
    ensures refused { result ≢ 0 → result ≢ 3 → result ≢ 18 → result ≢ 23
        → IsUnnamedAt source.now alphabets.now shapes.now fields.now refusal.new }
    ensures code { result ≢ 0 → result ≢ 18 → result ≢ 23 → refusal.new.code ≡ result }
    ensures count { result ≡ 18 ↔ (length shapes.now ≢ length fields.now) }
    ensures too_many { result ≡ 23 ↔ ((length shapes.now ≡ length fields.now)
        × (2 ^ 64 ≤ 8 * length source.now)) }
    ensures room { result ≢ 23 → result ≡ 3 ↔ ((list : List Bool)
        × AreNamed source.now alphabets.now shapes.now fields.now list
        × IsPast (8 * length target.old) (position + length list)) }
    // If the room is too small, the error has the end that is needed.
    ensures needed { result ≡ 3 → (list : List Bool)
        → AreNamed source.now alphabets.now shapes.now fields.now list
        → Says refusal.new 3 (position + length list) }
    ensures unchanged { result ≢ 0 → (target.new ≡ target.old) × (end.new ≡ end.old) }
    ensures kept_refusal { (result ≡ 0) ⊎ ((result ≡ 18) ⊎ (result ≡ 23))
        → refusal.new ≡ refusal.old }
{
    if shapes.len() != fields.len() {
        return COUNT;
    }
    if source.len() > usize::MAX / 8 {
        return TOO_MANY;
    }
    match length_of(source, alphabets, shapes, fields) {
        Ok(length) => {
            let after = position as u128 + length;
            if after > usize::MAX as u128 || after > 8 * (target.len() as u128) {
                *refusal = Refusal::with(ROOM, shapes.len(), after);
                return ROOM;
            }
            *end = put_fields(target, position, source, alphabets, shapes, fields);
            DONE
        }
        Err(found) => {
            *refusal = found;
            found.code
        }
    }
}

/// Returns how many bits the fields have, or the first that does not fit.
fn length_of(
    source: &[u8],
    alphabets: &[Alphabet<'_>],
    shapes: &[Shape],
    fields: &[Field],
) -> Result<u128, Refusal>
    requires same { length shapes.now ≡ length fields.now }
    requires few { 8 * length source.now < 2 ^ 64 }
    ensures named { IfOk result (λ n. (list : List Bool)
        × AreNamed source.now alphabets.now shapes.now fields.now list × (n ≡ length list)) }
    ensures bounded { IfOk result (λ n. n + 2 ^ 64 ≤ 2 ^ 128) }
    ensures refused { IfErr result
        (IsUnnamedAt source.now alphabets.now shapes.now fields.now) }
    ensures codes { IfErr result
        (λ r. (r.code ≢ 0) × (r.code ≢ 3) × (r.code ≢ 18) × (r.code ≢ 23)) }
{
    let mut total = 0u128;
    for (i, shape) in shapes.iter().enumerate() {
        match plan_one(source, alphabets, shape, &fields[i], i) {
            Ok(plan) => total += plan.len(),
            Err(refusal) => return Err(refusal),
        }
    }
    Ok(total)
}

/// Returns the plan of a field of the shape that the numbers name.
fn plan_one(
    source: &[u8],
    alphabets: &[Alphabet<'_>],
    shape: &Shape,
    field: &Field,
    place: usize,
) -> Result<Plan, Refusal>
    requires few { 8 * length source.now < 2 ^ 64 }
    ensures sound { IfOk result (IsSound source.now) }
    ensures named { IfOk result (λ p. IsNamed source.now alphabets.now shape.now field.now
        (planned source.now p)) }
    ensures wrong { IfErr result (IsUnnamed source.now alphabets.now shape.now field.now) }
    ensures codes { IfErr result
        (λ r. (r.code ≢ 0) × (r.code ≢ 3) × (r.code ≢ 18) × (r.code ≢ 23)) }
    ensures place { IfErr result (λ r. r.field ≡ place) }
{
    match known_shape(alphabets, shape) {
        Some(known) => plan_of(source, &known, field, place),
        None => Err(Refusal::with(SHAPE, place, 0)),
    }
}

/// Writes fields that all have room, and returns the bit after them.
fn put_fields(
    target: &mut [u8],
    position: usize,
    source: &[u8],
    alphabets: &[Alphabet<'_>],
    shapes: &[Shape],
    fields: &[Field],
) -> usize
    requires few { 8 * length source.now < 2 ^ 64 }
    requires named { (list : List Bool)
        × AreNamed source.now alphabets.now shapes.now fields.now list
        × (position + length list ≤ 8 * length target.old) × (position + length list < 2 ^ 64) }
    ensures { (list : List Bool) × AreNamed source.now alphabets.now shapes.now fields.now list
        × (bits target.new ≡ overwritten (bits target.old) position list)
        × (result ≡ position + length list) }
{
    let mut at = position;
    for (i, shape) in shapes.iter().enumerate() {
        match plan_one(source, alphabets, shape, &fields[i], i) {
            Ok(plan) => at = plan.put(target, at, source),
            Err(_) => unreachable!(),
        }
    }
    at
}
