//! Reading fields.

ghost use Rattle.std.specs.Prelude.{◌-◌, ◌≡◌, ◌≢◌, Bool, List, [], Ok, Err, ◌+◌, ◌*◌, ◌<◌, ◌++◌, length, OnOk, IfOk, IfErr, OnErr, IfSome, IsOk, IsOkUnless, vec_len, vec_capacity};
ghost use Rattle.std.specs.List.{AllZip, AllByRecursion};
ghost use Rattle.asn1_bits.specs.BitReader.{view_left, bits_left};
ghost use Rattle.asn1_bits.specs.Bits.{bits, number};
ghost use Rattle.asn1_bits.specs.View.{part};
ghost use Rattle.asn1_values.specs.Fields as plain;
ghost use Rattle.asn1_values.specs.Fields.{Begins, IsOfShape, AreSpelledBy, NoSpellingBeginsAnother, NoneBeginsAnother, needs, HaveOneSpelling, GiveOneSpelling};
ghost use Rattle.asn1_values.specs.Plain.{plain_fields, plain_shape, plain_shapes, LieFrom};
ghost use Rattle.asn1_values.specs.Refusals.{IsReadRefusal};
ghost use Rattle.asn1_values.specs.Steps.{AppendsNext, Collects};
ghost use Rattle.asn1_values.specs.Walk.{fields_at};
ghost use Rattle.asn1_values.specs.Wrong.{CanBegin};

use super::error::ReadError;
use super::field::Field;
use super::shape::Shape;
use super::skip::skip_all;
use super::{bits, character, counted_integer, identifier, integer, number, octets};
use asn1_bits::BitReader;
use std::alloc::Global;

/// Reads a field of each shape from the front of the reader, which is left after them. It first
/// allocates room for all fields; copied octets, long integers and identifiers allocate their own.
///
/// # Errors
///
/// The first invalid field is named, with the first reason that applies:
///
/// - `NumberWidth` if a width exceeds 128 bits;
/// - `Integer` or `Identifier` if a shape has no octets;
/// - `Length` if the length octet of a counted integer is present, but not 1 to 127;
/// - `Short` if fewer bits are left than the field needs;
/// - `Integer` if the octets are not the shortest of their number (X.690 8.3.2);
/// - `Identifier` if the octets are not the contents of an identifier (X.690 8.19), otherwise `Arc`
///   if one of its arcs exceeds `u32`;
/// - `Character` if a number is the code of no character of the alphabet.
///
/// If no field is invalid, it returns `Memory` if out of memory: after a failed allocation it
/// examines all fields again, without memory. After an error the reader is unchanged.
///
/// # Examples
///
/// ```
/// use asn1_values::{BitReader, Shape, read_fields};
///
/// let mut reader = BitReader::from_octets(&[0b1011_1001, 0]);
/// let shapes = [Shape::Number { width: 3 }, Shape::Number { width: 8 }];
/// let fields = read_fields(rt.alloc(), &mut reader, &shapes)?;
/// assert!(rt; fields.len() == 2 && reader.len() == 5);
/// ```
pub fn read_fields<'a, 's>(
    alloc: Global,
    reader: &mut BitReader<'a>,
    shapes: &[Shape<'s>],
) -> Result<Vec<Field<'a, 's>>, ReadError>
    // The fields that are given begin the reader's bits, and what is left follows.
    ensures found { IfOk result (λ fields. Begins (bits_left reader.old) (plain_shapes shapes.now)
        (plain_fields fields.items) (bits_left reader.new)) }
    // No other fields begin them, and no other bits can be left.
    ensures only { IfOk result (λ fields. (others : List plain.Field) (rest : List Bool)
        → Begins (bits_left reader.old) (plain_shapes shapes.now) others rest
        → (plain_fields fields.items ≡ others) × (bits_left reader.new ≡ rest)) }
    // If any fields begin them, the only error is `Memory`.
    ensures accepted { CanBegin (bits_left reader.old) (plain_shapes shapes.now)
        → IsOkUnless result ReadError.Memory }
    // The fields' concatenation, which is one list if no alphabet has a character with two codes,
    // is the front that was read.
    ensures front_read { GiveOneSpelling (plain_shapes shapes.now)
        → IfOk result (λ fields. (front : List Bool)
        → AreSpelledBy (plain_fields fields.items) front
        → bits_left reader.old ≡ front ++ bits_left reader.new) }
    ensures one_spelling { GiveOneSpelling (plain_shapes shapes.now)
        → IfOk result (λ fields. HaveOneSpelling (plain_fields fields.items)) }

    // The reader keeps its storage, from the first bit after the fields on.
    ensures rest { IfOk result (λ fields. (front : List Bool)
        → AreSpelledBy (plain_fields fields.items) front
        → view_left reader.new ≡ part (view_left reader.old) (length front)
        ((view_left reader.old).len - length front)) }
    // Octets are borrowed exactly where they lie on octet boundaries of the storage; bits are a
    // view of it, from their own first bit on.
    ensures places { IfOk result (λ fields. LieFrom (view_left reader.old) fields.items) }

    // An error names the first invalid field, with its reason; if none is invalid, it is
    // `Memory`. The error is unique: if a field is invalid, exactly that field is named, independent
    // of allocation.
    ensures refused { IfErr result
        (IsReadRefusal (bits_left reader.old) (plain_shapes shapes.now)) }
    ensures named { (e : ReadError) → e ≢ ReadError.Memory
        → IsReadRefusal (bits_left reader.old) (plain_shapes shapes.now) e → result ≡ Err e }
    ensures unchanged { OnErr result (view_left reader.new ≡ view_left reader.old) }
    ensures no_shapes { shapes.now ≡ [] → IsOk result }

    // No encoding of a field begins that of another field of the same shape. So no concatenation
    // for these shapes begins another one of other fields, and each encodes one list of fields.
    ensures each_alone { AllByRecursion NoSpellingBeginsAnother (plain_shapes shapes.now) }
    ensures none_begins_another { NoneBeginsAnother (plain_shapes shapes.now) }
    ensures one_list { (xs ys : List plain.Field) (list : List Bool)
        → AllZip IsOfShape xs (plain_shapes shapes.now)
        → AllZip IsOfShape ys (plain_shapes shapes.now)
        → AreSpelledBy xs list → AreSpelledBy ys list → xs ≡ ys }
    // Where each shape has its number of bits, concatenations for them are equally long, and the
    // reader moves by as many bits.
    ensures equally_long { (xs : List plain.Field) (list : List Bool)
        → AllZip IsOfShape xs (plain_shapes shapes.now) → AreSpelledBy xs list
        → IfSome (needs (plain_shapes shapes.now)) (λ n. length list ≡ n) }
    ensures moved { OnOk result (IfSome (needs (plain_shapes shapes.now))
        (λ n. length (bits_left reader.old) ≡ n + length (bits_left reader.new))) }
{
    let mut rest = *reader;
    match collect(alloc, &mut rest, shapes) {
        Ok(fields) => {
            *reader = rest;
            Ok(fields)
        }
        Err(met) => Err(refusal_of(*reader, shapes, met)),
    }
}

/// Picks the error to report. If allocation failed, it examines the fields without memory, since
/// an invalid field takes precedence over `Memory`.
#[cold]
#[inline(never)]
fn refusal_of(reader: BitReader<'_>, shapes: &[Shape<'_>], met: ReadError) -> ReadError
    requires { met ≢ ReadError.Memory
        → IsReadRefusal (bits_left reader) (plain_shapes shapes.now) met }
    ensures { IsReadRefusal (bits_left reader.entry) (plain_shapes shapes.now) result }
{
    match met {
        ReadError::Memory => match skip_all(reader, shapes) {
            Ok(()) => ReadError::Memory,
            Err(wrong) => wrong,
        },
        wrong => wrong,
    }
}

/// Reads a field of each shape, and stops at the first that is invalid or cannot be allocated.
fn collect<'a, 's>(
    alloc: Global,
    reader: &mut BitReader<'a>,
    shapes: &[Shape<'s>],
) -> Result<Vec<Field<'a, 's>>, ReadError>
    ensures { Collects (plain_shapes shapes.now) reader.old reader.new result }
{
    // One request for all fields, and none for no shapes.
    let mut fields = Vec::new(alloc);
    fields.reserve_exact(shapes.len())?;
    for (i, shape) in shapes.iter().enumerate() {
        append_next(&mut fields, alloc, reader, shape, i)?;
    }
    Ok(fields)
}

/// Appends the next field if the bits begin with one of the shape.
#[inline(always)]
fn append_next<'a, 's>(
    fields: &mut Vec<Field<'a, 's>>,
    alloc: Global,
    reader: &mut BitReader<'a>,
    shape: &Shape<'s>,
    field: usize,
) -> Result<(), ReadError>
    requires { vec_len fields.old < vec_capacity fields.old }
    ensures { AppendsNext (plain_shape shape.now) field reader.old reader.new fields.old fields.new
        result }
{
    match shape {
        Shape::Number { width } => number::read_into(fields, reader, *width, field)?,
        Shape::Octets { count } => octets::read_into(fields, alloc, reader, *count, field)?,
        Shape::Bits { length } => bits::read_into(fields, reader, *length, field)?,
        Shape::Integer { octets } => integer::read_into(fields, alloc, reader, *octets, field)?,
        Shape::Character { alphabet } => character::read_into(fields, reader, alphabet, field)?,
        Shape::CountedInteger => counted_integer::read_into(fields, alloc, reader, field)?,
        Shape::Oid { octets } => identifier::read_into(fields, alloc, reader, *octets, field)?,
    }
    Ok(())
}
