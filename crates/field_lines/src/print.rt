//! The lines of an answer.

ghost use Rattle.std.specs.Prelude.{◌≡◌, ◌<◌, ◌++◌, All, OnOk, IfOk, if◌then◌else◌, string_bytes, codes};
ghost use Rattle.asn1_values.specs.Plain.{plain_field, plain_fields};
ghost use Rattle.asn1_values.specs.Words.{bits_of, shortest_octets};
ghost use Rattle.field_lines.specs.Output.{line, field_text, field_lines, or_dash, digits_of_bits, octets_text, printed, error_text};

use asn1_values::{BitStr, Field, Integer, ReadError, laws_of_shortest_octets};
use std::alloc::{AllocError, Global};
use std::fmt::Write;

/// Returns a line for each field, then the number of bits that are left, then the octets of the
/// fields written again.
///
/// # Errors
///
/// Returns an error if out of memory.
pub fn print_fields(
    alloc: Global,
    fields: &[Field<'_, '_>],
    left: usize,
    again: &[u8],
) -> Result<String, AllocError>
    ensures text { IfOk result
        (λ text. string_bytes text ≡ printed (plain_fields fields.now) left again.now) }
    ensures octets { All (λ octet. octet < 256) again.now }
{
    let mut text = print_all(alloc, fields)?;
    writeln!(text, "rest {left}")?;
    print_octets(alloc, &mut text, "again", again)?;
    Ok(text)
}

/// Returns the text with a line for each field.
fn print_all(alloc: Global, fields: &[Field<'_, '_>]) -> Result<String, AllocError>
    ensures { IfOk result (λ text. string_bytes text ≡ field_lines (plain_fields fields.now)) }
{
    let mut text = String::new(alloc);
    for field in fields {
        print_field(alloc, &mut text, field)?;
    }
    Ok(text)
}

/// Appends `n` and the number in decimal, `o` and the octets, `b` and the bits, `i` or `c` and the
/// shortest octets, `a` and the character in decimal, or `d` and the arcs with full stops.
fn print_field(alloc: Global, text: &mut String, field: &Field<'_, '_>) -> Result<(), AllocError>
    ensures { OnOk result
        (string_bytes text.new
        ≡ string_bytes text.old ++ line (field_text (plain_field field.now))) }
{
    match field {
        Field::Number { value, .. } => writeln!(text, "n {value}"),
        Field::Octets(octets) => print_octets(alloc, text, "o", octets.as_ref()),
        Field::Bits(bits) => print_bits(text, *bits),
        Field::Integer(number) => print_integer(alloc, text, "i", number),
        Field::Character { character, .. } => writeln!(text, "a {character}"),
        Field::CountedInteger(number) => print_integer(alloc, text, "c", number),
        Field::Oid(oid) => writeln!(text, "d {oid}"),
    }
}

/// Appends `b` and the digits of the bits, or `-` if there are none.
fn print_bits(text: &mut String, bits: BitStr<'_>) -> Result<(), AllocError>
    ensures { OnOk result (string_bytes text.new
        ≡ string_bytes text.old
        ++ line (codes "b " ++ or_dash (digits_of_bits (bits_of bits.entry)))) }
{
    if bits.len() == 0 {
        return text.push_str("b -\n");
    }
    text.push_str("b ")?;
    push_digits(text, bits)?;
    text.push('\n')
}

/// Appends a digit for each bit.
fn push_digits(text: &mut String, bits: BitStr<'_>) -> Result<(), AllocError>
    ensures { OnOk result
        (string_bytes text.new ≡ string_bytes text.old ++ digits_of_bits (bits_of bits.entry)) }
{
    for i in 0..bits.len() {
        text.push(digit(bits.get(i)))?;
    }
    Ok(())
}

/// Returns the digit of a bit.
fn digit(bit: bool) -> char
    ensures { result ≡ (if bit then 49 else 48) }
{
    if bit { '1' } else { '0' }
}

/// Appends a label and the shortest octets of the number.
fn print_integer(
    alloc: Global,
    text: &mut String,
    label: &str,
    number: &Integer,
) -> Result<(), AllocError>
    ensures { OnOk result (string_bytes text.new
        ≡ string_bytes text.old
        ++ line (label.now ++ codes " " ++ octets_text (shortest_octets number.now))) }
{
    laws_of_shortest_octets();
    print_octets(alloc, text, label, number.signed_octets().as_ref())
}

/// Appends a label and the octets in lower-case hexadecimal, or `-` if there are none.
fn print_octets(
    alloc: Global,
    text: &mut String,
    label: &str,
    octets: &[u8],
) -> Result<(), AllocError>
    ensures { OnOk result (string_bytes text.new
        ≡ string_bytes text.old ++ line (label.now ++ codes " " ++ octets_text octets.now)) }
{
    if octets.is_empty() {
        return writeln!(text, "{label} -");
    }
    let digits = hex::encode(alloc, octets)?;
    writeln!(text, "{label} {digits}")
}

/// Returns the line for an input that does not begin with fields of the shapes.
///
/// # Errors
///
/// Returns an error if out of memory.
pub fn print_fault(alloc: Global, error: ReadError) -> Result<String, AllocError>
    ensures { IfOk result
        (λ text. string_bytes text ≡ line (codes "refused: " ++ error_text error)) }
{
    match error {
        ReadError::NumberWidth { field, width } => {
            format!(in alloc; "refused: field {field}: width {width} is over 128\n")
        }
        ReadError::Integer { field } => {
            format!(in alloc; "refused: field {field}: not a shortest integer\n")
        }
        ReadError::Short { field, bits } => {
            format!(in alloc; "refused: field {field}: {bits} bits short\n")
        }
        ReadError::Character { field, code } => {
            format!(in alloc; "refused: field {field}: code {code} is no character\n")
        }
        ReadError::Memory => format!(in alloc; "refused: out of memory\n"),
        ReadError::Length { field, octet } => {
            format!(in alloc; "refused: field {field}: length octet {octet} is not 1 to 127\n")
        }
        ReadError::Identifier { field } => {
            format!(in alloc; "refused: field {field}: not the contents of an identifier\n")
        }
        ReadError::Arc { field } => {
            format!(in alloc; "refused: field {field}: an arc is past 32 bits\n")
        }
    }
}
