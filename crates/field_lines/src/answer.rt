//! The answer to an input.

ghost use Rattle.std.specs.Prelude.{◌≡◌, ◌≤◌, ℕ, ◌++◌, drop, IfOk, MatchOption, codes};
ghost use Rattle.asn1_values.specs.Fields.{HaveOneSpelling, GiveOneSpelling};
ghost use Rattle.asn1_values.specs.Plain.{plain_fields, plain_shapes};
ghost use Rattle.asn1_values.specs.Words.{bits, bits_of};
ghost use Rattle.field_lines.specs.Output.{line, error_text};
ghost use Rattle.field_lines.specs.Answer.{IsAnswer, IsBitsAnswer, IsOnly, IsPrinted, IsStart, answer_in};

use crate::parse::{Lines, number, octets, shapes};
use crate::print::{print_fault, print_fields};
use asn1_values::{
    BitBuffer, BitReader, BitStr, Field, ReadError, Shape, read_fields, write_fields,
};
use std::alloc::{AllocError, Global};

/// The lines that answer an input, and a status.
#[derive(Debug, PartialEq, Eq, Drop)]
pub struct Answer {
    /// The lines, each with its LF.
    pub text: String,
    /// 0 if fields were read, 1 after an error in the input.
    pub status: u8,
}

/// Answers three lines: the shapes of fields, octets in hexadecimal, and the index of the bit at
/// which the first field begins. The first invalid line decides.
///
/// # Errors
///
/// Returns `AllocError` if out of memory. Invalid input is no error: its answer has status 1.
pub fn answer_to(alloc: Global, text: &[u8]) -> Result<Answer, AllocError>
    // It is an answer to the text, which has no other.
    ensures answer { IfOk result (λ answer. IsOnly (IsAnswer text.now) (answer_in answer)) }
    ensures status { IfOk result (λ answer. answer.status ≤ 1) }
{
    let Some(lines) = Lines::of(text) else {
        return refusal(alloc, "bad input");
    };
    let Some(shapes) = shapes(alloc, lines.shapes)? else {
        return refusal(alloc, "bad shapes");
    };
    let Some(octets) = octets(alloc, lines.octets)? else {
        return refusal(alloc, "bad octets");
    };
    let Some(view) = view_from(octets.as_slice(), lines.start)? else {
        return refusal(alloc, "bad start");
    };
    read_and_print(alloc, view, shapes.as_slice())
}

/// Returns the one line that says why an input is invalid.
fn refusal(alloc: Global, text: &str) -> Result<Answer, AllocError>
    ensures { IfOk result
        (λ answer. answer_in answer ≡ record { text = line text.now; status = 1 }) }
{
    Ok(Answer {
        text: format!(in alloc; "{text}\n")?,
        status: 1,
    })
}

/// Returns the bits of the octets from the first bit on that the line names; `None` for another
/// line. Octets of more than `usize::MAX` bits are an error as out of memory is.
fn view_from<'a>(octets: &'a [u8], line: &[u8]) -> Result<Option<BitStr<'a>>, AllocError>
    ensures { IfOk result (λ found. MatchOption found
        ((first : ℕ) → ¬ (IsStart line.now octets.now first))
        (λ view. (first : ℕ) × IsStart line.now octets.now first
        × (bits_of view ≡ drop first (bits octets.now)))) }
{
    let Some(len) = octets.len().checked_mul(8) else {
        return Err(AllocError);
    };
    let Some(first) = number(line) else {
        return Ok(None);
    };
    if first > len {
        return Ok(None);
    }
    let (_, view) = BitStr::from_octets(octets).split_at(first);
    Ok(Some(view))
}

/// Returns the fields of the shapes, what is left, and the fields written again; or the line that
/// names the first invalid field.
fn read_and_print(
    alloc: Global,
    view: BitStr<'_>,
    shapes: &[Shape<'_>],
) -> Result<Answer, AllocError>
    requires { GiveOneSpelling (plain_shapes shapes.now) }
    ensures { IfOk result (λ answer.
        IsOnly (IsBitsAnswer (bits_of view.entry) (plain_shapes shapes.now)) (answer_in answer)) }
{
    let mut reader = BitReader::new(view);
    match read_fields(alloc, &mut reader, shapes) {
        Ok(fields) => printed_fields(alloc, fields.as_slice(), reader.len()),
        Err(ReadError::Memory) => Err(AllocError),
        Err(error) => printed_fault(alloc, error),
    }
}

/// Returns the answer of fields that were found.
fn printed_fields(
    alloc: Global,
    fields: &[Field<'_, '_>],
    left: usize,
) -> Result<Answer, AllocError>
    requires { HaveOneSpelling (plain_fields fields.now) }
    ensures { IfOk result
        (λ answer. IsOnly (IsPrinted (plain_fields fields.now) left) (answer_in answer)) }
{
    let mut again = BitBuffer::new(alloc);
    // The fields that were read are no longer than their input, so the only error is out of memory.
    let Ok(()) = write_fields(&mut again, fields) else {
        return Err(AllocError);
    };
    Ok(Answer {
        text: print_fields(alloc, fields, left, again.as_bytes())?,
        status: 0,
    })
}

/// Returns the answer of an input that does not begin with fields of the shapes.
fn printed_fault(alloc: Global, error: ReadError) -> Result<Answer, AllocError>
    ensures { IfOk result (λ answer. answer_in answer
        ≡ record { text = line (codes "refused: " ++ error_text error); status = 1 }) }
{
    Ok(Answer {
        text: print_fault(alloc, error)?,
        status: 1,
    })
}
