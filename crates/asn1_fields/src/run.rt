//! The program over any reader and writer.

ghost use Rattle.std.specs.Prelude.{◌≡◌, ◌≢◌, ◌≤◌, ℕ, List, ◌++◌, IfOk, OnOk, IfErr};
ghost use Rattle.std.specs.Io.KnownBytes.{Appends, Consumes, IsAtEnd};
ghost use Rattle.field_lines.specs.Answer as lines;
ghost use Rattle.field_lines.specs.Answer.{IsAnswer, IsOnly};

use field_lines::answer_to;
use octet_streams::{StreamError, read_to_end, write_all};
use std::alloc::Global;
use std::io::{Read, Write};

/// Reads the input to its end, writes the whole answer at once, and returns the status: 0 for
/// fields, 1 for an invalid input.
///
/// # Errors
///
/// Returns `Read` or `Memory` if the input cannot be read or answered; the output is then
/// unchanged. Returns `Write` if the output cannot be written; a prefix of the answer may then have
/// been written.
pub fn run<R: Read, W: Write>(
    alloc: Global,
    input: &mut R,
    output: &mut W,
) -> Result<u8, StreamError>
    ensures status { IfOk result (λ status. status ≤ 1) }
    // `run` has read to the end, and has written the answer to what it read. Both clauses are about
    // readers and writers whose octets are known, such as those over memory.
    ensures end { OnOk result (IsAtEnd (R.remaining input.new)) }
    ensures answer { IfOk result (λ status. (text : List ℕ) × (answer : lines.Answer)
        × Consumes (R.remaining input.old) (R.remaining input.new) text
        × IsOnly (IsAnswer text) answer
        × Appends (W.contents output.old) (W.contents output.new) answer.text
        × (status ≡ answer.status)) }
    // After an error nothing has been written, unless writing failed; then at most a prefix of the
    // answer.
    ensures nothing { IfErr result (λ e. e ≢ StreamError.Write → output.new ≡ output.old) }
    ensures front { IfErr result (λ e. e ≡ StreamError.Write → (text : List ℕ)
        × (answer : lines.Answer) × Consumes (R.remaining input.old) (R.remaining input.new) text
        × IsAnswer text answer × (front : List ℕ) × (rest : List ℕ) × (answer.text ≡ front ++ rest)
        × Appends (W.contents output.old) (W.contents output.new) front) }
{
    let text = read_to_end(alloc, input)?;
    let answer = answer_to(alloc, text.as_slice())?;
    write_all(output, answer.text.as_bytes())?;
    Ok(answer.status)
}
