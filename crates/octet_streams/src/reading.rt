//! An input, read to its end.

ghost use Rattle.std.specs.Prelude.{◌≡◌, ◌≢◌, ◌<◌, ℕ, List, length, IfOk, OnOk, IfErr};
ghost use Rattle.std.specs.Io.KnownBytes.{Consumes, IsAtEnd};

use crate::error::StreamError;
use std::alloc::Global;
use std::io::Read;

/// The most reads that an input may take.
const READS: u32 = 1_048_576;

/// Reads the input to its end and returns all its octets.
///
/// # Errors
///
/// Returns `Read` if a read fails or the input does not end within 1,048,576 reads, and `Memory` if
/// out of memory for the octets that were read.
pub fn read_to_end<R: Read>(alloc: Global, input: &mut R) -> Result<Vec<u8>, StreamError>
    // These are the octets that were taken, and the input is at its end. All but `err` speak of
    // inputs whose octets are known, as those over memory.
    ensures text { IfOk result
        (λ text. Consumes (R.remaining input.old) (R.remaining input.new) text.items) }
    ensures end { OnOk result (IsAtEnd (R.remaining input.new)) }
    ensures err { IfErr result (λ e. e ≢ StreamError.Write) }
    // An input that returned no octet is never out of memory.
    ensures memory { IfErr result (λ e. e ≡ StreamError.Memory → (text : List ℕ)
        × (0 < length text) × Consumes (R.remaining input.old) (R.remaining input.new) text) }
{
    read_within(alloc, input, READS)
}

/// Reads as `read_to_end` does, an input that ends within `reads` reads.
pub(crate) fn read_within<R: Read>(
    alloc: Global,
    input: &mut R,
    reads: u32,
) -> Result<Vec<u8>, StreamError>
    ensures text { IfOk result
        (λ text. Consumes (R.remaining input.old) (R.remaining input.new) text.items) }
    ensures end { OnOk result (IsAtEnd (R.remaining input.new)) }
    ensures err { IfErr result (λ e. e ≢ StreamError.Write) }
    ensures memory { IfErr result (λ e. e ≡ StreamError.Memory → (text : List ℕ)
        × (0 < length text) × Consumes (R.remaining input.old) (R.remaining input.new) text) }
{
    let mut text = Vec::new(alloc);
    let mut buffer = [0u8; 4096];
    for _ in 0..reads {
        let Ok(count) = input.read(&mut buffer) else {
            return Err(StreamError::Read);
        };
        if count == 0 {
            return Ok(text);
        }
        text.extend_from_slice(&buffer[..count])?;
    }
    Err(StreamError::Read)
}
