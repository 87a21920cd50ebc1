//! Octets, written whole.

ghost use Rattle.std.specs.Prelude.{◌≡◌, ◌≤◌, ℕ, List, [], ◌++◌, length, take, IfOk, OnOk, OnErr, IfErr};
ghost use Rattle.std.specs.Io.KnownBytes.{Appends};

use crate::error::StreamError;
use std::io::{ErrorKind, Write};

/// Writes all the octets and flushes the output.
///
/// # Errors
///
/// Returns `Write` if a write takes no octet or fails, other than by an interrupt, or if the flush
/// fails. A front of the octets may then have been written.
pub fn write_all<W: Write>(output: &mut W, octets: &[u8]) -> Result<(), StreamError>
    // Both speak of outputs whose octets are known, as those over memory.
    ensures written { OnOk result
        (Appends (W.contents output.old) (W.contents output.new) octets.now) }
    ensures front { OnErr result ((front : List ℕ) × (rest : List ℕ) × (octets.now ≡ front ++ rest)
        × Appends (W.contents output.old) (W.contents output.new) front) }
    ensures err { IfErr result (λ e. e ≡ StreamError.Write) }
{
    let mut rest = octets;
    for _ in 0..u64::MAX {
        if rest.is_empty() {
            return output.flush().map_err(|_| StreamError::Write);
        }
        let count = write_some(output, rest)?;
        rest = &rest[count..];
    }
    Err(StreamError::Write)
}

/// Writes a front of the octets, and returns how many it wrote: none if the call was interrupted.
fn write_some<W: Write>(output: &mut W, octets: &[u8]) -> Result<usize, StreamError>
    ensures few { IfOk result (λ count. count ≤ length octets.now) }
    ensures written { IfOk result (λ count.
        Appends (W.contents output.old) (W.contents output.new) (take count octets.now)) }
    ensures none { OnErr result (Appends (W.contents output.old) (W.contents output.new) []) }
    ensures err { IfErr result (λ e. e ≡ StreamError.Write) }
{
    match output.write(octets) {
        Ok(0) => Err(StreamError::Write),
        Ok(count) => Ok(count),
        Err(error) if error.kind() == ErrorKind::Interrupted => Ok(0),
        Err(_) => Err(StreamError::Write),
    }
}
