//! The status of a program.

ghost use Rattle.std.specs.Prelude.{◌≡◌, MatchResult};

use crate::error::StreamError;

/// Returns the status that a program ends with: the one that its run returned, or 1 for an error.
pub fn status_of(answered: Result<u8, StreamError>) -> u8
    ensures { MatchResult answered (λ status. result ≡ status) (λ _. result ≡ 1) }
{
    match answered {
        Ok(status) => status,
        Err(_) => 1,
    }
}
