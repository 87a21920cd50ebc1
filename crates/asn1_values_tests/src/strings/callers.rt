//! Callers that are proved by the contracts alone: no proof of theirs cites a lemma of the library.

ghost use Rattle.std.specs.Prelude.{◌≡◌, ◌≢◌, [], IfOk, IfSome, OnErr};

use asn1_alphabets::CharacterAlphabet;
use asn1_strings::{Ia5String, NumericString, StaticPermittedAlphabet};
use asn1_test_rows::{RowError, hex_of, octets, one, optional, parse_word, wrong};
use std::alloc::{AllocError, Global};

/// Answers the calls of these callers.
pub fn answer(alloc: Global, name: &str, words: &[&str]) -> Result<String, RowError> {
    let word = one(alloc, words)?;
    match name {
        "read_again" => read_by_places(alloc, parse_word::<u32>(alloc, word)?),
        "copied" => copy_of(alloc, octets(alloc, word)?.as_slice()),
        _ => Err(wrong(alloc, name, "caller")),
    }
}

/// Encodes a character, and decodes its code. Returns the same character, whichever of its codes was
/// taken, or `None` if it has none.
fn read_again(alphabet: &CharacterAlphabet<'_>, character: u32) -> Option<u32>
    ensures { IfSome result (λ c. c ≡ character) }
{
    let Ok(code) = alphabet.encode(character) else {
        return None;
    };
    match alphabet.decode(code) {
        Ok(read) => Some(read),
        Err(_) => None,
    }
}

fn read_by_places(alloc: Global, character: u32) -> Result<String, RowError> {
    let alphabet = CharacterAlphabet::new::<NumericString>(None, false);
    optional(alloc, read_again(&alphabet, character))
}

/// Returns a copy, which allocates nothing for an empty string.
fn copy_string(string: &Ia5String) -> Result<Ia5String, AllocError>
    ensures same { IfOk result (λ copy. copy ≡ string.now) }
    ensures memory { OnErr result (string.now ≢ []) }
{
    string.clone()
}

fn copy_of(alloc: Global, octets: &[u8]) -> Result<String, RowError> {
    match Ia5String::try_from_slice(alloc, octets) {
        Ok(string) => hex_of(alloc, copy_string(&string)?.as_slice()),
        Err(_) => Err(wrong(alloc, "the word", "string")),
    }
}
