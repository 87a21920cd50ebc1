//! Alphabets by words, such as `Ia5/97,98` and `Numeric/all`; aligned ones have a `!`, as
//! `Ia5!/97-116`.

use crate::bit_fields::stores::{Store, stores_of};
use crate::bit_fields::words::{append, push_number};
use asn1_values::{
    BmpString, CharacterAlphabet, Ia5String, NumericString, StaticPermittedAlphabet,
};
use std::alloc::Global;

/// Returns the alphabet that a word names.
pub fn alphabet<'x>(word: &str, store: &'x Store) -> Option<CharacterAlphabet<'x>> {
    let (kind, set) = word.split_once('/')?;
    match kind {
        "Ia5" => make_alphabet::<Ia5String>(set, store, false),
        "Ia5!" => make_alphabet::<Ia5String>(set, store, true),
        "Numeric" => make_alphabet::<NumericString>(set, store, false),
        "Bmp" => make_alphabet::<BmpString>(set, store, false),
        _ => None,
    }
}

fn make_alphabet<'x, S: StaticPermittedAlphabet>(
    set: &str,
    store: &'x Store,
    aligned: bool,
) -> Option<CharacterAlphabet<'x>> {
    let characters = store.set.as_slice();
    if characters.len() > 1000 {
        return None;
    }
    if set == "all" {
        return Some(CharacterAlphabet::new::<S>(None, aligned));
    }
    Some(CharacterAlphabet::new::<S>(Some(characters), aligned))
}

/// Appends the width of an alphabet's codes, and whether it repeats a character.
pub fn answer(alloc: Global, text: &mut String, words: &[&str]) -> Option<()> {
    if let Some(stores) = stores_of(alloc, words)
        && let [word] = words
        && let [store] = stores.as_slice()
        && let Some(word) = word.strip_prefix('a')
        && let Some(alphabet) = alphabet(word, store)
    {
        return tell(alloc, text, alphabet);
    }
    None
}

fn tell(alloc: Global, text: &mut String, alphabet: CharacterAlphabet<'_>) -> Option<()> {
    push_number(alloc, text, alphabet.width() as u128)?;
    append(
        text,
        if alphabet.repeats() {
            "repeats"
        } else {
            "once"
        },
    )
}
