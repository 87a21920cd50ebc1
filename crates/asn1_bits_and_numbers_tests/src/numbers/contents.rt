//! Contents of identifiers (X.690 8.19).

use crate::numbers::spelled::{arcs, arcs_text};
use crate::numbers::two_octets;
use asn1_oid::{
    ContentsError, ObjectIdentifier, Oid, OidContents, check_contents, laws_of_contents,
};
use asn1_test_rows::{RowError, hex_of, octets, optional, parse_word, show_value, wrong};
use std::alloc::Global;
use std::borrow::CowSlice;

/// Answers the calls on contents: of octets, of a limit and octets, or of arcs, a number and
/// octets.
pub fn answer(alloc: Global, name: &str, words: &[&str]) -> Result<String, RowError> {
    match words {
        [] => laws(alloc),
        [word] if name == "ContentsError" => error_text(alloc, word),
        [word] => of_octets(alloc, name, octets(alloc, word)?.as_slice()),
        [limit, word] => of_limit(alloc, limit, word),
        [word, count, spelled] => of_words(alloc, name, word, count, spelled),
        _ => Err(wrong(alloc, name, "function of contents")),
    }
}

fn of_limit(alloc: Global, limit: &str, word: &str) -> Result<String, RowError> {
    let limit = parse_word::<usize>(alloc, limit)?;
    room_of_read(alloc, limit, octets(alloc, word)?.as_slice())
}

fn of_words(
    alloc: Global,
    name: &str,
    word: &str,
    count: &str,
    spelled: &str,
) -> Result<String, RowError> {
    let count = parse_word::<usize>(alloc, count)?;
    let arcs = arcs(alloc, word)?;
    of_arcs(alloc, name, arcs.as_slice(), count, octets(alloc, spelled)?)
}

/// Answers the calls on octets.
fn of_octets(alloc: Global, name: &str, octets: &[u8]) -> Result<String, RowError> {
    match name {
        "check_contents" => check_octets(alloc, octets),
        "from_contents" => read(alloc, octets),
        "lists_of_two" => two_octets::agree(alloc, octets),
        _ => Err(wrong(alloc, name, "function of octets")),
    }
}

/// Answers the calls on a borrowed identifier.
pub fn of_oid(alloc: Global, name: &str, oid: Oid<'_>) -> Result<String, RowError> {
    match name {
        "contents" => write_contents(alloc, oid),
        "contents_len" => optional(alloc, oid.contents_len()),
        "contents_clone" => clone_contents(alloc, oid),
        _ => Err(wrong(alloc, name, "function of an identifier")),
    }
}

/// Returns the octets of a copy of the contents that was made after their first octet was taken.
fn clone_contents(alloc: Global, oid: Oid<'_>) -> Result<String, RowError> {
    let Some(mut contents) = oid.contents() else {
        return show_value(alloc, "none");
    };
    let _first = contents.next();
    let copy = contents.clone()?;
    let _second = contents.next();
    hex_of(alloc, copy.collect::<Vec<u8>>(alloc)?.as_slice())
}

/// Answers the calls on the contents of arcs, of which `count` octets are taken first, and on
/// octets before them.
fn of_arcs(
    alloc: Global,
    name: &str,
    arcs: &[u32],
    count: usize,
    octets: Vec<u8>,
) -> Result<String, RowError> {
    let Some(contents) = start_contents(arcs) else {
        return Err(wrong(alloc, name, "function of such arcs"));
    };
    match name {
        "size_hint" => hint_of(alloc, contents, count),
        "len" => len_of(alloc, contents, count),
        "append_to" => append_contents(alloc, contents, count, octets),
        "ends_then_append" => append_between(alloc, contents, count, octets.as_slice()),
        "ends_then_collect" => collect_between(alloc, contents, count, octets.as_slice()),
        "has_room_of_at_most" => has_room(alloc, contents, count, octets),
        _ => Err(wrong(alloc, name, "function of arcs and octets")),
    }
}

/// Returns the iterator over the contents of an identifier, or `None` if it has no contents.
fn start_contents(arcs: &[u32]) -> Option<OidContents<'_>> {
    Oid::new(arcs)?.contents()
}

/// Returns the contents of an identifier, octet by octet, or `None` if it has no contents.
pub fn contents_of(alloc: Global, oid: Oid<'_>) -> Result<Option<Vec<u8>>, RowError> {
    let Some(contents) = oid.contents() else {
        return Ok(None);
    };
    let mut octets = Vec::new(alloc);
    for octet in contents {
        octets.push(octet)?;
    }
    Ok(Some(octets))
}

fn write_contents(alloc: Global, oid: Oid<'_>) -> Result<String, RowError> {
    match contents_of(alloc, oid)? {
        Some(octets) => hex_of(alloc, octets.as_slice()),
        None => show_value(alloc, "none"),
    }
}

/// Takes `count` octets from the contents.
fn take(alloc: Global, contents: &mut OidContents<'_>, count: usize) -> Result<Vec<u8>, RowError> {
    let mut octets = Vec::new(alloc);
    for _ in 0..count {
        if let Some(octet) = contents.next() {
            octets.push(octet)?;
        }
    }
    Ok(octets)
}

/// Returns the size hint after `count` octets were taken, and whether there is a next octet.
fn hint_of(alloc: Global, mut contents: OidContents<'_>, count: usize) -> Result<String, RowError> {
    let taken = take(alloc, &mut contents, count)?.len();
    let (least, most) = contents.size_hint();
    let most = most.unwrap_or(usize::MAX);
    let more = contents.next().is_some();
    Ok(format!(in alloc; "{taken} {least} {most} {more}")?)
}

/// Returns how many octets are left after the first `count`.
fn len_of(alloc: Global, mut contents: OidContents<'_>, count: usize) -> Result<String, RowError> {
    let _taken = take(alloc, &mut contents, count)?;
    let len = contents.len();
    Ok(format!(in alloc; "{len}")?)
}

/// Returns the first `count` octets, and the given octets followed by the rest of the contents.
fn append_contents(
    alloc: Global,
    mut contents: OidContents<'_>,
    count: usize,
    mut octets: Vec<u8>,
) -> Result<String, RowError> {
    let mut text = hex_of(alloc, take(alloc, &mut contents, count)?.as_slice())?;
    contents.append_to(&mut octets)?;
    text.push(' ')?;
    text.push_str(hex_of(alloc, octets.as_slice())?.as_str())?;
    Ok(text)
}

/// Takes an octet from each of the given ends, `times` times: 00 is the front, another octet the
/// back.
fn take_ends(
    alloc: Global,
    contents: &mut OidContents<'_>,
    times: usize,
    ends: &[u8],
) -> Result<Vec<u8>, RowError> {
    let mut octets = Vec::new(alloc);
    for _ in 0..times {
        for end in ends {
            let taken = if *end == 0 {
                contents.next()
            } else {
                contents.next_back()
            };
            if let Some(octet) = taken {
                octets.push(octet)?;
            }
        }
    }
    Ok(octets)
}

/// Returns the taken octets, how many are left, and the others.
fn show_ends(alloc: Global, taken: &[u8], len: usize, others: &[u8]) -> Result<String, RowError> {
    let taken = hex_of(alloc, taken)?;
    let others = hex_of(alloc, others)?;
    Ok(format!(in alloc; "{taken} {len} {others}")?)
}

/// Returns the octets of the ends, and the others, appended at once.
fn append_between(
    alloc: Global,
    mut contents: OidContents<'_>,
    times: usize,
    ends: &[u8],
) -> Result<String, RowError> {
    let taken = take_ends(alloc, &mut contents, times, ends)?;
    let len = contents.len();
    let mut others = Vec::new(alloc);
    contents.append_to(&mut others)?;
    show_ends(alloc, taken.as_slice(), len, others.as_slice())
}

/// Returns the octets of the ends, and the others, taken one by one from a copy.
fn collect_between(
    alloc: Global,
    mut contents: OidContents<'_>,
    times: usize,
    ends: &[u8],
) -> Result<String, RowError> {
    let taken = take_ends(alloc, &mut contents, times, ends)?;
    let len = contents.len();
    let others = contents.clone()?.collect::<Vec<u8>>(alloc)?;
    show_ends(alloc, taken.as_slice(), len, others.as_slice())
}

/// Returns whether a vector of octets followed by the contents has at most `limit` octets of
/// capacity.
fn has_room(
    alloc: Global,
    contents: OidContents<'_>,
    limit: usize,
    mut octets: Vec<u8>,
) -> Result<String, RowError> {
    contents.append_to(&mut octets)?;
    show_value(alloc, octets.capacity() <= limit)
}

fn check_octets(alloc: Global, octets: &[u8]) -> Result<String, RowError> {
    match check_contents(&octets) {
        Ok(()) => show_value(alloc, true),
        Err(error) => show_value(alloc, error),
    }
}

fn read(alloc: Global, octets: &[u8]) -> Result<String, RowError> {
    match ObjectIdentifier::from_contents(alloc, &octets) {
        Ok(identifier) => arcs_text(alloc, identifier.as_ref()),
        Err(error) => show_value(alloc, error),
    }
}

/// Returns whether the decoded arcs are owned, in a vector with a capacity of at most `limit`.
fn room_of_read(alloc: Global, limit: usize, octets: &[u8]) -> Result<String, RowError> {
    match ObjectIdentifier::from_contents(alloc, &octets) {
        Ok(identifier) => room_of(alloc, limit, identifier.into_arcs()),
        Err(error) => show_value(alloc, error),
    }
}

fn room_of(alloc: Global, limit: usize, arcs: CowSlice<'static, u32>) -> Result<String, RowError> {
    match arcs {
        CowSlice::Owned(arcs) => show_value(alloc, arcs.capacity() <= limit),
        CowSlice::Borrowed(_) => show_value(alloc, "lent"),
    }
}

/// Calls the functions whose contracts are laws, which do nothing.
fn laws(alloc: Global) -> Result<String, RowError> {
    laws_of_contents();
    show_value(alloc, true)
}

fn error_text(alloc: Global, word: &str) -> Result<String, RowError> {
    let error = match word {
        "Malformed" => ContentsError::Malformed,
        "ArcTooLarge" => ContentsError::ArcTooLarge,
        "Memory" => ContentsError::Memory,
        _ => return Err(wrong(alloc, word, "refusal")),
    };
    show_value(alloc, error)
}
