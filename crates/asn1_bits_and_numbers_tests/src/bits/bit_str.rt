//! Calls of views.

use crate::bits::words::{
    append, octets_of, part_of, part_of_three, push_bit, push_bits, push_number, push_order,
    push_truth, size,
};
use asn1_bits::BitStr;
use std::alloc::Global;

/// Appends the answer to a call.
pub fn answer(alloc: Global, text: &mut String, name: &str, words: &[&str]) -> Option<()> {
    match name {
        "new" => new(alloc, text, words),
        "from_octets" => from_octets(alloc, text, words),
        _ => answer_on_view(alloc, text, name, words),
    }
}

/// Appends the bits of a view, or `none`.
fn new(alloc: Global, text: &mut String, words: &[&str]) -> Option<()> {
    match part_of_three(alloc, words)?.view() {
        Some(view) => push_bits(text, view),
        None => append(text, "none"),
    }
}

fn from_octets(alloc: Global, text: &mut String, words: &[&str]) -> Option<()> {
    if let [octets] = words
        && let Some(octets) = octets_of(alloc, octets)
        && octets.len() <= 1000
    {
        return push_bits(text, BitStr::from_octets(octets.as_slice()));
    }
    None
}

/// Appends the answer to a call on the view of the first word.
fn answer_on_view(alloc: Global, text: &mut String, name: &str, words: &[&str]) -> Option<()> {
    if let [first, rest @ ..] = words
        && let Some(part) = part_of(alloc, first)
        && let Some(view) = part.view()
    {
        return answer_on(alloc, text, name, view, rest);
    }
    None
}

fn answer_on(
    alloc: Global,
    text: &mut String,
    name: &str,
    view: BitStr<'_>,
    rest: &[&str],
) -> Option<()> {
    match name {
        "len" => push_number(alloc, text, view.len() as u128),
        "shift" => push_number(alloc, text, view.shift() as u128),
        "is_empty" => push_truth(text, view.is_empty()),
        "get" => get(text, view, rest),
        "slice" => slice(text, view, rest),
        "split_at" => split_at(text, view, rest),
        "cmp" => cmp(alloc, text, view, rest),
        _ => None,
    }
}

fn get(text: &mut String, view: BitStr<'_>, rest: &[&str]) -> Option<()> {
    if let [place] = rest
        && let Some(place) = size(place)
        && place < view.len()
    {
        return push_bit(text, view.get(place));
    }
    None
}

/// Appends LEN bits of a view, from bit FROM on.
fn slice(text: &mut String, view: BitStr<'_>, rest: &[&str]) -> Option<()> {
    if let [from, len] = rest
        && let Some(from) = size(from)
        && let Some(len) = size(len)
        && from <= view.len()
        && len <= view.len() - from
    {
        return push_bits(text, view.slice(from, len));
    }
    None
}

/// Appends the bits of a view before an index, and those from it on.
fn split_at(text: &mut String, view: BitStr<'_>, rest: &[&str]) -> Option<()> {
    if let [at] = rest
        && let Some(at) = size(at)
        && at <= view.len()
    {
        return push_parts(text, view.split_at(at));
    }
    None
}

fn push_parts(text: &mut String, parts: (BitStr<'_>, BitStr<'_>)) -> Option<()> {
    push_bits(text, parts.0)?;
    push_bits(text, parts.1)
}

fn cmp(alloc: Global, text: &mut String, view: BitStr<'_>, rest: &[&str]) -> Option<()> {
    if let [other] = rest
        && let Some(part) = part_of(alloc, other)
        && let Some(other) = part.view()
    {
        return push_order(text, &view, &other);
    }
    None
}
