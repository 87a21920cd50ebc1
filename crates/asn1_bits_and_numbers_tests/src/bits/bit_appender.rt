//! Calls of appenders. A push is a word, such as `push:677:5`.

use crate::bits::steps::{ones, push_state};
use crate::bits::words::{
    MANY, Part, digits_of, octets_of, part_of, push_number, push_octets, size, wide,
};
use asn1_bits::{BitAppender, BitBuffer, Turns, read_bits};
use std::alloc::Global;

/// Appends the answer to a call.
pub fn answer(alloc: Global, text: &mut String, name: &str, words: &[&str]) -> Option<()> {
    match name {
        "room" => fill(alloc, text, words),
        "push" => digits_behind_ones(alloc, text, words),
        _ => None,
    }
}

/// Answers `ONES ROOM PIECE ..`: makes room for ROOM bits after ONES ones, and fills it with the
/// pieces. The answer is how many bits of room are left before the first piece and after each, then
/// the number of bits of the buffer, and its octets.
fn fill(alloc: Global, text: &mut String, words: &[&str]) -> Option<()> {
    if let [count, room, pieces @ ..] = words
        && let Some(count) = size(count)
        && let Some(room) = size(room)
        && let Some(mut buffer) = ones(alloc, count)
        && let Some(()) = fill_room(alloc, text, &mut buffer, room, pieces)
    {
        return push_state(alloc, text, &buffer);
    }
    None
}

/// Fills room for `room` bits.
fn fill_room(
    alloc: Global,
    text: &mut String,
    buffer: &mut BitBuffer,
    room: usize,
    pieces: &[&str],
) -> Option<()> {
    if room > MANY || buffer.len() > MANY {
        return None;
    }
    match buffer.appender(room) {
        Ok(mut appender) => push_each(alloc, text, &mut appender, pieces),
        Err(_) => None,
    }
}

/// Pushes each piece. Appends the room before each piece and at the end.
fn push_each(
    alloc: Global,
    text: &mut String,
    appender: &mut BitAppender<'_>,
    pieces: &[&str],
) -> Option<()> {
    for piece in pieces {
        push_number(alloc, text, appender.room() as u128)?;
        push(alloc, appender, piece)?;
    }
    push_number(alloc, text, appender.room() as u128)
}

/// Pushes a piece.
fn push(alloc: Global, appender: &mut BitAppender<'_>, piece: &str) -> Option<()> {
    let (name, rest) = piece.split_once(':')?;
    match name {
        "push" => push_short(appender, digits_of(rest)?),
        "push_wide" => push_wide(appender, digits_of(rest)?),
        "push_number" => push_below(appender, digits_of(rest)?),
        "push_octets" => push_hex(alloc, appender, rest),
        "push_bitslice" => push_view(alloc, appender, rest),
        _ => None,
    }
}

fn push_short(appender: &mut BitAppender<'_>, digits: (u128, usize)) -> Option<()> {
    let (value, width) = digits;
    let value = u32::try_from(value).ok()?;
    if width > 32 || width > appender.room() {
        return None;
    }
    Some(appender.push(value, width))
}

fn push_wide(appender: &mut BitAppender<'_>, digits: (u128, usize)) -> Option<()> {
    let (value, width) = digits;
    if width > 128 || width > appender.room() {
        return None;
    }
    Some(appender.push_wide(value, width, &mut Turns::new()))
}

/// Pushes a number and its width, if the number fits it and the room.
fn push_below(appender: &mut BitAppender<'_>, digits: (u128, usize)) -> Option<()> {
    let (value, width) = digits;
    if width > 127 || value >= 1u128 << width || width > appender.room() {
        return None;
    }
    Some(appender.push_number(value, width, &mut Turns::new()))
}

fn push_hex(alloc: Global, appender: &mut BitAppender<'_>, rest: &str) -> Option<()> {
    push_bytes(appender, octets_of(alloc, rest)?)
}

fn push_view(alloc: Global, appender: &mut BitAppender<'_>, rest: &str) -> Option<()> {
    push_part(appender, &part_of(alloc, rest)?)
}

fn push_bytes(appender: &mut BitAppender<'_>, octets: Vec<u8>) -> Option<()> {
    if octets.len() > appender.room() / 8 {
        return None;
    }
    Some(appender.push_octets(octets.as_slice(), &mut Turns::new()))
}

fn push_part(appender: &mut BitAppender<'_>, part: &Part) -> Option<()> {
    if let Some(view) = part.view()
        && view.len() <= appender.room()
    {
        return Some(appender.push_bitslice(view, &mut Turns::new()));
    }
    None
}

/// Answers `VALUE WIDTH`: the octets of three ones and the lowest digits of a number, pushed into
/// room for them alone, and the number that is read back from these digits.
fn digits_behind_ones(alloc: Global, text: &mut String, words: &[&str]) -> Option<()> {
    if let [value, width] = words
        && let Some(value) = wide(value)
        && let Some(width) = size(width)
        && let Some(octets) = octets_behind(alloc, (value, width))
    {
        return tell_digits(alloc, text, octets.as_slice(), width);
    }
    None
}

/// Appends octets, and the number of `width` of their bits.
fn tell_digits(alloc: Global, text: &mut String, octets: &[u8], width: usize) -> Option<()> {
    if let Some(number) = read_back(octets, width)
        && let Some(()) = push_octets(alloc, text, octets)
    {
        return push_number(alloc, text, number);
    }
    None
}

/// Returns the octets of three ones and the digits.
fn octets_behind(alloc: Global, digits: (u128, usize)) -> Option<Vec<u8>> {
    if let Some(mut buffer) = ones(alloc, 3)
        && let Some(()) = push_alone(&mut buffer, digits)
    {
        return Some(buffer.into_vec());
    }
    None
}

/// Pushes digits into room for them alone.
fn push_alone(buffer: &mut BitBuffer, digits: (u128, usize)) -> Option<()> {
    if digits.1 > MANY || buffer.len() > MANY {
        return None;
    }
    match buffer.appender(digits.1) {
        Ok(mut appender) => push_short(&mut appender, digits),
        Err(_) => None,
    }
}

/// Returns the number of the bits after the first three.
fn read_back(octets: &[u8], width: usize) -> Option<u128> {
    if width > 32 || octets.len() > 8 || 3 + width > 8 * octets.len() {
        return None;
    }
    Some(u128::from(read_bits(octets, 3, width)))
}
