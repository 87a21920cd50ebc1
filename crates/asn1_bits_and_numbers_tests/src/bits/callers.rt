//! Callers that are proved by the contracts alone: no proof of theirs cites a lemma of the library.

ghost use Rattle.std.specs.Prelude.{◌≡◌, ◌+◌, ◌%◌, ◌^◌, ◌<◌, ◌++◌, length, replicate, false, take, drop, OnOk, OnErr, IfOk, IsOk};
ghost use Rattle.asn1_bits.specs.Bits.{digits};
ghost use Rattle.asn1_bits.specs.BitReader.{bits_left};
ghost use Rattle.asn1_bits.specs.Octets.{IsBorrowed};

use crate::bits::steps::{push_part, push_state};
use crate::bits::words::{MANY, Part, append, part_of, push_number, push_octets};
use asn1_bits::{BitBuffer, BitReader, BitStr, BitString, Octets, to_bitstring};
use std::alloc::{AllocError, Global};

/// Returns whether there is a caller of this name.
pub fn has(name: &str) -> bool {
    matches!(
        name,
        "pushes_two" | "leaves_room" | "lends_its_octets" | "reads_two"
    )
}

/// Appends the answer to a call.
pub fn answer(alloc: Global, text: &mut String, name: &str, words: &[&str]) -> Option<()> {
    match (name, words) {
        ("pushes_two", [a, b]) => two_pushed(alloc, text, a.parse().ok()?, b.parse().ok()?),
        (_, [view]) => answer_on_view(alloc, text, name, view),
        _ => None,
    }
}

/// Appends the answer to a call on a view.
fn answer_on_view(alloc: Global, text: &mut String, name: &str, view: &str) -> Option<()> {
    if let Some(part) = part_of(alloc, view)
        && let Some(view) = part.view()
    {
        return answer_in(alloc, text, name, &part, view);
    }
    None
}

fn answer_in(
    alloc: Global,
    text: &mut String,
    name: &str,
    part: &Part,
    view: BitStr<'_>,
) -> Option<()> {
    match name {
        "leaves_room" => room_left(alloc, text, part),
        "lends_its_octets" => octets_lent(alloc, text, view),
        "reads_two" => two_read(alloc, text, view),
        _ => None,
    }
}

/// Pushes two numbers into room for seven bits.
fn pushes_two(buffer: &mut BitBuffer, a: u32, b: u32) -> Result<(), AllocError>
    requires { length buffer.old + 7 < 2 ^ 64 }
    ensures ok { OnOk result (buffer.new ≡ (buffer.old ++ digits a 3) ++ digits b 4) }
    ensures err { OnErr result (buffer.new ≡ buffer.old) }
{
    let mut appender = buffer.appender(7)?;
    appender.push(a, 3);
    appender.push(b, 4);
    Ok(())
}

/// Appends the state of an empty buffer after `pushes_two`.
fn two_pushed(alloc: Global, text: &mut String, a: u32, b: u32) -> Option<()> {
    let mut buffer = BitBuffer::new(alloc);
    pushes_two(&mut buffer, a, b).ok()?;
    push_state(alloc, text, &buffer)
}

/// Leaves five bits of the room, which are zeros.
fn leaves_room(buffer: &mut BitBuffer) -> Result<(), AllocError>
    requires { length buffer.old + 10 < 2 ^ 64 }
    ensures ok { OnOk result (buffer.new ≡ (buffer.old ++ digits 0x2A5 5) ++ replicate 5 false) }
    ensures err { OnErr result (buffer.new ≡ buffer.old) }
{
    let mut appender = buffer.appender(10)?;
    appender.push(0x2A5, 5);
    Ok(())
}

/// Appends the state of a buffer of a part's bits after `leaves_room`.
fn room_left(alloc: Global, text: &mut String, part: &Part) -> Option<()> {
    let mut buffer = BitBuffer::new(alloc);
    if let Some(()) = push_part(&mut buffer, part)
        && let Some(()) = leave_room(&mut buffer)
    {
        return push_state(alloc, text, &buffer);
    }
    None
}

fn leave_room(buffer: &mut BitBuffer) -> Option<()> {
    if buffer.len() > MANY {
        return None;
    }
    leaves_room(buffer).ok()
}

/// Borrows the octets of a bit string that fills whole octets.
fn lends_its_octets(alloc: Global, bits: &BitString) -> Result<Octets<'_>, AllocError>
    requires { length bits.now % 8 ≡ 0 }
    ensures lent { IfOk result IsBorrowed }
    ensures free { IsOk result }
{
    BitReader::new(bits.as_bitstr()).octets(alloc)
}

/// Appends the octets of a copy of a view, if they are whole.
fn octets_lent(alloc: Global, text: &mut String, view: BitStr<'_>) -> Option<()> {
    if let Ok(copy) = to_bitstring(alloc, view)
        && copy.len() % 8 == 0
        && let Ok(octets) = lends_its_octets(alloc, &copy)
    {
        return push_octets(alloc, text, octets.as_ref());
    }
    None
}

/// Reads a number of 3 bits and one of 16 bits.
fn reads_two(reader: &mut BitReader<'_>) -> Result<(u128, u128), usize>
    ensures first { IfOk result (λ r. digits r.0 3 ≡ take 3 (bits_left reader.old)) }
    ensures second { IfOk result (λ r. digits r.1 16 ≡ take 16 (drop 3 (bits_left reader.old))) }
{
    let first = reader.split(3)?;
    let second = reader.split(16)?;
    Ok((first.first_u128(3), second.first_u128(16)))
}

/// Appends the two numbers of a view's first bits, or how many bits are missing.
fn two_read(alloc: Global, text: &mut String, view: BitStr<'_>) -> Option<()> {
    match reads_two(&mut BitReader::new(view)) {
        Ok((first, second)) => {
            push_number(alloc, text, first)?;
            push_number(alloc, text, second)
        }
        Err(missing) => {
            append(text, "short")?;
            push_number(alloc, text, missing as u128)
        }
    }
}
