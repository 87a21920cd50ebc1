//! Walks over elements without a schema.

ghost use Rattle.std.specs.Prelude.{◌≡◌, ◌≤◌, ◌<◌, ◌^◌, ◌*◌, ◌-◌, suc, true, length, IfOk, IfErr};
ghost use Rattle.asn1_bits.specs.Bits.{bits};
ghost use Rattle.asn1_x690_fields.specs.Outcomes.{IsWithin, rest};
ghost use Rattle.asn1_x690_elements.specs.Elements.{levels};
ghost use Rattle.asn1_x690_elements.specs.Walks.{IsMoved, Outcome, InnerOutcome, AreElements, IsFirstFault};

use crate::room::push;
use asn1_x690::FaultKind;
use asn1_x690_fields::{Header, State, fail, next_header};
use thiserror::Error;

/// The first fault of octets.
#[derive(Clone, Copy, Debug, PartialEq, Eq, Error)]
#[error("bit {at}: {kind}")]
pub struct Fault {
    /// The index of the bit, a multiple of 8.
    pub at: usize,
    /// Why no element is encoded there.
    pub kind: FaultKind,
}

/// Decodes octets that are elements, one after another. Returns how many elements there are, with
/// those in the contents of constructed elements.
///
/// `elements` receives the headers of the first elements, as many as it has room for, each before
/// those in its contents. There must be fewer than 2^61 octets.
///
/// # Errors
///
/// Returns the first fault of the octets: an element or the contents of a constructed element are
/// nested `depth` levels or deeper, an identifier or a length is invalid, or octets are missing.
///
/// # Examples
///
/// ```
/// use asn1_x690_elements::decode_elements;
///
/// let message = [0x30, 3, 2, 1, 30];
/// let count = decode_elements(&message, 10, &mut [])?;
/// assert!(rt; count == 2);
/// ```
pub fn decode_elements(octets: &[u8], depth: usize, elements: &mut [Header]) -> Result<usize, Fault>
    requires { 8 * length octets.now < 2 ^ 64 }
    ensures ok { IfOk result (λ count. AreElements octets.now depth elements.new count) }
    ensures err { IfErr result (λ e. IsFirstFault octets.now depth e) }
{
    let mut state = State {
        at: 0,
        end: 8 * octets.len(),
        count: 0,
        node: 0,
        kind: FaultKind::Short,
    };
    if decode_level(octets, depth, &mut state, elements) {
        return Ok(state.count);
    }
    Err(Fault {
        at: state.at,
        kind: state.kind,
    })
}

/// Decodes elements to the end, nested less deep than `depth`.
#[cycle(decoding)]
fn decode_level(octets: &[u8], depth: usize, state: &mut State, room: &mut [Header]) -> bool
    requires size { 8 * length octets.now < 2 ^ 64 }
    requires within { IsWithin (bits octets.now) state.old }
    ensures moved { IsMoved (bits octets.now) state.old state.new }
    ensures did { Outcome (bits octets.now) (levels depth) state.old state.new room.old room.new result }
{
    if depth == 0 {
        fail(state, 0, FaultKind::TooDeep);
        return false;
    }
    decode_items(octets, depth - 1, state, room)
}

/// Decodes elements to the end. Those in them are nested less deep than `depth`.
#[cycle(decoding)]
fn decode_items(octets: &[u8], depth: usize, state: &mut State, room: &mut [Header]) -> bool
    requires size { 8 * length octets.now < 2 ^ 64 }
    requires within { IsWithin (bits octets.now) state.old }
    ensures moved { IsMoved (bits octets.now) state.old state.new }
    ensures did { Outcome (bits octets.now) (levels (suc depth)) state.old state.new room.old room.new result }
{
    while state.at < state.end {
        match next_header(octets, 0, state) {
            None => return false,
            Some(header) => {
                push(room, state, header);
                if !decode_inside(octets, depth, header, state, room) {
                    return false;
                }
            }
        }
    }
    true
}

/// Decodes what is in an element whose header was read.
#[cycle(decoding)]
fn decode_inside(
    octets: &[u8],
    depth: usize,
    header: Header,
    state: &mut State,
    room: &mut [Header],
) -> bool
    requires size { 8 * length octets.now < 2 ^ 64 }
    requires within { IsWithin (bits octets.now) state.old }
    requires ordered { header.from ≤ header.to }
    requires ends { header.to ≡ state.old.at }
    ensures moved { result ≡ true → (state.new.at ≡ state.old.at) }
    ensures end { state.new.end ≡ state.old.end }
    ensures from { header.from ≤ state.new.at }
    ensures within { IsWithin (bits octets.now) state.new }
    ensures did { InnerOutcome (bits octets.now) (levels depth) header state.old state.new room.old room.new result }
{
    if !header.identifier.is_constructed {
        return true;
    }
    let end = state.end;
    state.at = header.from;
    state.end = header.to;
    let is_valid = decode_level(octets, depth, state, room);
    state.end = end;
    if is_valid {
        state.at = header.to;
    }
    is_valid
}
