//! Identifier octets (X.690 8.1.2).

ghost use Rattle.std.specs.Prelude.{◌≡◌, ◌≢◌, ◌≤◌, ◌<◌, ◌^◌, ◌*◌, ◌+◌, ◌/◌, ◌%◌, ℕ, true, false, length, take, drop, IfSome};
ghost use Rattle.asn1_bits.specs.Bits.{bits, is_odd};
ghost use Rattle.asn1_x690.specs.Elements.{class_of, identifier, identifier_of, long_number};
ghost use Rattle.asn1_schema.specs.Encodings.{Starts};
ghost use Rattle.asn1_x690.specs.declared.tables.Identifier.{Identifier};
ghost use Rattle.asn1_x690_fields.specs.Outcomes.{rest, IsWithin, IsOnward, IsReadAs, IsShown, IsIdentifier};

use crate::heads::next_octet;
use crate::state::{State, fail};
use asn1_bits::read_bits;
use asn1_x690::{Class, FaultKind};

/// An identifier that was read. The number of a tag may be of any size.
#[derive(Clone, Copy, Debug, PartialEq, Eq)]
pub struct FoundIdentifier {
    /// The class of the tag.
    pub class: Class,
    /// The number of the tag, or `None` if 64 bits do not hold it.
    pub number: Option<u64>,
    /// Whether the contents are elements.
    pub is_constructed: bool,
}

/// Returns the class of a number.
#[inline(always)]
fn class_of(number: u32) -> Class
    requires { number < 4 }
    ensures { result ≡ class_of number }
{
    match number {
        0 => Class::Universal,
        1 => Class::Application,
        2 => Class::Context,
        _ => Class::Private,
    }
}

/// Returns whether bit 6 of the first octet is 1 (8.1.2.5).
#[inline(always)]
fn is_constructed_by(first: u32) -> bool
    ensures { result ≡ is_odd (first / 32) }
{
    first / 32 % 2 == 1
}

/// Returns a number with one more digit to base 128, which an octet has in its bits 7 to 1.
#[inline(always)]
fn with_digit(number: Option<u64>, octet: u32) -> Option<u64>
    ensures { (n : ℕ) → IsShown number n → IsShown result (n * 128 + octet % 128) }
{
    match number {
        None => None,
        Some(high) => {
            if high > u64::MAX / 128 {
                return None;
            }
            Some(high * 128 + u64::from(octet % 128))
        }
    }
}

/// Reads the number of a tag from 31 on.
fn next_long_number(octets: &[u8], node: usize, state: &mut State) -> Option<Option<u64>>
    requires size { 8 * length octets.now < 2 ^ 64 }
    requires within { IsWithin (bits octets.now) state.old }
    ensures onward { IsOnward (bits octets.now) state.old state.new }
    ensures read { IsReadAs (long_number node) IsShown (bits octets.now) state.old state.new result }
{
    let first = next_octet(octets, node, state)?;
    let mut number = Some(u64::from(first % 128));
    let mut is_more = first >= 128;
    while is_more {
        match next_octet(octets, node, state) {
            None => return None,
            Some(octet) => {
                number = with_digit(number, octet);
                is_more = octet >= 128;
            }
        }
    }
    if first == 128 || is_below_31(number) {
        fail(state, node, FaultKind::NotMinimal);
        return None;
    }
    Some(number)
}

/// Returns whether a number is below 31.
#[inline(always)]
fn is_below_31(number: Option<u64>) -> bool
    ensures yes { result ≡ true → (n : ℕ) → IsShown number n → n < 31 }
    ensures no { result ≡ false → (n : ℕ) → IsShown number n → 31 ≤ n }
{
    match number {
        None => false,
        Some(n) => n < 31,
    }
}

/// Returns the identifier that an octet is, where the number of its tag is below 31 (8.1.2.2).
#[inline(always)]
pub(crate) fn short_identifier(first: u32) -> FoundIdentifier
    requires octet { first < 256 }
    requires low { first % 32 < 31 }
    ensures { IsIdentifier result (identifier_of first (first % 32)) }
{
    FoundIdentifier {
        class: class_of(first / 64),
        number: Some(u64::from(first % 32)),
        is_constructed: is_constructed_by(first),
    }
}

/// Returns the next identifier if it is one octet. It does not read it.
#[inline(always)]
pub fn short_identifier_at(octets: &[u8], state: &State) -> Option<FoundIdentifier>
    requires size { 8 * length octets.now < 2 ^ 64 }
    requires within { IsWithin (bits octets.now) state.now }
    ensures { IfSome result (λ i. (node : ℕ) → (id : Identifier) × IsIdentifier i id
        × Starts (identifier node).encodes (rest (bits octets.now) state.now) id
        (drop (state.now.at + 8) (take state.now.end (bits octets.now)))) }
{
    if state.end - state.at < 8 {
        return None;
    }
    let first = read_bits(octets, state.at, 8);
    if first % 32 == 31 {
        return None;
    }
    Some(short_identifier(first))
}

/// Reads an identifier (X.690 8.1.2).
#[inline(always)]
pub fn next_identifier(octets: &[u8], node: usize, state: &mut State) -> Option<FoundIdentifier>
    requires size { 8 * length octets.now < 2 ^ 64 }
    requires within { IsWithin (bits octets.now) state.old }
    ensures onward { IsOnward (bits octets.now) state.old state.new }
    ensures some { IfSome result (λ i. state.old.at < state.new.at) }
    ensures read { IsReadAs (identifier node) IsIdentifier (bits octets.now) state.old state.new result }
{
    let first = next_octet(octets, node, state)?;
    if first % 32 < 31 {
        return Some(short_identifier(first));
    }
    let number = next_long_number(octets, node, state)?;
    Some(FoundIdentifier {
        class: class_of(first / 64),
        number,
        is_constructed: is_constructed_by(first),
    })
}
