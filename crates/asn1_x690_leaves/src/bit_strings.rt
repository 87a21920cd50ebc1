//! BIT STRING (X.690 8.6, 11.2).

ghost use Rattle.std.specs.Prelude.{◌≡◌, ◌*◌, ◌+◌, ◌-◌, ◌<◌, ◌≤◌, ◌^◌, List, Bool, IfSome, None, true, false, length};
ghost use Rattle.asn1_bits.specs.Bits.{bits};
ghost use Rattle.asn1_schema.specs.declared.tables.Range.{Range};
ghost use Rattle.asn1_schema.specs.Pieces.{Bits};
ghost use Rattle.asn1_schema.specs.PiecesOfParts.{bits_of};
ghost use Rattle.asn1_x690.specs.Leaves.{IsBitString, HasSize, AreTrimmed};
ghost use Rattle.asn1_x690_leaves.specs.Told.{AreOctetsOf, IsTold};

use crate::sizes::{has_size, least_of};
use asn1_bits::read_bits;
use asn1_schema::{Length, Part, Span};
use asn1_x690::FaultKind;

/// Returns the bits of a BIT STRING: those after the first octet, which says how many of the last
/// octet are unused. The unused bits are zeros.
fn bits_in(octets: &[u8], span: Span) -> Option<Span>
    requires size { 8 * length octets.now < 2 ^ 64 }
    requires contents { AreOctetsOf (bits octets.now) span }
    ensures some { IfSome result (λ s. IsBitString (bits_of (bits octets.now) s) (bits_of (bits octets.now) span)) }
    ensures inside { IfSome result (λ s. s.at + s.count ≤ 8 * length octets.now) }
    ensures none { result ≡ None → (x : List Bool) → IsBitString x (bits_of (bits octets.now) span) → ⊥ }
{
    if span.count == 0 {
        return None;
    }
    let unused = read_bits(octets, span.at, 8) as usize;
    if unused > 7 {
        return None;
    }
    if span.count < 8 + unused {
        return None;
    }
    let count = span.count - 8 - unused;
    if read_bits(octets, span.at + 8 + count, unused) != 0 {
        return None;
    }
    Some(Span {
        at: span.at + 8,
        count,
    })
}

/// Returns whether bits that have names are as few as these permit (X.690 11.2.2).
fn are_trimmed(octets: &[u8], size: Length, span: Span) -> bool
    requires size { 8 * length octets.now < 2 ^ 64 }
    requires inside { span.at + span.count ≤ 8 * length octets.now }
    ensures yes { result ≡ true → AreTrimmed true size (bits_of (bits octets.now) span) }
    ensures no { result ≡ false → AreTrimmed true size (bits_of (bits octets.now) span) → ⊥ }
{
    let least = least_of(size);
    if span.count <= least {
        return span.count == least;
    }
    read_bits(octets, span.at + span.count - 1, 1) == 1
}

/// Returns whether bits have no names, or are as few as their names and the size permit
/// (X.690 11.2.2).
pub fn are_bits_permitted(octets: &[u8], has_names: bool, size: Length, span: Span) -> bool
    requires size { 8 * length octets.now < 2 ^ 64 }
    requires inside { span.at + span.count ≤ 8 * length octets.now }
    ensures yes { result ≡ true → AreTrimmed has_names size (bits_of (bits octets.now) span) }
    ensures no { result ≡ false → AreTrimmed has_names size (bits_of (bits octets.now) span) → ⊥ }
{
    if has_names {
        return are_trimmed(octets, size, span);
    }
    true
}

/// Reads a BIT STRING (X.690 8.6, 11.2).
///
/// # Errors
///
/// Returns [`FaultKind::Contents`] if there is no first octet that has the number of unused bits, or
/// if the unused bits are not zeros. Otherwise, it returns [`FaultKind::NotPermitted`] if the
/// constraint or the names of bits do not permit the bits.
pub fn bit_string(
    octets: &[u8],
    span: Span,
    size: Length,
    is_extensible: bool,
    has_names: bool,
) -> Result<Part, FaultKind>
    requires size { 8 * length octets.now < 2 ^ 64 }
    requires contents { AreOctetsOf (bits octets.now) span }
    ensures { (ranges : List Range) → IsTold IsBitString
        (λ bits. HasSize is_extensible size (length bits) × AreTrimmed has_names size bits) Bits ranges
        (bits octets.now) (bits_of (bits octets.now) span) result }
{
    match bits_in(octets, span) {
        None => Err(FaultKind::Contents),
        Some(found) => {
            if !has_size(is_extensible, size, found.count) {
                return Err(FaultKind::NotPermitted);
            }
            if !are_bits_permitted(octets, has_names, size, found) {
                return Err(FaultKind::NotPermitted);
            }
            Ok(Part::Bits(found))
        }
    }
}
