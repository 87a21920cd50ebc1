//! Identifiers as fields: their contents (X.690 8.19).

ghost use Rattle.std.specs.Prelude.{◌≡◌, ◌≢◌, ◌↔◌, ◌+◌, ◌*◌, ◌^◌, ◌<◌, ◌≤◌, ℕ, List, length, drop, IfOk, IfErr};
ghost use Rattle.asn1_bits.specs.Bits.{bits};
ghost use Rattle.asn1_oid.specs.Contents.{IsContents, FitU32};
ghost use Rattle.asn1_values.specs.Fields as plain;
ghost use Rattle.asn1_c.specs.Fields.{IsSpelledAt, NamesReason};
ghost use Rattle.asn1_c.specs.Octets.{octets_at};

use crate::codes::MALFORMED;
use crate::fields::{Field, Refusal, field_at};
use crate::identifiers::code_of_contents;
use crate::octets_at::OctetsAt;

/// Returns whether `count` octets from a bit on are the contents of an identifier whose arcs all
/// fit 32 bits.
pub(crate) fn code_at(octets: &[u8], at: usize, count: usize) -> u32
    requires few { 8 * length octets.now < 2 ^ 64 }
    requires within { at + 8 * count ≤ 8 * length octets.now }
    ensures done { let o = octets_at octets.now at count in result ≡ 0
        ↔ ((arcs : List ℕ) × IsContents arcs o × FitU32 arcs) }
    ensures arc_too_large { let o = octets_at octets.now at count in result ≡ 7
        ↔ ((arcs : List ℕ) × IsContents arcs o × ¬ (FitU32 arcs)) }
    ensures malformed { let o = octets_at octets.now at count in result ≡ 6
        ↔ ((arcs : List ℕ) → ¬ (IsContents arcs o)) }
    ensures codes { result ≢ 0 → result ≢ 7 → result ≡ 6 }
{
    code_of_contents(&OctetsAt::new(octets, at, count))
}

/// Reads an identifier whose contents have `count` octets.
pub(crate) fn read_identifier(
    octets: &[u8],
    at: usize,
    count: usize,
    field: usize,
) -> Result<Field, Refusal>
    requires few { 8 * length octets.now < 2 ^ 64 }
    requires within { at ≤ 8 * length octets.now }
    ensures read { IfOk result (IsSpelledAt octets.now at (plain.OfIdentifier count)) }
    ensures refused { IfErr result
        (NamesReason (plain.OfIdentifier count) (drop at (bits octets.now))) }
    ensures field { IfErr result (λ r. r.field ≡ field) }
    ensures place { IfOk result (λ f. (f.first ≡ at) × (f.length ≡ 8 * count)) }
{
    if count == 0 {
        return Err(Refusal::with(MALFORMED, field, 0));
    }
    match field_at(octets, at, 8 * (count as u128), field) {
        Ok(place) => match code_at(octets, at, count) {
            0 => Ok(place),
            code => Err(Refusal::with(code, field, 0)),
        },
        Err(refusal) => Err(refusal),
    }
}
