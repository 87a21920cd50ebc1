//! What holds of elements without a schema.

ghost use Rattle.std.specs.Prelude.{ℕ};
ghost use Rattle.asn1_schema.specs.Encodings.{FillsOne, NamesUnfit};
ghost use Rattle.asn1_x690_elements.specs.Elements.{levels};

/// States what holds of elements, one after another, that are nested less deep than a depth. It
/// does nothing.
pub fn laws_of_elements()
    // Bits are one list of elements at most.
    ensures fills_one { (depth : ℕ) → FillsOne (levels depth).fills }
    // Otherwise their first fault is one.
    ensures fault { (depth : ℕ) → NamesUnfit (levels depth).fills (levels depth).fault }
{}
