//! What the laws say, of a type that is an example of all of them.

ghost use Rattle.std.specs.Prelude.{ℕ};
ghost use Rattle.asn1_schema.specs.Encodings.{DecodesOne, NamesFault};
ghost use Rattle.asn1_schema.specs.TypeEncodings.{EncodesUniquely, NamesEachMisfit};
ghost use Rattle.asn1_schema.specs.Example.{example, example_parts, example_bits};

/// States what holds of the example, at each position of a message; it does nothing.
///
/// A clause can't speak of every type of the algebra at once. Each combinator has a lemma in
/// `specs/Laws`, and the laws of a type are put together from them as its definition is.
pub fn laws_of_an_example()
    // Bits begin with an encoding of one value at most, which ends at one index.
    ensures decodes_one { (at : ℕ) → DecodesOne (example at).encoding.encodes }
    // Otherwise their first fault is one.
    ensures fault { (at : ℕ) → NamesFault (example at).encoding.encodes (example at).encoding.fault }
    // Parts begin with one value at most, which has one encoding; otherwise their first misfit is
    // one.
    ensures encodes { (at : ℕ) → EncodesUniquely (example at).encoding.encodes (example at).misfit }
    // Parts that begin with no value have a misfit.
    ensures misfit { (at : ℕ) → NamesEachMisfit (example at).encoding.encodes (example at).misfit }
    // There is a value: 0101 encodes that `a` is absent and `b` is 5.
    ensures is { (example 0).encoding.encodes example_parts example_bits }
{}
