//! What holds of the encodings of types.

ghost use Rattle.std.specs.Prelude.{ℕ, List, Bool};
ghost use Rattle.asn1_schema.specs.declared.tables.Node as node;
ghost use Rattle.asn1_schema.specs.Encodings.{DecodesOne, NamesFault};
ghost use Rattle.asn1_schema.specs.Pieces.{Parts};
ghost use Rattle.asn1_schema.specs.Values.{AreValues};
ghost use Rattle.asn1_schema.specs.TypeEncodings.{EncodesUniquely, NamesEachMisfit};
ghost use Rattle.asn1_x690.specs.Der.{Context, encoding_at};
ghost use Rattle.asn1_x690.specs.Example.{example_nodes, example_context, example_parts, example_bits};

/// States what holds of the elements that encode values of each type of each schema, for values
/// that are nested less deep than the depth. It does nothing. The tables need no check.
pub fn laws_of_types()
    // Bits begin with an encoding of one value at most, which ends at one index.
    ensures decodes_one { (nodes : List node.Node) (context : Context) (depth place : ℕ)
        → DecodesOne (encoding_at nodes context depth place).encoding.encodes }
    // Otherwise their first fault is one.
    ensures fault { (nodes : List node.Node) (context : Context) (depth place : ℕ)
        → NamesFault (encoding_at nodes context depth place).encoding.encodes
        (encoding_at nodes context depth place).encoding.fault }
    // Parts begin with one value at most, which has one encoding; otherwise their first misfit is
    // one.
    ensures encodes { (nodes : List node.Node) (context : Context) (depth place : ℕ)
        → EncodesUniquely (encoding_at nodes context depth place).encoding.encodes
        (encoding_at nodes context depth place).misfit }
    // Parts that begin with no value have a misfit.
    ensures misfit { (nodes : List node.Node) (context : Context) (depth place : ℕ)
        → NamesEachMisfit (encoding_at nodes context depth place).encoding.encodes
        (encoding_at nodes context depth place).misfit }
    // The parts of a value are one value: as many values follow each part as it holds.
    ensures value { (nodes : List node.Node) (context : Context) (depth place : ℕ) (parts : Parts) (list : List Bool)
        → (encoding_at nodes context depth place).encoding.encodes parts list → AreValues 1 parts }
    // There are values: the example of X.690 8.9.3.
    ensures is { (encoding_at example_nodes example_context 2 0).encoding.encodes example_parts example_bits }
{}
