//! What holds of the fields that values are encoded by.

ghost use Rattle.std.specs.Prelude.{◌≡◌, ℕ, List, Bool, false, [], ◌∷◌, Option};
ghost use Rattle.asn1_schema.specs.Pieces.{Parts};
ghost use Rattle.asn1_schema.specs.Values.{AreValues};
ghost use Rattle.asn1_schema.specs.Encodings.{DecodesOne, EncodesOne, NamesFault};
ghost use Rattle.asn1_schema.specs.TypeEncodings.{EncodesUniquely, NamesEachMisfit};
ghost use Rattle.asn1_x691.specs.Fragments.{string, octets};
ghost use Rattle.asn1_schema.specs.declared.tables.Node as node;
ghost use Rattle.asn1_schema.specs.declared.tables.Member as member;
ghost use Rattle.asn1_schema.specs.declared.tables.Range as range;
ghost use Rattle.asn1_x691.specs.Limits.{Limits, no_limits, AreWithin, IsNoLimit};
ghost use Rattle.asn1_schema.specs.Narrow.{RejectsMore};
ghost use Rattle.asn1_x691.specs.Types.{type_at};
ghost use Rattle.asn1_x691.specs.Example.{integer, opened, opened_five, example_nodes, example_members, no_defaults, example_parts, example_bits};
ghost use Rattle.asn1_x691.specs.Fields.{phase, constrained, length_of, small_length, semi_constrained, small_number, unconstrained};

/// States what holds of a constrained whole number (X.691 11.5), in both variants, at each position of
/// a message. It does nothing.
pub fn laws_of_constrained()
    // Bits begin with one number at most, which ends at one index.
    ensures decodes_one { (aligned : Bool) (range node at : ℕ)
        → DecodesOne (constrained aligned range node at).encodes }
    // Otherwise their first fault is one.
    ensures fault { (aligned : Bool) (range node at : ℕ)
        → NamesFault (constrained aligned range node at).encodes (constrained aligned range node at).fault }
    // A number has one encoding.
    ensures encodes_one { (aligned : Bool) (range node at : ℕ)
        → EncodesOne (constrained aligned range node at).encodes }
{}

/// States the same of a length without bounds below 16,384 (X.691 11.9.3.6, 11.9.3.7).
pub fn laws_of_length()
    ensures decodes_one { (aligned : Bool) (node at : ℕ) → DecodesOne (length_of aligned node at).encodes }
    ensures fault { (aligned : Bool) (node at : ℕ)
        → NamesFault (length_of aligned node at).encodes (length_of aligned node at).fault }
    ensures encodes_one { (aligned : Bool) (node at : ℕ) → EncodesOne (length_of aligned node at).encodes }
{}

/// States the same of a normally small length (X.691 11.9.3.4).
pub fn laws_of_small_length()
    ensures decodes_one { (aligned : Bool) (node at : ℕ) → DecodesOne (small_length aligned node at).encodes }
    ensures fault { (aligned : Bool) (node at : ℕ)
        → NamesFault (small_length aligned node at).encodes (small_length aligned node at).fault }
    ensures encodes_one { (aligned : Bool) (node at : ℕ) → EncodesOne (small_length aligned node at).encodes }
{}

/// States the same of a whole number from 0 on, in the minimal number of octets after their number
/// (X.691 11.7).
pub fn laws_of_semi_constrained()
    ensures decodes_one { (aligned : Bool) (node at : ℕ) → DecodesOne (semi_constrained aligned node at).encodes }
    ensures fault { (aligned : Bool) (node at : ℕ)
        → NamesFault (semi_constrained aligned node at).encodes (semi_constrained aligned node at).fault }
    ensures encodes_one { (aligned : Bool) (node at : ℕ) → EncodesOne (semi_constrained aligned node at).encodes }
{}

/// States the same of a normally small number (X.691 11.6).
pub fn laws_of_small_number()
    ensures decodes_one { (aligned : Bool) (node at : ℕ) → DecodesOne (small_number aligned node at).encodes }
    ensures fault { (aligned : Bool) (node at : ℕ)
        → NamesFault (small_number aligned node at).encodes (small_number aligned node at).fault }
    ensures encodes_one { (aligned : Bool) (node at : ℕ) → EncodesOne (small_number aligned node at).encodes }
{}

/// States the same of a whole number of any sign, in the minimal number of octets after their number
/// (X.691 11.8).
pub fn laws_of_unconstrained()
    ensures decodes_one { (aligned : Bool) (node at : ℕ) → DecodesOne (unconstrained aligned node at).encodes }
    ensures fault { (aligned : Bool) (node at : ℕ)
        → NamesFault (unconstrained aligned node at).encodes (unconstrained aligned node at).fault }
    ensures encodes_one { (aligned : Bool) (node at : ℕ) → EncodesOne (unconstrained aligned node at).encodes }
{}

/// States the same of octets after their length (X.691 17.8), in at most `most` fragments.
pub fn laws_of_octets()
    ensures decodes_one { (most : ℕ) (aligned : Bool) (node at : ℕ) → DecodesOne (octets most aligned node at).encodes }
    ensures fault { (most : ℕ) (aligned : Bool) (node at : ℕ)
        → NamesFault (octets most aligned node at).encodes (octets most aligned node at).fault }
    ensures encodes_one { (most : ℕ) (aligned : Bool) (node at : ℕ) → EncodesOne (octets most aligned node at).encodes }
{}

/// States the same of units of `unit` bits after their number, in fragments from 16,384 units on
/// (X.691 11.9.3.5 to 11.9.3.8): BIT STRING and OCTET STRING without an upper bound.
pub fn laws_of_string()
    ensures decodes_one { (most : ℕ) (aligned : Bool) (unit node at : ℕ)
        → DecodesOne (string most aligned unit node at).encodes }
    ensures fault { (most : ℕ) (aligned : Bool) (unit node at : ℕ)
        → NamesFault (string most aligned unit node at).encodes (string most aligned unit node at).fault }
    ensures encodes_one { (most : ℕ) (aligned : Bool) (unit node at : ℕ)
        → EncodesOne (string most aligned unit node at).encodes }
{}

/// States what holds of an open type (X.691 11.2) that holds an INTEGER (0..255), in both variants,
/// at each position of a message.
pub fn laws_of_an_open_type()
    // Bits begin with one value at most, which ends at one index; otherwise their first fault is
    // one.
    ensures decodes_one { (aligned : Bool) (at : ℕ) → DecodesOne (opened aligned at).encoding.encodes }
    ensures fault { (aligned : Bool) (at : ℕ)
        → NamesFault (opened aligned at).encoding.encodes (opened aligned at).encoding.fault }
    // Parts begin with one value at most, which has one encoding; otherwise their first misfit is
    // one, and there is one.
    ensures encodes { (aligned : Bool) (at : ℕ)
        → EncodesUniquely (opened aligned at).encoding.encodes (opened aligned at).misfit }
    ensures misfit { (aligned : Bool) (at : ℕ)
        → NamesEachMisfit (opened aligned at).encoding.encodes (opened aligned at).misfit }
    // There is a value: an octet, 05, is an open type of 5.
    ensures is { (opened false 0).encoding.encodes (integer 5 ∷ []) opened_five }
{}

/// States what holds of every type of every schema, in both variants, at each position of a
/// message, within any limits, for values that are nested less deep than the depth. `defaults` has
/// the encodings of default values at each position in an octet. The tables need no check.
pub fn laws_of_types()
    // Bits begin with an encoding of one value at most, which ends at one index.
    ensures decodes_one { (limits : Limits) (aligned : Bool) (nodes : List node.Node) (members : List member.Member)
        (ranges : List range.Range) (defaults : ℕ → ℕ → Option (List Bool)) (depth place at : ℕ)
        → DecodesOne (type_at limits aligned nodes members ranges defaults depth place at).encoding.encodes }
    // Otherwise their first fault is one.
    ensures fault { (limits : Limits) (aligned : Bool) (nodes : List node.Node) (members : List member.Member)
        (ranges : List range.Range) (defaults : ℕ → ℕ → Option (List Bool)) (depth place at : ℕ)
        → NamesFault (type_at limits aligned nodes members ranges defaults depth place at).encoding.encodes
        (type_at limits aligned nodes members ranges defaults depth place at).encoding.fault }
    // Parts begin with one value at most, which has one encoding; otherwise their first misfit is
    // one.
    ensures encodes { (limits : Limits) (aligned : Bool) (nodes : List node.Node) (members : List member.Member)
        (ranges : List range.Range) (defaults : ℕ → ℕ → Option (List Bool)) (depth place at : ℕ)
        → EncodesUniquely (type_at limits aligned nodes members ranges defaults depth place at).encoding.encodes
        (type_at limits aligned nodes members ranges defaults depth place at).misfit }
    // Parts that begin with no value have a misfit.
    ensures misfit { (limits : Limits) (aligned : Bool) (nodes : List node.Node) (members : List member.Member)
        (ranges : List range.Range) (defaults : ℕ → ℕ → Option (List Bool)) (depth place at : ℕ)
        → NamesEachMisfit (type_at limits aligned nodes members ranges defaults depth place at).encoding.encodes
        (type_at limits aligned nodes members ranges defaults depth place at).misfit }
    // At two positions a value has the same encodings: at any two in the UNALIGNED variant, and where
    // as many bits of an octet precede them in the ALIGNED variant.
    ensures positions { (limits : Limits) (aligned : Bool) (nodes : List node.Node) (members : List member.Member)
        (ranges : List range.Range) (defaults : ℕ → ℕ → Option (List Bool)) (depth place p q : ℕ)
        → phase aligned p ≡ phase aligned q → (parts : Parts) (list : List Bool)
        → (type_at limits aligned nodes members ranges defaults depth place p).encoding.encodes parts list
        → (type_at limits aligned nodes members ranges defaults depth place q).encoding.encodes parts list }
    // Within limits nothing is decoded that X.691 does not decode so, and each first fault is that of
    // X.691, other than `Unsupported`, which says that a limit was exceeded.
    ensures limits { (limits : Limits) → AreWithin limits → (aligned : Bool) (nodes : List node.Node)
        (members : List member.Member) (ranges : List range.Range) (defaults : ℕ → ℕ → Option (List Bool)) (depth place at : ℕ)
        → RejectsMore IsNoLimit (type_at limits aligned nodes members ranges defaults depth place at).encoding
        (type_at no_limits aligned nodes members ranges defaults depth place at).encoding }
    // The parts of a value are one value: as many values follow each part as it holds.
    ensures value { (limits : Limits) (aligned : Bool) (nodes : List node.Node) (members : List member.Member)
        (ranges : List range.Range) (defaults : ℕ → ℕ → Option (List Bool)) (depth place at : ℕ) (parts : Parts) (list : List Bool)
        → (type_at limits aligned nodes members ranges defaults depth place at).encoding.encodes parts list
        → AreValues 1 parts }
    // There are values: 01 encodes SEQUENCE { a ENUMERATED OPTIONAL, b BOOLEAN } without `a`,
    // where `b` is true.
    ensures is { (type_at no_limits false example_nodes example_members [] no_defaults 2 0 0).encoding.encodes
        example_parts example_bits }
{}
