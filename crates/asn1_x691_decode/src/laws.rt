//! What the limits of the decoder mean.

ghost use Rattle.std.specs.Prelude.{ℕ, List, Bool};
ghost use Rattle.asn1_schema.specs.Pieces.{Parts};
ghost use Rattle.asn1_schema.specs.Encodings.{Fault};
ghost use Rattle.asn1_schema.specs.Narrow.{RejectsMore};
ghost use Rattle.asn1_x691.specs.declared.fault.FaultKind.{FaultKind};
ghost use Rattle.asn1_x691.specs.Limits.{AreWithin, IsNoLimit};
ghost use Rattle.asn1_x691.specs.OpenTypes.{complete};
ghost use Rattle.asn1_x691_decode.specs.declared.context.Context as of;
ghost use Rattle.asn1_x691_decode.specs.Decoding.{decoder_limits, types};
ghost use Rattle.asn1_x691_decode.specs.Messages.{unlimited_types};

/// States that the limits of [`decode`](crate::decode) and [`decode_prefix`](crate::decode_prefix)
/// only reject. It does nothing.
///
/// What they accept is an encoding by X.691 without the limits. A first fault that they return is
/// that of X.691, unless its kind is [`FaultKind::Unsupported`](asn1_x691::FaultKind::Unsupported).
pub fn laws_of_limits()
    ensures limits { AreWithin decoder_limits }
    // A message that is the complete encoding of these parts within the limits is so without them.
    ensures accepted { (c : of.Context) (depth node : ℕ) (parts : Parts) (message : List Bool)
        → (complete node (types c depth node)).fills parts message
        → (complete node (unlimited_types c depth node)).fills parts message }
    ensures fault { (c : of.Context) (depth node : ℕ) (message : List Bool) (e : Fault FaultKind)
        → IsNoLimit e.kind → (complete node (types c depth node)).fault message e
        → (complete node (unlimited_types c depth node)).fault message e }
    // The same of a value that other bits may follow.
    ensures prefix { (c : of.Context) (depth node at : ℕ)
        → RejectsMore IsNoLimit (types c depth node at).encoding (unlimited_types c depth node at).encoding }
{}
