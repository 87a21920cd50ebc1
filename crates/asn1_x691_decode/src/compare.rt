//! Compares bits of a message with those of a default value.

ghost use Rattle.std.specs.Prelude.{◌≡◌, ◌≤◌, ◌*◌, ◌-◌, length, Some};
ghost use Rattle.std.specs.Bool.{Decides};
ghost use Rattle.asn1_bits.specs.Bits.{bits};
ghost use Rattle.asn1_schema.specs.PiecesOfParts.{bits_at};
ghost use Rattle.asn1_x691.specs.Fields.{phase};
ghost use Rattle.asn1_x691_decode.specs.Decoding.{defaults_in};

use crate::context::Context;
use asn1_x691_fields::is_default as are_default_bits;

/// Returns whether the bits of the message from one index to another are those of a default value.
/// `first` is the index at which the complete encoding begins.
pub(crate) fn is_default(
    context: &Context<'_>,
    value: usize,
    first: usize,
    from: usize,
    to: usize,
) -> bool
    requires begins { first ≤ from }
    requires order { from ≤ to }
    requires inside { to ≤ 8 * length context.now.octets.now }
    ensures { Decides result (defaults_in context.now value (phase context.now.is_aligned (from - first))
        ≡ Some (bits_at (bits context.now.octets.now) from (to - from))) }
{
    are_default_bits(
        context.defaults,
        context.is_aligned,
        value,
        from - first,
        context.octets,
        from,
        to,
    )
}
