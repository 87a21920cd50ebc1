//! Sizes that a constraint permits.

ghost use Rattle.std.specs.Prelude.{◌≡◌, true, false};
ghost use Rattle.asn1_x690.specs.Leaves.{HasSize};

use asn1_schema::Length;
use asn1_x691_writers::is_of_root;

/// Returns whether a constraint permits a size. One with an extension marker permits any size.
#[inline(always)]
pub fn has_size(size: Length, is_extensible: bool, count: usize) -> bool
    ensures yes { result ≡ true → HasSize is_extensible size count }
    ensures no { result ≡ false → HasSize is_extensible size count → ⊥ }
{
    is_extensible || is_of_root(size, count)
}
