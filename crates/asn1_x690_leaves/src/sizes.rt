//! Sizes.

ghost use Rattle.std.specs.Prelude.{◌≡◌, true, false};
ghost use Rattle.asn1_x690.specs.Leaves.{HasSize, least_of as least_in};

use asn1_schema::Length;

/// Returns whether a constraint permits a size. One with an extension marker permits any size.
#[inline(always)]
pub fn has_size(is_extensible: bool, size: Length, count: usize) -> bool
    ensures yes { result ≡ true → HasSize is_extensible size count }
    ensures no { result ≡ false → HasSize is_extensible size count → ⊥ }
{
    if is_extensible {
        return true;
    }
    match size {
        Length::AtLeast { least } => least <= count,
        Length::Between { least, range } => {
            least as usize <= count && count <= least as usize + range as usize
        }
    }
}

/// Returns the least size that a constraint permits.
pub(crate) fn least_of(size: Length) -> usize
    ensures { result ≡ least_in size }
{
    match size {
        Length::AtLeast { least } => least,
        Length::Between { least, range: _ } => least as usize,
    }
}
