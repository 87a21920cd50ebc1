//! Windows: eight octets of a message as a word, of which several numbers are read.

ghost use Rattle.std.specs.Prelude.{◌≡◌, ◌+◌, ◌*◌, ◌^◌, ◌<◌, ◌≤◌, length, IfSome, IsNone};
ghost use Rattle.asn1_bits.specs.Bits.{bits};
ghost use Rattle.asn1_x691_fields.specs.Windows.{IsWindow, field_of_word};

use crate::bits::word_at;

/// Eight octets of a message as a word.
#[derive(Clone, Copy, Debug)]
pub struct Window {
    /// The octets, the first one highest.
    pub word: u64,
    /// How many of its bits precede the first bit that is wanted.
    pub shift: usize,
}

/// Returns eight octets of a message with the bit at an index, and as many after it as there are. Only
/// a message of fewer octets has none.
#[inline(always)]
pub fn window_at(octets: &[u8], at: usize) -> Option<Window>
    requires size { 8 * length octets.now < 2 ^ 64 }
    requires within { at < 8 * length octets.now }
    ensures is { IfSome result (λ w. IsWindow (bits octets.now) at w) }
    ensures none { IsNone result → length octets.now < 8 }
{
    let len = octets.len();
    if len < 8 {
        return None;
    }
    let first = (at / 8).min(len - 8);
    Some(Window {
        word: word_at(octets, first),
        shift: at - 8 * first,
    })
}

/// Returns the number of `width` bits of a window after `skipped` others.
#[inline(always)]
pub fn number_in(window: Window, skipped: usize, width: usize) -> u64
    requires skipped { window.shift + skipped < 64 }
    requires width { width < 64 }
    ensures { result ≡ field_of_word window.word (window.shift + skipped) width }
{
    ((window.word << (window.shift + skipped)) >> 1) >> (63 - width)
}
