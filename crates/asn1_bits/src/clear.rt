//! Bits of octets that are cleared.

ghost use Rattle.std.specs.Prelude.{◌≡◌, ◌+◌, ◌*◌, ◌%◌, ◌^◌, ◌<◌, ◌≤◌, length, replicate, false};
ghost use Rattle.asn1_bits.specs.Bits.{bits, overwritten};

/// Clears the `count` bits from bit `position` on: those before the first whole octet, whole
/// octets, and those after the last.
pub(crate) fn clear_bits(dst: &mut [u8], position: usize, count: usize)
    requires room { position + count ≤ 8 * length dst.old }
    requires fits { position + count < 2 ^ 64 }
    ensures { bits dst.new ≡ overwritten (bits dst.old) position (replicate count false) }
{
    let front = count.min((8 - position % 8) % 8);
    clear_within(dst, position, front);
    let rest = count - front;
    if rest > 0 {
        let next = position + front;
        clear_octets(dst, next / 8, rest / 8);
        clear_within(dst, next + rest / 8 * 8, rest % 8);
    }
}

/// Clears `count` bits that lie in one octet.
fn clear_within(dst: &mut [u8], position: usize, count: usize)
    requires octet { position % 8 + count ≤ 8 }
    requires room { position + count ≤ 8 * length dst.old }
    ensures { bits dst.new ≡ overwritten (bits dst.old) position (replicate count false) }
{
    if count == 0 {
        return;
    }
    let shift = position % 8;
    let octet = u16::from(dst[position / 8]);
    let before = (octet >> (8 - shift)) << (8 - shift);
    let behind = octet % (1 << (8 - shift - count));
    dst[position / 8] = (before + behind) as u8;
}

/// Clears `count` octets from octet `first` on.
fn clear_octets(dst: &mut [u8], first: usize, count: usize)
    requires { first + count ≤ length dst.old }
    ensures { bits dst.new ≡ overwritten (bits dst.old) (8 * first) (replicate (8 * count) false) }
{
    dst[first..first + count].fill(0);
}
