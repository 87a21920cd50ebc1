//! Subidentifiers appended to vectors that have room for them, so that no push tests or grows.

ghost use Rattle.std.specs.Prelude.{◌≡◌, ◌+◌, ◌^◌, ◌<◌, ◌≤◌, ◌++◌, vec_len, vec_capacity};
ghost use Rattle.asn1_oid.specs.Writing.{last_octets, low_octets, subidentifier_octets};

/// Appends the lowest octets of the word, the lowest first.
#[inline(always)]
pub(crate) fn push_word(octets: &mut Vec<u8>, word: u64, count: u32)
    requires { vec_len octets.old + count ≤ vec_capacity octets.old }
    ensures items { octets.new.items ≡ octets.old.items ++ low_octets word count }
    ensures len { vec_len octets.new ≡ vec_len octets.old + count }
    ensures capacity { vec_capacity octets.new ≡ vec_capacity octets.old }
{
    let mut rest = word;
    for _pushed in 0..count {
        octets.push_reserved((rest % 256) as u8);
        rest /= 256;
    }
}

/// Appends the subidentifier of an arc.
#[inline(always)]
pub(crate) fn push_arc(octets: &mut Vec<u8>, arc: u32)
    requires { vec_len octets.old + 5 ≤ vec_capacity octets.old }
    ensures items { octets.new.items ≡ octets.old.items ++ subidentifier_octets arc }
    ensures len { vec_len octets.new ≤ vec_len octets.old + 5 }
    ensures capacity { vec_capacity octets.new ≡ vec_capacity octets.old }
{
    if arc >= 1 << 7 {
        if arc >= 1 << 14 {
            if arc >= 1 << 21 {
                if arc >= 1 << 28 {
                    octets.push_reserved((128 + (arc >> 28) % 128) as u8);
                }
                octets.push_reserved((128 + (arc >> 21) % 128) as u8);
            }
            octets.push_reserved((128 + (arc >> 14) % 128) as u8);
        }
        octets.push_reserved((128 + (arc >> 7) % 128) as u8);
    }
    octets.push_reserved((arc % 128) as u8);
}
