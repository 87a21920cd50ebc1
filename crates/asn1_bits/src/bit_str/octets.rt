//! The octets of a view.

ghost use Rattle.std.specs.Prelude.{◌≡◌, ◌+◌, ◌*◌, ◌<◌, ◌%◌, ◌↔◌, ◌++◌, length, vec_len, IsSome, IsOk, IfSome, OnOk, OnErr, All, take};
ghost use Rattle.asn1_bits.specs.Bits.{bits};
ghost use Rattle.asn1_bits.specs.BitStr.{view_of, bits_of};
ghost use Rattle.asn1_bits.specs.View.{IsAligned};

use super::BitStr;
use crate::kernels::write_bitslice;
use crate::single_bits::from_octet;
use crate::turns::Turns;
use std::alloc::AllocError;

impl<'a> BitStr<'a> {
    /// Borrows the octets, if the view begins and ends on octet boundaries of the storage.
    pub(crate) fn aligned(&self) -> Option<&'a [u8]>
        ensures aligned { IsSome result ↔ IsAligned (view_of self.now) }
        ensures bits { IfSome result (λ o. bits o.now ≡ bits_of self.now) }
        ensures count { IfSome result (λ o. 8 * length o.now ≡ (view_of self.now).len) }
        ensures octets { IfSome result (λ o. All (λ octet. octet < 256) o.now) }
    {
        if self.shift != 0 || self.len % 8 != 0 {
            return None;
        }
        let (octets, _) = from_octet(self.storage, self.octet).split_at(self.len / 8);
        Some(octets)
    }

    /// Appends the octets to the vector. Returns an error if out of memory; the vector is unchanged
    /// then.
    pub(crate) fn push_octets_to(&self, octets: &mut Vec<u8>) -> Result<(), AllocError>
        requires { (view_of self.now).len % 8 ≡ 0 }
        ensures ok { OnOk result
            (bits octets.new.items ≡ bits octets.old.items ++ bits_of self.now) }
        ensures front { OnOk result
            (take (vec_len octets.old) octets.new.items ≡ octets.old.items) }
        ensures octets { All (λ octet. octet < 256) octets.new.items }
        ensures count { OnOk result
            (8 * vec_len octets.new ≡ 8 * vec_len octets.old + (view_of self.now).len) }
        ensures err { OnErr result (octets.new.items ≡ octets.old.items) }
        ensures free { (view_of self.now).len ≡ 0 → IsOk result }
    {
        if self.len > 0 {
            if let Some(own) = self.aligned() {
                octets.extend_from_slice(own)?;
                return Ok(());
            }
        }
        self.push_moved_octets_to(octets)
    }

    /// Does what `push_octets_to` does for views off the octet boundary: the octets are ORed into
    /// zeros.
    fn push_moved_octets_to(&self, octets: &mut Vec<u8>) -> Result<(), AllocError>
        requires { (view_of self.now).len % 8 ≡ 0 }
        ensures ok { OnOk result
            (bits octets.new.items ≡ bits octets.old.items ++ bits_of self.now) }
        ensures front { OnOk result
            (take (vec_len octets.old) octets.new.items ≡ octets.old.items) }
        ensures octets { All (λ octet. octet < 256) octets.new.items }
        ensures count { OnOk result
            (8 * vec_len octets.new ≡ 8 * vec_len octets.old + (view_of self.now).len) }
        ensures err { OnErr result (octets.new.items ≡ octets.old.items) }
        ensures free { (view_of self.now).len ≡ 0 → IsOk result }
    {
        let count = self.len / 8;
        if count == 0 {
            return Ok(());
        }
        let front = octets.len();
        let Some(needed) = front.checked_add(count) else {
            return Err(AllocError);
        };
        octets.resize(needed, 0)?;
        let (_, room) = octets.as_mut_slice().split_at_mut(front);
        write_bitslice(room, 0, *self, &mut Turns::new());
        Ok(())
    }
}
