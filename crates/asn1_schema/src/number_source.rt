//! Numbers one after another: the characters of a string, or octets.

ghost use Rattle.std.specs.Prelude.{◌≡◌, ◌<◌, ◌^◌, ℕ, List, length, min, slice_index};

/// Numbers one after another: the characters of a string, or octets.
pub trait NumberSource {
    /// The numbers.
    ghost list: { Self → List ℕ };

    /// Returns how many numbers there are.
    fn count(&self) -> usize
        ensures { result ≡ length (list self.now) };

    /// Returns the number at an index, or 2^32 if it is greater. The index must be less than
    /// [`Self::count`].
    fn number(&self, index: usize) -> u64
        requires { index < length (list self.now) }
        ensures { result ≡ min (slice_index (list self.now) index) (2 ^ 32) };
}
