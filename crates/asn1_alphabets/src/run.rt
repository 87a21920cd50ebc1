//! Contiguous lists of characters: each is one more than the one before it.
ghost use Rattle.std.specs.Prelude.{◌≡◌, ◌+◌, ◌<◌, ◌^◌, false, slice_get, Some, MatchOption};
ghost use Rattle.std.specs.List.{range_with_len};
ghost use Rattle.asn1_characters.specs.Sets.{has_character};
ghost use Rattle.asn1_alphabets.specs.AlphabetInMemory.{IsRun};

use asn1_bits::Turns;

/// A contiguous list of characters, by its first and how many it has.
#[derive(Clone, Copy)]
pub(crate) struct Run {
    first: u32,
    count: u32,
    ghost some: { 0 < count },
    ghost ends: { first + count < 2 ^ 32 },
}

impl Run {
    /// Returns the run of a contiguous list. Its first character and its length are read.
    #[inline(always)]
    pub(crate) fn of(set: &[u32]) -> Run
        requires { IsRun set.now }
        ensures { range_with_len result.first result.count ≡ set.now }
    {
        Run {
            first: set[0],
            count: set.len() as u32,
        }
    }

    /// Returns an index of the character: its distance from the first, which is one probe. A
    /// character below the first wraps to a distance past the last.
    #[inline(always)]
    pub(crate) fn place(self, character: u32, probes: &mut Turns) -> Option<u32>
        ensures place { let set = range_with_len self.first self.count in
            MatchOption result (has_character set character ≡ false)
            (λ k. slice_get set k ≡ Some character) }
        ensures probe { probes.new.count ≡ probes.old.count + 1 }
    {
        probes.tick();
        let distance = character.wrapping_sub(self.first);
        if distance < self.count {
            Some(distance)
        } else {
            None
        }
    }

    /// Returns the character at an index.
    #[inline(always)]
    pub(crate) fn character(self, place: u32) -> Option<u32>
        ensures { result ≡ slice_get (range_with_len self.first self.count) place }
    {
        if place < self.count {
            Some(self.first + place)
        } else {
            None
        }
    }
}
