//! Search in lists of characters: binary search in long ascending lists, otherwise one by one.
ghost use Rattle.std.specs.Prelude.{◌≡◌, ◌≤◌, ◌+◌, ◌<◌, ◌^◌, ℕ, true, false, List, length, slice_get, slice_index, Some, OnSome, MatchOption};
ghost use Rattle.std.specs.List.Sorted.{IsNonDecreasing};
ghost use Rattle.asn1_characters.specs.Sets.{has_character};
ghost use Rattle.asn1_characters.specs.Widths.{ceil_log2};
ghost use Rattle.asn1_alphabets.specs.Alphabet.{IsLongAscending};

use asn1_bits::Turns;
use std::fmt;

/// A list of numbers. Reading one entry is a probe.
pub trait Entries {
    /// The list.
    ghost list: { Self → List ℕ };

    /// The number of calls of `entry`. Implement it as the `count` of a `Turns` field that `entry`
    /// ticks.
    ghost looks: { Self → ℕ };

    /// Returns the number of entries.
    fn count(&self) -> usize
        ensures { result ≡ length (list self.now) };

    /// Returns the entry at an index, by one look and one probe.
    ///
    /// The index must be below the number of entries.
    fn entry(&mut self, i: usize, probes: &mut Turns) -> u32
        requires { i < length (list self.old) }
        ensures value { result ≡ slice_index (list self.old) i }
        ensures same { list self.new ≡ list self.old }
        ensures counted { looks self.new ≡ looks self.old + 1 }
        ensures probe { probes.new.count ≡ probes.old.count + 1 };
}

/// A list in memory, and the number of probes of it, which takes no bytes.
#[derive(Drop)]
pub struct CountedSlice<'a> {
    /// The list.
    pub entries: &'a [u32],
    /// How many probes were made.
    pub taken: Turns,
}

impl<'a> CountedSlice<'a> {
    /// Returns the list, with no probe made yet.
    pub fn at(entries: &'a [u32]) -> CountedSlice<'a>
        ensures list { result.entries.now ≡ entries.now }
        ensures none { result.taken.count ≡ 0 }
    {
        CountedSlice {
            entries,
            taken: Turns::new(),
        }
    }
}

impl fmt::Debug for CountedSlice<'_> {
    fn fmt<W: fmt::Write>(&self, f: &mut fmt::Formatter<W>) -> fmt::Result {
        fmt::Debug::fmt(&self.entries, f)
    }
}

impl<'a> Entries for CountedSlice<'a> {
    ghost list = { λ s. s.entries.now };

    ghost looks = { λ s. s.taken.count };

    fn count(&self) -> usize {
        self.entries.len()
    }

    fn entry(&mut self, i: usize, probes: &mut Turns) -> u32 {
        probes.tick();
        self.taken.tick();
        self.entries[i]
    }
}

/// Returns the first index of the character, and `None` if the list lacks it: entry by entry, each
/// a look and a probe.
pub(crate) fn find_one_by_one<L: Entries>(
    entries: &mut L,
    character: u32,
    probes: &mut Turns,
) -> Option<usize>
    ensures place { MatchOption result (has_character (L.list entries.old) character ≡ false)
        (λ k. slice_get (L.list entries.old) k ≡ Some character) }
    ensures each_look_counts { probes.new.count + L.looks entries.old
        ≡ probes.old.count + L.looks entries.new }
    ensures looked { OnSome result (probes.old.count + 1 ≤ probes.new.count) }
    ensures counts { probes.old.count ≤ probes.new.count }
{
    for i in 0..entries.count() {
        if entries.entry(i, probes) == character {
            return Some(i);
        }
    }
    None
}

/// Returns an index of the character in an ascending list, or `None` if the list lacks it. Among N
/// entries it makes at most w + 1 probes, where w is the least width in bits in which N things have
/// codes, and at least one if it returns an index. Each probe reads one entry of the list.
///
/// The list must be ascending: no entry is below the one before it.
pub fn find_ascending<L: Entries>(
    entries: &mut L,
    character: u32,
    probes: &mut Turns,
) -> Option<usize>
    requires { IsNonDecreasing (L.list entries.old) }
    ensures place { MatchOption result (has_character (L.list entries.old) character ≡ false)
        (λ k. slice_get (L.list entries.old) k ≡ Some character) }
    ensures same { L.list entries.new ≡ L.list entries.old }
    // Each probe is a look that the list counts.
    ensures each_look_counts { probes.new.count + L.looks entries.old
        ≡ probes.old.count + L.looks entries.new }
    ensures looked { OnSome result (probes.old.count + 1 ≤ probes.new.count) }
    ensures counts { probes.old.count ≤ probes.new.count }
    ensures cost { let most = ceil_log2 (length (L.list entries.old)) + 1 in
        probes.new.count ≤ probes.old.count + most }
{
    let mut low = 0;
    let mut high = entries.count();
    while low < high {
        let middle = low + (high - low) / 2;
        let entry = entries.entry(middle, probes);
        if entry == character {
            return Some(middle);
        }
        if entry < character {
            low = middle + 1;
        } else {
            high = middle;
        }
    }
    None
}

/// Returns an index of the character: by binary search in a long ascending list, otherwise one
/// by one. It reads the list by probes alone.
#[inline(always)]
fn place_among<L: Entries>(
    entries: &mut L,
    ascending: bool,
    character: u32,
    probes: &mut Turns,
) -> Option<usize>
    requires ascends { ascending ≡ true → IsNonDecreasing (L.list entries.old) }
    requires not_ascending { ascending ≡ false → ¬ (IsNonDecreasing (L.list entries.old)) }
    ensures place { MatchOption result (has_character (L.list entries.old) character ≡ false)
        (λ k. slice_get (L.list entries.old) k ≡ Some character) }
    ensures each_look_counts { probes.new.count + L.looks entries.old
        ≡ probes.old.count + L.looks entries.new }
    ensures counts { probes.old.count ≤ probes.new.count }
    ensures cost { let list = L.list entries.old in
        IsLongAscending list → probes.new.count ≤ probes.old.count + (ceil_log2 (length list) + 1) }
    ensures looked { OnSome result (probes.old.count + 1 ≤ probes.new.count) }
{
    if ascending && entries.count() > 64 {
        find_ascending(entries, character, probes)
    } else {
        find_one_by_one(entries, character, probes)
    }
}

/// Returns an index of the character in a permitted set.
#[inline(never)]
pub(crate) fn place_by_looks(
    set: &[u32],
    ascending: bool,
    character: u32,
    probes: &mut Turns,
) -> Option<u32>
    requires few { length set.now ≤ 2 ^ 32 }
    requires ascends { ascending ≡ true → IsNonDecreasing set.now }
    requires not_ascending { ascending ≡ false → ¬ (IsNonDecreasing set.now) }
    ensures place { MatchOption result (has_character set.now character ≡ false)
        (λ k. slice_get set.now k ≡ Some character) }
    ensures counts { probes.old.count ≤ probes.new.count }
    ensures cost { IsLongAscending set.now →
        probes.new.count ≤ probes.old.count + (ceil_log2 (length set.now) + 1) }
    ensures looked { IsLongAscending set.now →
        OnSome result (probes.old.count + 1 ≤ probes.new.count) }
{
    let place = place_among(&mut CountedSlice::at(set), ascending, character, probes)?;
    Some(place as u32)
}
