//! Permitted sets: lists of characters in the caller's order.
ghost use Rattle.std.specs.Prelude.{◌≡◌, ◌≢◌, ◌↔◌, true, false, AllPairs, IsTrue, MatchBool};
ghost use Rattle.std.specs.List.Sorted.{IsNonDecreasing};
ghost use Rattle.asn1_characters.specs.Sets.{largest};
ghost use Rattle.asn1_alphabets.specs.AlphabetInMemory.{IsRun};

/// Returns the largest character, or 0.
pub(crate) fn largest_of(set: &[u32]) -> u32
    ensures { result ≡ largest set.now }
{
    let mut most = 0;
    for character in set {
        most = most.max(*character);
    }
    most
}

/// Returns the largest character of a contiguous list: its last.
pub(crate) fn largest_of_run(set: &[u32]) -> u32
    requires { IsRun set.now }
    ensures { result ≡ largest set.now }
{
    set[set.len() - 1]
}

/// Returns whether the list has a character twice. An ascending one is walked once.
pub(crate) fn repeats_in(set: &[u32], ascending: bool) -> bool
    requires { ascending ≡ true → IsNonDecreasing set.now }
    ensures { MatchBool result (¬ (AllPairs (λ a b. a ≢ b) set.now))
        (AllPairs (λ a b. a ≢ b) set.now) }
{
    if ascending {
        return repeats_in_ascending(set);
    }
    for i in 0..set.len() {
        let rest = &set[i + 1..];
        if rest.contains(&set[i]) {
            return true;
        }
    }
    false
}

/// Returns whether an ascending list has a character twice: then two neighbours are equal.
fn repeats_in_ascending(set: &[u32]) -> bool
    requires { IsNonDecreasing set.now }
    ensures { MatchBool result (¬ (AllPairs (λ a b. a ≢ b) set.now))
        (AllPairs (λ a b. a ≢ b) set.now) }
{
    for i in 1..set.len() {
        if set[i] == set[i - 1] {
            return true;
        }
    }
    false
}

/// Returns whether the list is ascending: no entry is below the one before it.
pub(crate) fn is_ascending(set: &[u32]) -> bool
    ensures ascends { result ≡ true → IsNonDecreasing set.now }
    ensures not_ascending { result ≡ false → ¬ (IsNonDecreasing set.now) }
{
    for i in 1..set.len() {
        if set[i] < set[i - 1] {
            return false;
        }
    }
    true
}

/// Returns whether some characters are contiguous, and below 2^32. No early exit, so that the loop
/// vectorises.
pub(crate) fn is_run(set: &[u32]) -> bool
    ensures { IsTrue result ↔ IsRun set.now }
{
    if set.is_empty() {
        return false;
    }
    let first = set[0];
    if first as u64 + set.len() as u64 >= 1 << 32 {
        return false;
    }
    let mut run = true;
    let mut next = first;
    for character in set {
        run = run & (*character == next);
        next += 1;
    }
    run
}
