//! The effective set of an alphabet: the permitted set if it is kept, otherwise the base set.
ghost use Rattle.std.specs.Prelude.{◌≡◌, ◌≤◌, ◌^◌, true, false, IsNone, length, is_some, Some};
ghost use Rattle.std.specs.Option.{ForSome, option_copied};
ghost use Rattle.std.specs.List.Sorted.{IsNonDecreasing};
ghost use Rattle.asn1_characters.specs.Sets.{largest};
ghost use Rattle.asn1_alphabets.specs.Alphabet.{kept_set};
ghost use Rattle.asn1_alphabets.specs.AlphabetInMemory.{some_if, HasWords, IsRun, IsSeenRun};

use crate::permitted_set::{is_ascending, is_run, largest_of, largest_of_run};
use asn1_characters::widths::{align, ceil_log2};
use asn1_characters::{CharacterSetName, CharacterWords};

/// The effective set of an alphabet, and the string whose alphabet it is.
#[derive(Clone, Copy)]
pub(crate) enum EffectiveSet<'s> {
    /// All characters of the string.
    Base(CharacterSetName),
    /// A permitted set that is kept.
    Permitted {
        name: CharacterSetName,
        set: &'s [u32],
    },
}

impl<'s> EffectiveSet<'s> {
    ghost use Rattle.asn1_alphabets.specs.EffectiveSets.{name_of, permitted_of, characters_of};

    /// Returns the effective set of a string with a permitted set.
    pub(crate) fn of(name: CharacterSetName, set: &'s [u32], aligned: bool) -> EffectiveSet<'s>
        requires { length set.now ≤ 2 ^ 32 }
        ensures name { name_of result ≡ name }
        ensures set { option_copied (permitted_of result) ≡ kept_set name (Some set.now) aligned }
        ensures few { length (characters_of result) ≤ 2 ^ 32 }
    {
        let count = (set.len() as u64).max(1);
        if name.is_indexed() || align(aligned, ceil_log2(count)) < name.width() as u32 {
            EffectiveSet::Permitted { name, set }
        } else {
            EffectiveSet::Base(name)
        }
    }

    /// Returns the string whose alphabet it is.
    pub(crate) fn name(self) -> CharacterSetName
        ensures { result ≡ name_of self.entry }
    {
        match self {
            EffectiveSet::Permitted { name, .. } | EffectiveSet::Base(name) => name,
        }
    }

    /// Returns the number of its characters.
    pub(crate) fn count(self) -> u64
        ensures { result ≡ length (characters_of self.entry) }
    {
        match self {
            EffectiveSet::Permitted { set, .. } => set.len() as u64,
            EffectiveSet::Base(name) => name.count() as u64,
        }
    }

    /// Returns its largest character. `run` says whether it is known to be contiguous.
    pub(crate) fn largest(self, run: bool) -> u32
        requires { run ≡ true → IsRun (characters_of self) }
        ensures { result ≡ largest (characters_of self.entry) }
    {
        match self {
            EffectiveSet::Permitted { set, .. } if run => largest_of_run(set),
            EffectiveSet::Permitted { set, .. } => largest_of(set),
            EffectiveSet::Base(name) => name.largest(),
        }
    }

    /// Returns whether it is a permitted set that is ascending.
    pub(crate) fn is_ascending(self, run: bool) -> bool
        requires { run ≡ true → IsRun (characters_of self) }
        ensures ascends { result ≡ true → IsNonDecreasing (characters_of self.entry) }
        ensures not_ascending { result ≡ false → is_some (permitted_of self.entry) ≡ true →
            ¬ (IsNonDecreasing (characters_of self.entry)) }
    {
        match self {
            EffectiveSet::Permitted { set, .. } => run || is_ascending(set),
            EffectiveSet::Base(_) => false,
        }
    }

    /// Its words, where its characters are below 256. A contiguous permitted set needs none.
    pub(crate) fn words(self, run: bool, most: u32) -> Option<CharacterWords>
        requires { most ≡ largest (characters_of self) }
        ensures has_words { ForSome result (HasWords (characters_of self.entry)) }
        ensures wordless { IsNone result → run ≡ false → 256 ≤ most }
    {
        match self {
            EffectiveSet::Permitted { set, .. } if !run && most < 256 => {
                Some(CharacterWords::of(set))
            }
            EffectiveSet::Permitted { .. } => None,
            EffectiveSet::Base(name) => match name {
                CharacterSetName::Bmp => None,
                _ => Some(name.words()),
            },
        }
    }

    /// Returns how it lies in memory.
    pub(crate) fn layout(self) -> Layout<'s>
        ensures kept { some_if result.kept result.set ≡ permitted_of self.entry }
        ensures layout { result.run ≡ true → result.set.now ≡ characters_of self.entry }
        ensures gapless { result.run ≡ true → IsRun (characters_of self.entry) }
        ensures seen { let permitted = option_copied (permitted_of self.entry) in
            IsSeenRun (name_of self.entry) permitted result.run }
    {
        match self {
            EffectiveSet::Permitted { set, .. } => Layout {
                kept: true,
                run: is_run(set),
                set,
            },
            EffectiveSet::Base(name) => match name.table() {
                Some(set) => Layout {
                    kept: false,
                    run: true,
                    set,
                },
                None => Layout {
                    kept: false,
                    run: false,
                    set: &[],
                },
            },
        }
    }
}

// How the effective set lies in memory: whether it is a permitted set, and whether it is known to
// be contiguous. In both cases `set` lists it.
#[derive(Clone, Copy)]
pub(crate) struct Layout<'s> {
    pub(crate) kept: bool,
    pub(crate) run: bool,
    pub(crate) set: &'s [u32],
}

/// Splits the option: whether there are words, and these, otherwise the words of no character.
pub(crate) fn split_words(words: Option<CharacterWords>) -> (bool, CharacterWords)
    ensures { some_if result.0 result.1 ≡ words }
{
    match words {
        Some(words) => (true, words),
        None => (false, CharacterWords::new(0, 0, 0, 0)),
    }
}
