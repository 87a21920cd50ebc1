//! The alphabets that characters are written in (X.691 30.5).
ghost use Rattle.std.specs.Prelude.{◌≡◌, ◌≢◌, ◌≤◌, ◌+◌, ◌<◌, ◌^◌, ℕ, true, false, AllPairs, length, slice_get, is_some, Some, OnSome, OnOk, MatchBool, MatchOption};
ghost use Rattle.std.specs.Option.{ForSome, option_copied};
ghost use Rattle.asn1_characters.specs.Sets.{has_character, largest};
ghost use Rattle.asn1_characters.specs.Widths.{ceil_log2};
ghost use Rattle.asn1_alphabets.specs.Alphabet.{is_indexed, alphabet_on, effective, IsCode, missing_error, uncoded_error, Encodes, Decodes, IsLongAscending};
ghost use Rattle.asn1_alphabets.specs.AlphabetInMemory.{some_if, IsKnown};

use crate::effective_set::{EffectiveSet, split_words};
use crate::permitted_set::{largest_of, repeats_in};
use crate::run::Run;
use crate::search::place_by_looks;
use asn1_bits::Turns;
use asn1_characters::widths::{codes_of, width_for};
use asn1_characters::{
    CharacterSetName, CharacterWords, HasCharacterSet, InvalidRestrictedString,
    PermittedAlphabetError,
};

/// Returns whether characters are encoded by their indices in `width` bits: the largest of the set,
/// or 0 for an empty set, does not fit them. The width must be at most 31.
pub fn should_be_indexed(width: u32, set: &[u32]) -> bool
    requires { width ≤ 31 }
    ensures { result ≡ is_indexed width set.now }
{
    1 << width <= largest_of(set)
}

/// A set of characters, their width in bits, and whether a character is encoded by its index in the
/// set or by its value. No call allocates.
#[derive(Clone, Copy, Debug)]
pub struct CharacterAlphabet<'s> {
    name: CharacterSetName,
    // At most 32 bits.
    width: u8,
    indexed: bool,
    // Whether the effective set is the permitted set. Else it is the base set of `name`.
    kept: bool,
    // Whether the permitted set is ascending: no character is below the one before it.
    ascending: bool,
    // Whether the effective set is contiguous: each character is one more than the one before it.
    run: bool,
    // Whether the words are those of the effective set. Then its characters are below 256.
    has_words: bool,
    // The effective set, where it is a permitted set or contiguous. Else it is empty.
    set: &'s [u32],
    words: CharacterWords,
    ghost known: { IsKnown name kept set width indexed ascending run (some_if has_words words) },
}

impl<'s> CharacterAlphabet<'s> {
    ghost use Rattle.asn1_alphabets.specs.AlphabetView.{alphabet_of};
    ghost use Rattle.asn1_alphabets.specs.EffectiveSets.{name_of, permitted_of, characters_of};

    /// Returns the alphabet of the string `S`. Its set is the permitted set if `S` is indexed or
    /// needs more bits than that set, otherwise the base set. A permitted set may hold characters
    /// that the base set lacks. The permitted set must have at most 2^32 characters.
    #[inline(always)]
    pub fn new<S: HasCharacterSet>(
        permitted: Option<&'s [u32]>,
        aligned: bool,
    ) -> CharacterAlphabet<'s>
        requires { ForSome (option_copied permitted) (λ set. length set ≤ 2 ^ 32) }
        ensures { let set = option_copied permitted.entry in
            alphabet_of result ≡ effective S.CHARACTER_SET_NAME set aligned }
    {
        let name = S::CHARACTER_SET_NAME;
        match permitted {
            Some(set) => CharacterAlphabet::permitted_by(name, set, aligned),
            None => CharacterAlphabet::of_set(EffectiveSet::Base(name), aligned),
        }
    }

    /// Returns the alphabet of an effective set.
    #[inline(always)]
    fn of_set(set: EffectiveSet<'s>, aligned: bool) -> CharacterAlphabet<'s>
        requires { length (characters_of set) ≤ 2 ^ 32 }
        ensures { let kept = option_copied (permitted_of set.entry) in
            alphabet_of result ≡ alphabet_on (name_of set.entry) kept aligned }
    {
        let width = width_for(aligned, set.count());
        let layout = set.layout();
        let run = layout.run;
        let largest = set.largest(run);
        let indexed = codes_of(width) <= largest as u64;
        let ascending = set.is_ascending(run);
        let (has_words, words) = split_words(set.words(run, largest));
        CharacterAlphabet {
            name: set.name(),
            width: width as u8,
            indexed,
            kept: layout.kept,
            ascending,
            run,
            has_words,
            set: layout.set,
            words,
        }
    }

    /// Returns the alphabet of a string with this permitted set.
    #[inline(never)]
    fn permitted_by(name: CharacterSetName, set: &'s [u32], aligned: bool) -> CharacterAlphabet<'s>
        requires { length set.now ≤ 2 ^ 32 }
        ensures { alphabet_of result ≡ effective name (Some set.now) aligned }
    {
        CharacterAlphabet::of_set(EffectiveSet::of(name, set, aligned), aligned)
    }

    /// Returns the width of a character in bits, at most 32.
    pub fn width(&self) -> usize
        ensures value { result ≡ (alphabet_of self.now).width }
        ensures bound { result ≤ 32 }
        ensures codes { (c k : ℕ) → IsCode (alphabet_of self.now) c k → k < 2 ^ result }
    {
        self.width as usize
    }

    /// Returns whether a character is encoded by its index in the set, otherwise by its value.
    pub fn is_indexed(&self) -> bool
        ensures { result ≡ (alphabet_of self.now).indexed }
    {
        self.indexed
    }

    /// Returns the number of characters of the effective set.
    pub fn len(&self) -> usize
        ensures { result ≡ length (alphabet_of self.now).characters }
    {
        match self.permitted() {
            Some(set) => set.len(),
            None => self.name.count() as usize,
        }
    }

    /// Returns whether the effective set has the character.
    pub fn contains(&self, character: u32) -> bool
        ensures { result ≡ has_character (alphabet_of self.now).characters character }
    {
        self.contains_counted(character, &mut Turns::new())
    }

    /// Returns a code of the character.
    ///
    /// # Errors
    ///
    /// If it has none: `CharacterNotFound` for a permitted set, the string's own for a base set.
    #[inline(always)]
    pub fn encode(&self, character: u32) -> Result<u32, PermittedAlphabetError>
        ensures { Encodes (alphabet_of self.now) character result }
    {
        self.encode_counted(character, &mut Turns::new())
    }

    /// Returns a code of the character, and counts probes: at most w + 1 in an ascending set of
    /// more than 64 characters, where w is the least width in bits in which they have codes.
    ///
    /// # Errors
    ///
    /// Returns the errors of `encode`.
    #[inline(always)]
    pub fn encode_counted(
        &self,
        character: u32,
        probes: &mut Turns,
    ) -> Result<u32, PermittedAlphabetError>
        ensures code { Encodes (alphabet_of self.now) character result }
        ensures counts { probes.old.count ≤ probes.new.count }
        ensures cost { let set = (alphabet_of self.now).characters in
            IsLongAscending set → probes.new.count ≤ probes.old.count + ceil_log2 (length set) + 1 }
        ensures looked { IsLongAscending (alphabet_of self.now).characters →
            (alphabet_of self.now).indexed ≡ true →
            OnOk result (probes.old.count + 1 ≤ probes.new.count) }
    {
        match self.code_of(character, probes) {
            Some(code) => Ok(code),
            None => Err(self.missing(character)),
        }
    }

    /// Returns the character of the code.
    ///
    /// # Errors
    ///
    /// If there is none: `IndexNotFound` if the alphabet is indexed, otherwise as `encode`.
    #[inline(always)]
    pub fn decode(&self, code: u32) -> Result<u32, PermittedAlphabetError>
        ensures character { Decodes (alphabet_of self.now) code result }
        // No code is of two characters.
        ensures of_one { let alphabet = alphabet_of self.now in
            (c d : ℕ) → IsCode alphabet c code → IsCode alphabet d code → c ≡ d }
    {
        match self.character_of(code) {
            Some(character) => Ok(character),
            None => Err(self.uncoded(code)),
        }
    }

    /// Returns whether the set has a character twice. If not, each character has one code.
    pub fn repeats(&self) -> bool
        ensures twice { let set = (alphabet_of self.now).characters in
            MatchBool result (¬ (AllPairs (λ a b. a ≢ b) set)) (AllPairs (λ a b. a ≢ b) set) }
        ensures once { result ≡ false → (c j k : ℕ) → IsCode (alphabet_of self.now) c j →
            IsCode (alphabet_of self.now) c k → j ≡ k }
    {
        match self.permitted() {
            Some(set) => repeats_in(set, self.ascending),
            None => false,
        }
    }

    /// Returns the permitted set, where it is kept.
    fn permitted(&self) -> Option<&'s [u32]>
        ensures { result ≡ some_if self.now.kept self.now.set }
    {
        if self.kept { Some(self.set) } else { None }
    }

    /// Returns the error for a character that the set lacks.
    #[cold]
    #[inline(never)]
    fn missing(&self, character: u32) -> PermittedAlphabetError
        ensures { result ≡ missing_error (alphabet_of self.now) character }
    {
        match self.permitted() {
            Some(_) => PermittedAlphabetError::CharacterNotFound { character },
            None => PermittedAlphabetError::InvalidRestrictedString {
                source: InvalidRestrictedString::of(self.name, character),
            },
        }
    }

    /// Returns the error for a number that is no code.
    #[cold]
    #[inline(never)]
    fn uncoded(&self, code: u32) -> PermittedAlphabetError
        ensures { result ≡ uncoded_error (alphabet_of self.now) code }
    {
        if self.indexed {
            PermittedAlphabetError::IndexNotFound {
                index: code as usize,
            }
        } else {
            self.missing(code)
        }
    }

    /// Returns a code of the character, and `None` if it has none.
    #[inline(always)]
    fn code_of(&self, character: u32, probes: &mut Turns) -> Option<u32>
        ensures code { MatchOption result
            (has_character (alphabet_of self.now).characters character ≡ false)
            (λ k. IsCode (alphabet_of self.now) character k) }
        ensures counts { probes.old.count ≤ probes.new.count }
        ensures cost { let set = (alphabet_of self.now).characters in
            IsLongAscending set → probes.new.count ≤ probes.old.count + ceil_log2 (length set) + 1 }
        ensures looked { IsLongAscending (alphabet_of self.now).characters →
            (alphabet_of self.now).indexed ≡ true →
            OnSome result (probes.old.count + 1 ≤ probes.new.count) }
    {
        if self.run {
            let place = Run::of(self.set).place(character, probes)?;
            return Some(if self.indexed { place } else { character });
        }
        if self.indexed {
            return self.place_of(character, probes);
        }
        if self.contains_counted(character, probes) {
            Some(character)
        } else {
            None
        }
    }

    /// Returns the character of the code, and `None` if it is no code.
    #[inline(always)]
    fn character_of(&self, code: u32) -> Option<u32>
        ensures { MatchOption result ((c : ℕ) → ¬ (IsCode (alphabet_of self.now) c code))
            (λ c. IsCode (alphabet_of self.now) c code) }
    {
        if self.indexed {
            return self.character_at(code);
        }
        if self.contains_counted(code, &mut Turns::new()) {
            Some(code)
        } else {
            None
        }
    }

    /// Returns whether the set has the character: by its ends where it is contiguous, by its words
    /// where it has any.
    #[inline(always)]
    fn contains_counted(&self, character: u32, probes: &mut Turns) -> bool
        ensures value { result ≡ has_character (alphabet_of self.now).characters character }
        ensures counts { probes.old.count ≤ probes.new.count }
        ensures cost { let set = (alphabet_of self.now).characters in
            IsLongAscending set → probes.new.count ≤ probes.old.count + ceil_log2 (length set) + 1 }
    {
        if self.run {
            return Run::of(self.set).place(character, probes).is_some();
        }
        if self.has_words {
            return self.words.contains(character);
        }
        self.contains_by_looks(character, probes)
    }

    /// Returns whether the set has the character: by probes of a permitted set, otherwise as its
    /// base set says.
    #[inline(never)]
    fn contains_by_looks(&self, character: u32, probes: &mut Turns) -> bool
        ensures value { result ≡ has_character (alphabet_of self.now).characters character }
        ensures counts { probes.old.count ≤ probes.new.count }
        ensures cost { let set = (alphabet_of self.now).characters in
            IsLongAscending set →
            probes.new.count ≤ probes.old.count + (ceil_log2 (length set) + 1) }
    {
        match self.permitted() {
            Some(set) => place_by_looks(set, self.ascending, character, probes).is_some(),
            None => self.name.contains(character),
        }
    }

    /// Returns an index of the character, in a set that is written by indices and not contiguous.
    #[inline(always)]
    fn place_of(&self, character: u32, probes: &mut Turns) -> Option<u32>
        requires { self.now.indexed ≡ true }
        ensures place { let set = (alphabet_of self.now).characters in
            MatchOption result (has_character set character ≡ false)
            (λ k. slice_get set k ≡ Some character) }
        ensures counts { probes.old.count ≤ probes.new.count }
        ensures cost { let set = (alphabet_of self.now).characters in
            IsLongAscending set → probes.new.count ≤ probes.old.count + ceil_log2 (length set) + 1 }
        ensures looked { IsLongAscending (alphabet_of self.now).characters →
            OnSome result (probes.old.count + 1 ≤ probes.new.count) }
    {
        match self.permitted() {
            Some(set) => place_by_looks(set, self.ascending, character, probes),
            None => self.name.place_of(character),
        }
    }

    /// Returns the character at an index: in a contiguous set it is that far from the first.
    #[inline(always)]
    fn character_at(&self, place: u32) -> Option<u32>
        ensures { result ≡ slice_get (alphabet_of self.now).characters place }
    {
        if self.run {
            return Run::of(self.set).character(place);
        }
        match self.permitted() {
            Some(set) => set.get(place as usize).copied(),
            None => self.name.character_at(place),
        }
    }
}
