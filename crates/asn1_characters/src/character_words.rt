//! Sets of characters below 256, a bit for each character.
ghost use Rattle.std.specs.Prelude.{◌≡◌, ◌<◌, ◌∷◌, [], ◌==◌, ◌&&◌, ◌||◌, ℕ, nat_lt, length};
ghost use Rattle.asn1_characters.specs.Sets.{has_character, largest};
ghost use Rattle.asn1_characters.specs.Words.{in_words};

/// A set of characters below 256 as four words of 64 bits: character c has bit c % 64 of word c /
/// 64.
#[derive(Clone, Copy, Debug)]
pub struct CharacterWords {
    /// The words, that of the least characters first.
    pub words: [u64; 4],
    ghost four: { length words ≡ 4 },
}

impl CharacterWords {
    /// Returns the set of these words, that of the least characters first.
    pub const fn new(first: u64, second: u64, third: u64, fourth: u64) -> CharacterWords
        ensures { result.words ≡ first ∷ second ∷ third ∷ fourth ∷ [] }
    {
        CharacterWords {
            words: [first, second, third, fourth],
        }
    }

    /// Returns whether the set has the character. It has none from 256 on.
    pub fn contains(&self, character: u32) -> bool
        ensures { result ≡ (nat_lt character 256 && in_words self.now.words character) }
    {
        if character >= 256 {
            return false;
        }
        let word = self.words[(character / 64) as usize];
        (word >> (character % 64)) % 2 == 1
    }

    /// Returns the set of a list of characters.
    ///
    /// The characters must be below 256.
    pub fn of(set: &[u32]) -> CharacterWords
        requires { largest set.now < 256 }
        ensures { (c : ℕ) → c < 256 → in_words result.words c ≡ has_character set.now c }
    {
        let mut words = CharacterWords::new(0, 0, 0, 0);
        for character in set {
            words = words.with(*character);
        }
        words
    }

    /// Returns these words with the bit of one more character.
    fn with(self, character: u32) -> CharacterWords
        requires { character < 256 }
        ensures { (c : ℕ) → c < 256 →
            in_words result.words c ≡ (character == c || in_words self.words c) }
    {
        let mut words = self.words;
        let place = (character / 64) as usize;
        words[place] = words[place] | (1 << (character % 64));
        CharacterWords { words }
    }
}
