//! The codes of characters in alphabets (X.691 30.5).

ghost use Rattle.std.specs.Prelude.{◌≡◌, ◌≢◌, ◌↔◌, ◌<◌, ◌≤◌, ◌^◌, ℕ, true, Some, None, length, MatchOption};
ghost use Rattle.std.specs.Option.{ForSome, option_copied};
ghost use Rattle.asn1_alphabets.specs.Alphabet.{Alphabet as Plain, effective, IsCode};
ghost use Rattle.asn1_alphabets.specs.AlphabetView.{alphabet_of};
ghost use Rattle.asn1_c.specs.Sets.{set_named, alphabet_named, alphabet_in};

use crate::codes::{ALPHABET, CHARACTER, CODE, DONE, KIND, SET};
use crate::strings::set_of_kind;
use asn1_values::{
    BmpString, CharacterAlphabet, CharacterSetName, GeneralString, GraphicString, Ia5String,
    NumericString, PrintableString, TeletexString, VisibleString,
};

/// The alphabet of a string, which `asn1v_alphabet_new` fills.
#[repr(C)]
#[derive(Clone, Copy, Debug)]
pub struct Alphabet<'s> {
    /// Which string.
    pub kind: u32,
    /// Whether there is a permitted set.
    pub permitted: bool,
    /// Whether the width is rounded up to a power of two.
    pub aligned: bool,
    /// The permitted set, if there is one.
    pub set: &'s [u32],
}

impl<'s> Alphabet<'s> {
    /// Returns the alphabet as the layer below has it, if the struct names one.
    pub(crate) fn read(&self) -> Option<CharacterAlphabet<'s>>
        ensures { MatchOption result (alphabet_in self.now ≡ None)
            (λ a. alphabet_in self.now ≡ Some (alphabet_of a)) }
    {
        if self.permitted && self.set.len() > 4_294_967_296 {
            return None;
        }
        let Some(name) = set_of_kind(self.kind) else {
            return None;
        };
        if self.permitted {
            return Some(alphabet_for(name, Some(self.set), self.aligned));
        }
        Some(alphabet_for(name, None, self.aligned))
    }
}

/// Returns the alphabet of a string with a permitted set, if there is one.
fn alphabet_for<'s>(
    name: CharacterSetName,
    permitted: Option<&'s [u32]>,
    aligned: bool,
) -> CharacterAlphabet<'s>
    requires { ForSome (option_copied permitted) (λ set. length set ≤ 2 ^ 32) }
    ensures { alphabet_of result ≡ effective name (option_copied permitted.entry) aligned }
{
    match name {
        CharacterSetName::Bmp => CharacterAlphabet::new::<BmpString>(permitted, aligned),
        CharacterSetName::General => CharacterAlphabet::new::<GeneralString>(permitted, aligned),
        CharacterSetName::Graphic => CharacterAlphabet::new::<GraphicString>(permitted, aligned),
        CharacterSetName::IA5 => CharacterAlphabet::new::<Ia5String>(permitted, aligned),
        CharacterSetName::Numeric => CharacterAlphabet::new::<NumericString>(permitted, aligned),
        CharacterSetName::Printable => {
            CharacterAlphabet::new::<PrintableString>(permitted, aligned)
        }
        CharacterSetName::Teletex => CharacterAlphabet::new::<TeletexString>(permitted, aligned),
        CharacterSetName::Visible => CharacterAlphabet::new::<VisibleString>(permitted, aligned),
    }
}

/// Fills the alphabet of a string. The set is the permitted one where `permitted` says so, otherwise it is
/// not read. The alphabet refers to the set, and copies none of it.
#[unsafe(no_mangle)]
pub extern "C" fn asn1v_alphabet_new<'s>(
    kind: u32,
    permitted: bool,
    set: &'s [u32],
    aligned: bool,
    alphabet: &mut Alphabet<'s>,
) -> u32
    ensures filled { result ≡ 0
        → alphabet_in alphabet.new ≡ alphabet_named kind permitted set.entry.now aligned }
    ensures some { result ≡ 0 → alphabet_in alphabet.new ≢ None }
    ensures kind { result ≡ 10 ↔ (set_named kind ≡ None) }
    ensures set { result ≡ 13 → (permitted ≡ true) × (2 ^ 32 < length set.entry.now) }
    ensures few { result ≡ 0 → permitted ≡ true → length set.entry.now ≤ 2 ^ 32 }
    ensures codes { result ≢ 0 → result ≢ 10 → result ≡ 13 }
    ensures unchanged { result ≢ 0 → alphabet.new ≡ alphabet.old }
{
    let None = set_of_kind(kind) else {
        if permitted && set.len() > 4_294_967_296 {
            return SET;
        }
        *alphabet = Alphabet {
            kind,
            permitted,
            aligned,
            set,
        };
        return DONE;
    };
    KIND
}

/// Encodes a character in an alphabet.
#[unsafe(no_mangle)]
pub extern "C" fn asn1v_alphabet_encode(
    alphabet: &Alphabet<'_>,
    character: u32,
    code: &mut u32,
) -> u32
    ensures encoded { (a : Plain) → alphabet_in alphabet.now ≡ Some a
        → result ≡ 0 → IsCode a character code.new × (code.new < 2 ^ a.width) }
    ensures missing { (a : Plain) → alphabet_in alphabet.now ≡ Some a
        → result ≡ 12 → (k : ℕ) → ¬ (IsCode a character k) }
    ensures none { result ≡ 22 ↔ (alphabet_in alphabet.now ≡ None) }
    ensures codes { result ≢ 0 → result ≢ 12 → result ≡ 22 }
    ensures unchanged { result ≢ 0 → code.new ≡ code.old }
{
    let Some(read) = alphabet.read() else {
        return ALPHABET;
    };
    match read.encode(character) {
        Ok(found) => {
            *code = found;
            DONE
        }
        Err(_) => CHARACTER,
    }
}

/// Decodes a code of an alphabet.
#[unsafe(no_mangle)]
pub extern "C" fn asn1v_alphabet_decode(
    alphabet: &Alphabet<'_>,
    code: u32,
    character: &mut u32,
) -> u32
    ensures decoded { (a : Plain) → alphabet_in alphabet.now ≡ Some a
        → result ≡ 0 → IsCode a character.new code }
    ensures missing { (a : Plain) → alphabet_in alphabet.now ≡ Some a
        → result ≡ 14 → (c : ℕ) → ¬ (IsCode a c code) }
    ensures none { result ≡ 22 ↔ (alphabet_in alphabet.now ≡ None) }
    ensures codes { result ≢ 0 → result ≢ 14 → result ≡ 22 }
    ensures unchanged { result ≢ 0 → character.new ≡ character.old }
{
    let Some(read) = alphabet.read() else {
        return ALPHABET;
    };
    match read.decode(code) {
        Ok(found) => {
            *character = found;
            DONE
        }
        Err(_) => CODE,
    }
}

/// Returns how many bits each code of an alphabet takes, at most 32.
#[unsafe(no_mangle)]
pub extern "C" fn asn1v_alphabet_width(alphabet: &Alphabet<'_>, width: &mut usize) -> u32
    ensures width { (a : Plain) → alphabet_in alphabet.now ≡ Some a → result ≡ 0
        → width.new ≡ a.width }
    ensures bound { result ≡ 0 → width.new ≤ 32 }
    ensures none { result ≡ 22 ↔ (alphabet_in alphabet.now ≡ None) }
    ensures codes { result ≢ 0 → result ≡ 22 }
    ensures unchanged { result ≢ 0 → width.new ≡ width.old }
{
    let Some(read) = alphabet.read() else {
        return ALPHABET;
    };
    *width = read.width();
    DONE
}
