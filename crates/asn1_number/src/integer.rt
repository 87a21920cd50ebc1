//! Whole numbers of any size, and their octets (X.690 8.3).
ghost use Rattle.std.specs.Prelude.{◌≡◌, ◌≢◌, ℕ, ◌+◌, ◌*◌, ◌<◌, ◌≤◌, ◌^◌, ◌↔◌, List, [], length, pos, Some};
ghost use Rattle.std.specs.Prelude.{IsTrue, IfOk, IfErr, OnErr, IsErrOf, SomeIff, MatchOption};
ghost use Rattle.std.specs.Int.{IsNonNegative, cast_signed, w128};
ghost use Rattle.std.specs.Ordering.{int_cmp, int_eq, nat_cmp};
ghost use Rattle.std.specs.Cmp.Rules.{comparing, hashing};
ghost use Rattle.std.specs.Hash as fed;
ghost use Rattle.std.proofs.Common.{rules};
ghost use Rattle.asn1_number.specs.Octets.{IsShortest, IsShortestUnsigned, signed, unsigned};
ghost use Rattle.asn1_number.specs.Order.{octets_cmp};
ghost use Rattle.asn1_number.specs.Readings.{IsInRange, FitsI128, kind_i64, kind_u64, kind_u128};
ghost use Rattle.asn1_number.specs.Shortest.{shortest_octets};

use crate::error::IntegerError;
use crate::integer_bytes::IntegerBytes;
use crate::order::{compare_octets, octets_keys, rank_of, sixteen_keys};
use crate::sign_octets::without_redundant_sign_octets_fast;
use crate::values::{
    leading_octets_among, leading_octets_of, sign_extended, signed_value, spare_of_eight,
    unsigned_value, words_of_i128, words_of_octets,
};
use std::alloc::{AllocError, Global};
use std::cmp::Ordering;
use std::hash::{Hash, Hasher};
use std::marker::Model;

/// A whole number of any size. Numbers within `i128` allocate nothing.
#[derive(Debug, Drop)]
pub struct Integer {
    form: Form,
}

/// Each number has one form: inline within `i128`, otherwise its shortest two's complement octets.
#[derive(Debug, Drop)]
enum Form {
    /// The sixteen octets of the number, of which those from `start` on are the shortest. So these
    /// can be borrowed.
    Inline { start: usize, words: [[u8; 8]; 2] },
    Shortest(Vec<u8>),
}

impl Model for Integer {
    ghost use Rattle.std.specs.Prelude.{ℤ};

    ghost Value = { ℤ };

    ghost use Rattle.asn1_number.specs.Forms.{number_in, IsOneForm};

    ghost view = { λ n. number_in n.form };

    ghost invariant = { λ n. IsOneForm n.form };
}

impl Integer {
    /// Returns the number 0.
    pub fn zero() -> Integer
        ensures { result ≡ pos 0 }
    {
        Integer::inline(0)
    }

    /// Returns the number 1.
    pub fn one() -> Integer
        ensures { result ≡ pos 1 }
    {
        Integer::inline(1)
    }

    #[inline(always)]
    pub(crate) fn inline(number: i128) -> Integer
        ensures { result ≡ number }
    {
        let (high, low) = words_of_i128(number);
        Integer::from_words(leading_octets_of(number), high, low)
    }

    /// Returns a number within `i64`: it takes the work of one word.
    pub(crate) fn from_i64_inline(number: i64) -> Integer
        ensures { result ≡ number }
    {
        let (high, low) = sign_extended(number);
        Integer::from_words(8 + spare_of_eight(number), high, low)
    }

    /// Returns the number of two words, whose shortest octets begin at an index of its sixteen.
    fn from_words(start: usize, high: u64, low: u64) -> Integer
        requires { let number = cast_signed w128 (high * 2 ^ 64 + low) in
            start + length (shortest_octets number) ≡ 16 }
        ensures { result ≡ cast_signed w128 (high * 2 ^ 64 + low) }
    {
        Integer {
            form: Form::Inline {
                start,
                words: [high.to_be_bytes(), low.to_be_bytes()],
            },
        }
    }

    /// Returns the two's complement value of one to sixteen octets.
    #[inline(always)]
    fn from_short_octets(octets: &[u8]) -> Integer
        requires some { 0 < length octets.now }
        requires few { length octets.now ≤ 16 }
        ensures { result ≡ signed octets.now }
    {
        let (high, low) = words_of_octets(octets);
        Integer::from_words(leading_octets_among(octets), high, low)
    }

    /// Copies the number.
    ///
    /// # Errors
    ///
    /// Returns `AllocError` if out of memory, never for a number within `i128`.
    pub fn clone(&self) -> Result<Integer, AllocError>
        ensures value { IfOk result (λ n. n ≡ self.now) }
        ensures memory { OnErr result (¬ (FitsI128 self.now)) }
    {
        match &self.form {
            Form::Inline { start, words } => Ok(Integer {
                form: Form::Inline {
                    start: *start,
                    words: *words,
                },
            }),
            Form::Shortest(octets) => {
                let Ok(copy) = Vec::from_slice(*octets.allocator(), octets.as_slice()) else {
                    return Err(AllocError);
                };
                Ok(Integer {
                    form: Form::Shortest(copy),
                })
            }
        }
    }

    /// Returns the two's complement value of the octets, at any length (X.690 8.3.3).
    ///
    /// # Errors
    ///
    /// Returns `UnexpectedEmptyInput` if there are no octets, and `Memory` if out of memory for a
    /// value outside `i128`.
    #[inline(always)]
    pub fn from_signed_octets(alloc: Global, octets: &[u8]) -> Result<Integer, IntegerError>
        ensures empty { octets.now ≡ [] → IsErrOf result IntegerError.UnexpectedEmptyInput }
        ensures value { IfOk result (λ n. n ≡ signed octets.now) }
        ensures memory { octets.now ≢ []
            → IfErr result (λ e. (e ≡ IntegerError.Memory) × ¬ (FitsI128 (signed octets.now))) }
    {
        if octets.is_empty() {
            return Err(IntegerError::UnexpectedEmptyInput);
        }
        if octets.len() <= 16 {
            return Ok(Integer::from_short_octets(octets));
        }
        Integer::from_long_octets(alloc, octets)
    }

    /// Does what `from_signed_octets` does for more than 16 octets. Inlined, so that the stack
    /// slot for the call's result is initialised on this path alone.
    #[inline(always)]
    fn from_long_octets(alloc: Global, octets: &[u8]) -> Result<Integer, IntegerError>
        requires { 0 < length octets.now }
        ensures value { IfOk result (λ n. n ≡ signed octets.now) }
        ensures memory { IfErr result
            (λ e. (e ≡ IntegerError.Memory) × ¬ (FitsI128 (signed octets.now))) }
    {
        match Integer::from_long_octets_in_memory(alloc, octets) {
            Ok(number) => Ok(number),
            Err(_) => Err(IntegerError::Memory),
        }
    }

    /// Returns the two's complement value of many octets, which take memory.
    #[inline(never)]
    fn from_long_octets_in_memory(alloc: Global, octets: &[u8]) -> Result<Integer, IntegerError>
        requires { 0 < length octets.now }
        ensures value { IfOk result (λ n. n ≡ signed octets.now) }
        ensures memory { IfErr result
            (λ e. (e ≡ IntegerError.Memory) × ¬ (FitsI128 (signed octets.now))) }
    {
        let kept = without_redundant_sign_octets_fast(octets);
        if kept.len() <= 16 {
            return Ok(Integer::from_short_octets(kept));
        }
        let Ok(kept) = Vec::from_slice(alloc, kept) else {
            return Err(IntegerError::Memory);
        };
        Ok(Integer {
            form: Form::Shortest(kept),
        })
    }

    /// Returns the unsigned value of the octets, at any length.
    ///
    /// # Errors
    ///
    /// Returns `UnexpectedEmptyInput` if there are no octets, and `Memory` if out of memory for a
    /// value outside `i128`.
    pub fn from_unsigned_octets(alloc: Global, octets: &[u8]) -> Result<Integer, IntegerError>
        ensures empty { octets.now ≡ [] → IsErrOf result IntegerError.UnexpectedEmptyInput }
        ensures value { IfOk result (λ n. n ≡ pos (unsigned octets.now)) }
        ensures memory { octets.now ≢ []
            → IfErr result (λ e.
            (e ≡ IntegerError.Memory) × ¬ (FitsI128 (pos (unsigned octets.now)))) }
    {
        if octets.is_empty() {
            return Err(IntegerError::UnexpectedEmptyInput);
        }
        if octets[0] < 128 {
            return Integer::from_signed_octets(alloc, octets);
        }
        if octets.len() < 16 {
            return Ok(Integer::inline(unsigned_value(octets) as i128));
        }
        // Bit 8 of the first octet is set: a zero octet before it keeps it from being a sign.
        let Ok(mut kept) = Vec::with_capacity(alloc, octets.len() + 1) else {
            return Err(IntegerError::Memory);
        };
        kept.push(0).unwrap();
        kept.extend_from_slice(octets).unwrap();
        Ok(Integer {
            form: Form::Shortest(kept),
        })
    }

    /// Returns the shortest two's complement octets, the contents of an INTEGER (X.690 8.3).
    pub fn signed_octets(&self) -> IntegerBytes<'_>
        ensures { IsShortest self.now result }
    {
        match &self.form {
            Form::Inline { start, words } => {
                IntegerBytes::borrowed(&words.as_flattened()[*start..])
            }
            Form::Shortest(octets) => IntegerBytes::borrowed(octets.as_slice()),
        }
    }

    /// Returns the number of octets of `signed_octets`.
    pub fn signed_len(&self) -> usize
        ensures { (o : List ℕ) → IsShortest self.now o → result ≡ length o }
    {
        match &self.form {
            Form::Inline { start, .. } => 16 - *start,
            Form::Shortest(octets) => octets.as_slice().len(),
        }
    }

    /// Returns the shortest unsigned octets. The number must not be negative.
    pub fn unsigned_octets(&self) -> IntegerBytes<'_>
        requires { IsNonNegative self.now }
        ensures { (n : ℕ) → self.now ≡ pos n → IsShortestUnsigned n result }
    {
        self.signed_octets().without_sign()
    }

    /// Maps both numbers to a `u64` each: comparing the two compares the numbers.
    fn order_keys(&self, other: &Integer) -> (u64, u64)
        ensures { nat_cmp result.0 result.1 ≡ int_cmp self.now other.now }
    {
        match (&self.form, &other.form) {
            (Form::Inline { words, .. }, Form::Inline { words: others, .. }) => {
                sixteen_keys(words.as_flattened(), others.as_flattened())
            }
            (Form::Shortest(octets), Form::Shortest(others)) => {
                octets_keys(octets.as_slice(), others.as_slice())
            }
            _ => (rank_of(self.compare_by_octets(other)), 1),
        }
    }

    /// Returns the order of two numbers by their octets. Two numbers in one form are compared
    /// without this call.
    #[cold]
    #[inline(never)]
    fn compare_by_octets(&self, other: &Integer) -> Ordering
        ensures { result ≡ int_cmp self.now other.now }
    {
        let octets = self.signed_octets();
        let others = other.signed_octets();
        compare_octets(octets.as_ref(), others.as_ref())
    }

    /// Returns the number if it lies within `i128`, otherwise `None`.
    pub fn to_i128(&self) -> Option<i128>
        ensures { SomeIff result (FitsI128 self.now) self.now }
    {
        match &self.form {
            Form::Inline { words, .. } => Some(signed_value(words.as_flattened())),
            Form::Shortest(_) => None,
        }
    }

    /// Returns the number if it lies within `i64`, otherwise `None`.
    pub fn to_i64(&self) -> Option<i64>
        ensures { SomeIff result (IsInRange kind_i64 self.now) self.now }
    {
        self.to_i128().and_then(|number| i64::try_from(number).ok())
    }

    /// Returns the number if it lies within `u64`, otherwise `None`.
    pub fn to_u64(&self) -> Option<u64>
        ensures { MatchOption result (¬ (IsInRange kind_u64 self.now))
            (λ n. (pos n ≡ self.now) × IsInRange kind_u64 self.now) }
    {
        self.to_i128().and_then(|number| u64::try_from(number).ok())
    }

    /// Returns the number if it lies within `u128`, otherwise `None`.
    pub fn to_u128(&self) -> Option<u128>
        ensures { MatchOption result (¬ (IsInRange kind_u128 self.now))
            (λ n. (pos n ≡ self.now) × IsInRange kind_u128 self.now) }
    {
        match &self.form {
            Form::Inline { words, .. } => u128::try_from(signed_value(words.as_flattened())).ok(),
            Form::Shortest(octets) => match octets.as_slice() {
                [0, rest @ ..] if rest.len() == 16 => Some(unsigned_value(rest)),
                _ => None,
            },
        }
    }
}

impl Default for Integer {
    ghost is_default = { λ n. n ≡ pos 0 };

    fn default() -> Integer {
        Integer::zero()
    }
}

impl PartialEq for Integer {
    ghost eq = { int_eq };

    ghost laws = { Prim.search (comparing, rules) };

    fn eq(&self, other: &Integer) -> bool
        ensures value { result ≡ int_eq self.now other.now }
        ensures numbers { IsTrue result ↔ (self.now ≡ other.now) }
        ensures octets { (a b : List ℕ) → IsShortest self.now a → IsShortest other.now b
            → IsTrue result ↔ (a ≡ b) }
    {
        self.cmp(other).is_eq()
    }
}

impl Eq for Integer {
    ghost laws = { Prim.search rules };
}

impl PartialOrd for Integer {
    ghost partial_cmp = { λ x y. Some (int_cmp x y) };

    ghost laws = { Prim.search (comparing, rules) };

    fn partial_cmp(&self, other: &Integer) -> Option<Ordering> {
        Some(self.cmp(other))
    }
}

impl Ord for Integer {
    ghost cmp = { int_cmp };

    ghost total = { Prim.search rules };

    ghost matches_partial_cmp = { Prim.search rules };

    ghost matches_eq = { Prim.search rules };

    fn cmp(&self, other: &Integer) -> Ordering
        ensures value { result ≡ int_cmp self.now other.now }
        ensures octets { (a b : List ℕ) → IsShortest self.now a → IsShortest other.now b
            → result ≡ octets_cmp a b }
    {
        let (key, other) = self.order_keys(other);
        key.cmp(&other)
    }
}

impl Hash for Integer {
    ghost hash_input = { λ n. fed.slice fed.u8 (shortest_octets n) };

    ghost respects_eq = { Prim.search (hashing, rules) };

    fn hash<H: Hasher>(&self, state: &mut H) {
        let octets = self.signed_octets();
        octets.as_ref().hash(state);
    }
}
