//! The contents of identifiers (X.690 8.19), read.

ghost use Rattle.std.specs.Prelude.{◌≡◌, ◌≢◌, ◌↔◌, ◌<◌, ◌≤◌, ◌+◌, ℕ, List, [], Ok, Err, None, length, drop, slice_index, vec_len, vec_capacity, All, IsOk, IfSome, IfNone, MatchResult};
ghost use Rattle.asn1_oid.specs.Contents.{IsContents, FitU32};
ghost use Rattle.asn1_oid.specs.Reading.{Stands, contents_reading, largest_first, numbers_of};

use std::alloc::{AllocError, Global};
use thiserror::Error;

/// A list of octets: a slice, or octets at any bit of a storage.
pub trait OctetSource {
    /// The list.
    ghost list: { Self → List ℕ };

    /// Returns the number of octets.
    fn count(&self) -> usize
        ensures count { result ≡ length (list self.now) }
        ensures octets { All (λ octet. octet < 256) (list self.now) };

    /// Returns the octet at an index.
    ///
    /// The index must be below the number of octets.
    fn octet(&self, i: usize) -> u8
        requires { i < length (list self.now) }
        ensures { result ≡ slice_index (list self.now) i };
}

impl OctetSource for &[u8] {
    ghost list = { λ s. s.now };

    fn count(&self) -> usize {
        are_octets(*self);
        self.len()
    }

    fn octet(&self, i: usize) -> u8 {
        self[i]
    }
}

/// States that octets are below 256. It does nothing.
fn are_octets(octets: &[u8])
    ensures { All (λ octet. octet < 256) octets.now }
{}

/// Why octets are not the contents of an identifier, or could not be read as such.
#[derive(Clone, Copy, Debug, Drop, Error, PartialEq, Eq, PartialOrd, Ord, Hash)]
pub enum ContentsError {
    /// They are no contents, however large arcs may be: the list is empty, a subidentifier begins
    /// with 80 (hexadecimal), or the last one does not end.
    #[error("no contents of an object identifier")]
    Malformed,
    /// They are the contents of arcs, one of which exceeds `u32`.
    #[error("an arc of more than 32 bits")]
    ArcTooLarge,
    /// They are the contents of an identifier, but out of memory.
    #[error("out of memory")]
    Memory,
}

impl From<AllocError> for ContentsError {
    ghost use Rattle.std.specs.Prelude.{◌≡◌};
    ghost use Rattle.asn1_oid.specs.declared.contents.ContentsError.TheVariants.{Memory};

    ghost from_gives = { λ _ e. e ≡ Memory };

    fn from(_error: AllocError) -> ContentsError {
        ContentsError::Memory
    }
}

/// The largest number of a first subidentifier: 40 times 2, and the largest arc.
const LARGEST_FIRST: u64 = 4_294_967_375;

/// The largest number of another subidentifier.
const LARGEST_OTHER: u64 = 4_294_967_295;

/// Checks that the octets are the contents of an identifier whose arcs all fit `u32` (X.690 8.19).
///
/// # Errors
///
/// Returns `Malformed` if the octets are the contents of no arcs, however large, otherwise
/// `ArcTooLarge` if an arc exceeds `u32`. It never returns `Memory`.
pub fn check_contents<S: OctetSource>(source: &S) -> Result<(), ContentsError>
    ensures ok { IsOk result
        ↔ ((arcs : List ℕ) × IsContents arcs (S.list source.now) × FitU32 arcs) }
    ensures arc_too_large { (result ≡ Err ContentsError.ArcTooLarge)
        ↔ ((arcs : List ℕ) × IsContents arcs (S.list source.now) × ¬ (FitU32 arcs)) }
    ensures malformed { (result ≡ Err ContentsError.Malformed)
        ↔ ((arcs : List ℕ) → ¬ (IsContents arcs (S.list source.now))) }
    // It allocates nothing.
    ensures memory { result ≢ Err ContentsError.Memory }
{
    examine(source)
}

/// Skips all subidentifiers.
pub(crate) fn examine<S: OctetSource>(source: &S) -> Result<(), ContentsError>
    ensures reading { MatchResult result (λ _. IsOk (contents_reading (S.list source.now)))
        (λ e. contents_reading (S.list source.now) ≡ Err e) }
    ensures octets { All (λ octet. octet < 256) (S.list source.now) }
{
    let count = source.count();
    let Some((first, mut at)) = subidentifier_at(source, 0) else {
        return Err(ContentsError::Malformed);
    };
    let mut fit = first <= LARGEST_FIRST;
    while at < count {
        let Some((number, next)) = subidentifier_at(source, at) else {
            return Err(ContentsError::Malformed);
        };
        fit = fit && number <= LARGEST_OTHER;
        at = next;
    }
    if fit {
        Ok(())
    } else {
        Err(ContentsError::ArcTooLarge)
    }
}

/// Returns the arcs of contents. `None` if the octets are contents of no arcs that fit, or out of
/// memory.
pub(crate) fn arcs_in<S: OctetSource>(alloc: Global, source: &S) -> Option<Vec<u32>>
    ensures arcs { IfSome result (λ arcs. contents_reading (S.list source.now) ≡ Ok arcs.items) }
    ensures octets { All (λ octet. octet < 256) (S.list source.now) }
{
    let count = source.count();
    let mut arcs = room_for(alloc, count)?;
    let (first, mut at) = fitting_at(source, 0, LARGEST_FIRST)?;
    let x = (first / 40).min(2);
    arcs.push_reserved(x as u32);
    arcs.push_reserved((first - 40 * x) as u32);
    while at < count {
        let (number, next) = fitting_at(source, at, LARGEST_OTHER)?;
        arcs.push_reserved(number as u32);
        at = next;
    }
    Some(arcs)
}

/// Makes room for the arcs of `count` octets: one more than these, of which the first may have two.
fn room_for(alloc: Global, count: usize) -> Option<Vec<u32>>
    ensures empty { IfSome result (λ arcs. arcs.items ≡ []) }
    ensures room { IfSome result (λ arcs. (vec_len arcs ≡ 0) × (count + 1 ≤ vec_capacity arcs)) }
{
    Vec::with_capacity(alloc, count.checked_add(1)?).ok()
}

/// Returns the number of the subidentifier at an index, and the index after it; `None` if there is
/// none, or a larger one.
fn fitting_at<S: OctetSource>(source: &S, at: usize, largest: u64) -> Option<(u64, usize)>
    requires { at ≤ length (S.list source.now) }
    ensures stands { IfSome result
        (λ r. Stands (S.list source.now) at r.0 r.1 (largest_first + 1)) }
    ensures fits { IfSome result (λ r. r.0 ≤ largest) }
{
    let (number, next) = subidentifier_at(source, at)?;
    if number <= largest {
        Some((number, next))
    } else {
        None
    }
}

/// Returns the number of the subidentifier at an index, which stops growing where no arc can be so
/// large, and the index after it; `None` if there is none.
fn subidentifier_at<S: OctetSource>(source: &S, at: usize) -> Option<(u64, usize)>
    requires { at ≤ length (S.list source.now) }
    ensures some { IfSome result (λ r. Stands (S.list source.now) at r.0 r.1 (largest_first + 1)) }
    ensures none { IfNone result (at < length (S.list source.now)
        → numbers_of (drop at (S.list source.now)) ≡ None) }
{
    let count = source.count();
    if at == count {
        return None;
    }
    let first = source.octet(at);
    if first < 128 {
        return Some((u64::from(first), at + 1));
    }
    if first == 0x80 {
        return None;
    }
    let mut number = u64::from(first % 128);
    for i in at + 1..count {
        let octet = source.octet(i);
        number = (128 * number + u64::from(octet % 128)).min(LARGEST_FIRST + 1);
        if octet < 128 {
            return Some((number, i + 1));
        }
    }
    None
}
