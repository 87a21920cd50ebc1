//! What a message has at its first fault, and what was expected there.

ghost use Rattle.std.specs.Prelude.{◌≡◌, ◌≢◌, ◌≤◌, ◌<◌, ◌^◌, ◌*◌, ◌/◌, ℕ, length, IfSome, IfNone};
ghost use Rattle.asn1_x690.specs.declared.fault.FaultKind.TheVariants.{OtherTag, Extra};
ghost use Rattle.asn1_x690_decode.specs.Explanations.{IsElementAt, HasNoElementAt};

use crate::context::Context;
use crate::expected::Expected;
use crate::message::Fault;
use crate::tag_name::TagName;
use asn1_x690::FaultKind;
use asn1_x690_fields::{FoundIdentifier, Header, State, next_header};
use std::fmt;

/// An element of a message.
#[derive(Clone, Copy, Debug, PartialEq, Eq)]
pub struct FoundElement {
    /// The index of its first bit.
    pub at: usize,
    /// Its identifier.
    pub identifier: FoundIdentifier,
}

/// Why a message has a fault. Its `Display` writes the offset and the [`Reason`], as
/// `offset 12: expected [0], found SEQUENCE`.
#[derive(Clone, Copy, Debug)]
pub struct Explanation<'s> {
    /// The fault.
    pub fault: Fault,
    /// The element with another tag or form than its type has, or after the last value. `None` for another
    /// fault, and if there is no whole element.
    pub found: Option<FoundElement>,
    /// The tags that were expected.
    pub expected: Expected<'s>,
}

/// Returns the header of the element that begins at the bit of an index. `None` if no element begins there:
/// octets are missing, or its identifier or its length is invalid.
///
/// There must be fewer than 2^61 octets, and `at` must be at most the number of their bits.
pub fn header_at(octets: &[u8], at: usize) -> Option<Header>
    requires size { 8 * length octets.now < 2 ^ 64 }
    requires inside { at ≤ 8 * length octets.now }
    ensures is { IfSome result (λ h. IsElementAt octets.now at h.from h.to h.identifier) }
    ensures absent { IfNone result (HasNoElementAt octets.now at) }
    ensures begins { IfSome result (λ h. at < h.from) }
    ensures ordered { IfSome result (λ h. h.from ≤ h.to) }
{
    let mut state = State {
        at,
        end: 8 * octets.len(),
        count: 0,
        node: 0,
        kind: FaultKind::Short,
    };
    next_header(octets, 0, &mut state)
}

/// Returns the element whose contents octets begin at an index. It walks over the elements from the first
/// one, and into each that reaches the index.
#[cold]
fn element_before(octets: &[u8], from: usize) -> Option<FoundElement>
    requires { 8 * length octets.now < 2 ^ 64 }
    ensures { IfSome result (λ e. (to : ℕ) × IsElementAt octets.now e.at from to e.identifier) }
{
    let mut at = 0;
    while at < from && at < 8 * octets.len() {
        match header_at(octets, at) {
            None => return None,
            Some(header) => {
                if header.from == from {
                    return Some(FoundElement {
                        at,
                        identifier: header.identifier,
                    });
                }
                at = if from <= header.to {
                    header.from
                } else {
                    header.to
                };
            }
        }
    }
    None
}

/// Returns the element at an index. `None` if no element begins there.
#[cold]
fn element_at(octets: &[u8], at: usize) -> Option<FoundElement>
    requires { 8 * length octets.now < 2 ^ 64 }
    ensures at { IfSome result (λ e. e.at ≡ at) }
    ensures is { IfSome result (λ e. (from : ℕ) × (to : ℕ) × IsElementAt octets.now at from to e.identifier) }
    ensures absent { IfNone result (HasNoElementAt octets.now at) }
{
    if at > 8 * octets.len() {
        return None;
    }
    match header_at(octets, at) {
        None => None,
        Some(header) => Some(FoundElement {
            at,
            identifier: header.identifier,
        }),
    }
}

/// Explains a fault that [`decode`](crate::decode) returned for a message. It reads the element at the
/// fault again.
///
/// The message must have fewer than 2^61 octets.
#[cold]
pub fn explain<'s>(context: &Context<'s>, fault: Fault) -> Explanation<'s>
    requires { 8 * length context.now.octets.now < 2 ^ 64 }
    ensures fault { result.fault ≡ fault }
    ensures node { result.expected.node ≡ fault.node }
    ensures tag { fault.kind ≡ OtherTag
        → IfSome result.found (λ e. (to : ℕ) × IsElementAt context.now.octets.now e.at fault.at to e.identifier) }
    ensures extra { fault.kind ≡ Extra
        → IfSome result.found (λ e. (from : ℕ) × (to : ℕ)
        × IsElementAt context.now.octets.now fault.at from to e.identifier) }
    ensures extra_at { fault.kind ≡ Extra → IfSome result.found (λ e. e.at ≡ fault.at) }
    ensures extra_absent { fault.kind ≡ Extra
        → IfNone result.found (HasNoElementAt context.now.octets.now fault.at) }

    // No other fault is that of an element.
    ensures absent { fault.kind ≢ OtherTag → fault.kind ≢ Extra → result.found ≡ None }
{
    let found = match fault.kind {
        FaultKind::OtherTag => element_before(context.octets, fault.at),
        FaultKind::Extra => element_at(context.octets, fault.at),
        _ => None,
    };
    Explanation {
        fault,
        found,
        expected: Expected {
            tables: context.tables,
            tags: context.tags,
            node: fault.node,
        },
    }
}

impl Explanation<'_> {
    /// Returns the offset, in octets, of the element that was found, or of the fault if there is none.
    pub fn offset(&self) -> usize
        ensures found { IfSome self.now.found (λ e. result ≡ e.at / 8) }
        ensures absent { IfNone self.now.found (result ≡ self.now.fault.at / 8) }
    {
        match self.found {
            Some(element) => element.at / 8,
            None => self.fault.at / 8,
        }
    }
}

impl fmt::Display for Explanation<'_> {
    fn fmt<W: fmt::Write>(&self, f: &mut fmt::Formatter<W>) -> fmt::Result {
        let reason = Reason { explanation: *self };
        write!(f, "offset {}: {reason}", self.offset())
    }
}

/// What was expected and what was found at a fault. Its `Display` writes it without the offset, as
/// `expected UTCTime or GeneralizedTime, found SEQUENCE`.
#[derive(Clone, Copy, Debug)]
pub struct Reason<'s> {
    /// The fault, and what was expected and found.
    pub explanation: Explanation<'s>,
}

impl fmt::Display for Reason<'_> {
    fn fmt<W: fmt::Write>(&self, f: &mut fmt::Formatter<W>) -> fmt::Result {
        let Explanation {
            fault,
            found,
            expected,
        } = self.explanation;
        match fault.kind {
            FaultKind::OtherTag => write!(f, "expected {expected}")?,
            FaultKind::Missing => write!(f, "{}: expected {expected}", fault.kind)?,
            _ => write!(f, "{}", fault.kind)?,
        }
        let Some(element) = found else {
            return Ok(());
        };
        let form = if expected.has_tag(&element.identifier) {
            form_of(element.identifier.is_constructed)
        } else {
            ""
        };
        let name = TagName {
            identifier: element.identifier,
        };
        write!(f, ", found {form}{name}")
    }
}

/// Returns the word for a form, before a tag.
fn form_of(is_constructed: bool) -> &'static str {
    if is_constructed {
        "constructed "
    } else {
        "primitive "
    }
}
