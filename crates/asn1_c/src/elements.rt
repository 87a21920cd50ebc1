//! Elements of DER (X.690 8.1), one after another.

ghost use Rattle.std.specs.Prelude.{◌≡◌, ◌≢◌, ◌↔◌, ◌<◌, ◌≤◌, ◌*◌, ◌^◌, length};
ghost use Rattle.asn1_c.specs.Elements.{IsElementAt, IsElementFaultAt, HasLargeTagAt, class_number, fault_code};

use crate::codes::{
    CONTENTS, DONE, INDEFINITE, NOT_MINIMAL, OUTSIDE, RESERVED, SHORT, TAG_LARGE, TOO_MANY,
};
use asn1_x690::{Class, FaultKind};
use asn1_x690_fields::{State, next_header};

/// An element of octets, as C sees it.
#[repr(C)]
#[derive(Clone, Copy, Debug)]
pub struct Element {
    /// The class of its tag: 0 universal, 1 application, 2 context-specific, 3 private.
    pub class: u32,
    /// Whether its contents are elements.
    pub constructed: bool,
    /// The number of its tag.
    pub number: u64,
    /// The first octet of its contents.
    pub first: usize,
    /// How many octets its contents have.
    pub length: usize,
    /// The first octet after it.
    pub end: usize,
}

/// Returns the number of a class (X.690 8.1.2.2).
fn number_of_class(class: Class) -> u32
    ensures { result ≡ class_number class }
{
    match class {
        Class::Universal => 0,
        Class::Application => 1,
        Class::Context => 2,
        Class::Private => 3,
    }
}

/// Returns the code of a fault.
fn code_of(kind: FaultKind) -> u32
    ensures code { result ≡ fault_code kind }
    ensures some { result ≢ 0 }
    ensures outside { result ≢ 1 }
    ensures too_many { result ≢ 23 }
    ensures large { result ≢ 31 }
{
    match kind {
        FaultKind::Short => SHORT,
        FaultKind::NotMinimal => NOT_MINIMAL,
        FaultKind::Indefinite => INDEFINITE,
        FaultKind::Reserved => RESERVED,
        _ => CONTENTS,
    }
}

/// Reads the element that begins at the position: its tag, where its contents octets lie, and where
/// the next element begins. The contents octets are not examined.
#[unsafe(no_mangle)]
pub extern "C" fn asn1v_der_next(octets: &[u8], position: usize, element: &mut Element) -> u32
    ensures element { result ≡ 0 → IsElementAt octets.now position element.new }
    ensures large { result ≡ 31 → HasLargeTagAt octets.now position }
    ensures fault { result ≢ 0 → result ≢ 1 → result ≢ 23 → result ≢ 31
        → IsElementFaultAt octets.now position result }
    ensures too_many { result ≡ 23 ↔ (2 ^ 64 ≤ 8 * length octets.now) }
    ensures outside { result ≢ 23 → (result ≡ 1 ↔ (length octets.now < position)) }
    ensures unchanged { result ≢ 0 → element.new ≡ element.old }
{
    if octets.len() > usize::MAX / 8 {
        return TOO_MANY;
    }
    if position > octets.len() {
        return OUTSIDE;
    }
    let mut state = State {
        at: 8 * position,
        end: 8 * octets.len(),
        count: 0,
        node: 0,
        kind: FaultKind::Short,
    };
    let Some(header) = next_header(octets, 0, &mut state) else {
        return code_of(state.kind);
    };
    let Some(number) = header.identifier.number else {
        return TAG_LARGE;
    };
    *element = Element {
        class: number_of_class(header.identifier.class),
        constructed: header.identifier.is_constructed,
        number,
        first: header.from / 8,
        length: (header.to - header.from) / 8,
        end: header.to / 8,
    };
    DONE
}
