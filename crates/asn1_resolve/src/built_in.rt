//! The types that are defined by an associated type: EXTERNAL (X.690 8.18, X.691 29), EMBEDDED PDV
//! (X.680 36.5), CHARACTER STRING (X.680 44.5) and INSTANCE OF (X.681 C.7).

use asn1_definitions::{Place, Scope};
use asn1_notation::{Entry, Item, NO_ENTRY, NotationError, Problem, Word, wide};
use std::alloc::{AllocError, Global};

/// Their definitions, in the order of `WORDS`. The data-value-descriptor of EMBEDDED PDV and CHARACTER
/// STRING, which has the tag 1, is always absent, and has no presence bit in PER (X.691 28.3, 31.3).
const DEFINITIONS: &str = "
Associated-Types DEFINITIONS IMPLICIT TAGS ::= BEGIN
EXTERNAL-Type ::= [UNIVERSAL 8] SEQUENCE {
    direct-reference OBJECT IDENTIFIER OPTIONAL,
    indirect-reference INTEGER OPTIONAL,
    data-value-descriptor ObjectDescriptor OPTIONAL,
    encoding CHOICE {
        single-ASN1-type [0] ANY,
        octet-aligned [1] OCTET STRING,
        arbitrary [2] BIT STRING } }
EMBEDDED-PDV-Type ::= [UNIVERSAL 11] SEQUENCE {
    identification [0] Identification,
    data-value [2] OCTET STRING }
CHARACTER-STRING-Type ::= [UNIVERSAL 29] SEQUENCE {
    identification [0] Identification,
    string-value [2] OCTET STRING }
INSTANCE-OF-Type ::= [UNIVERSAL 8] SEQUENCE {
    type-id OBJECT IDENTIFIER,
    value [0] ANY }
Identification ::= CHOICE {
    syntaxes [0] SEQUENCE {
        abstract [0] OBJECT IDENTIFIER,
        transfer [1] OBJECT IDENTIFIER },
    syntax [1] OBJECT IDENTIFIER,
    presentation-context-id [2] INTEGER,
    context-negotiation [3] SEQUENCE {
        presentation-context-id [0] INTEGER,
        transfer-syntax [1] OBJECT IDENTIFIER },
    transfer-syntax [4] OBJECT IDENTIFIER,
    fixed [5] NULL }
END
";

/// The first word of each of the types.
const WORDS: [Word; 4] = [
    Word::External,
    Word::Embedded,
    Word::Character,
    Word::Instance,
];

/// What of a text shows that it may have one of the types.
const SIGNS: [&str; 4] = ["EXTERNAL", "EMBEDDED", "CHARACTER", "INSTANCE"];

/// Returns a text of modules, followed by the definitions of the associated types if it may name one.
pub(crate) fn with_associated_types(alloc: Global, text: &str) -> Result<String, AllocError> {
    let mut whole = String::from_str(alloc, text)?;
    if SIGNS.iter().any(|sign| text.contains(*sign)) {
        whole.push_str(DEFINITIONS)?;
    }
    Ok(whole)
}

/// Returns the index of the last module.
fn last_module(tape: &[Entry]) -> usize {
    let mut found = 0usize;
    let mut next = 0usize;
    for _ in 0..tape.len() {
        let Some(entry) = tape.get(next) else {
            break;
        };
        if entry.item == Item::Module {
            found = next;
        }
        next = wide(entry.end);
    }
    found
}

/// Returns the index of the definition of the type that a word begins, in the module of the associated
/// types.
fn definition_of(tape: &[Entry], module: usize, word: Word) -> Option<usize> {
    let mut next = module.saturating_add(1);
    for row in &WORDS {
        if *row == word {
            return Some(next);
        }
        next = wide(tape.get(next)?.end);
    }
    None
}

/// Makes each of the types a reference to its definition. The entries must be those of a text with the
/// definitions, whose own text begins at the octet `from`.
pub(crate) fn refer_to_associated_types(tape: &mut [Entry], from: usize) {
    let module = last_module(tape);
    let home = tape.get(module).copied().unwrap_or(NO_ENTRY);
    if wide(home.from) < from {
        return;
    }
    for index in 0..tape.len() {
        let Some(entry) = tape.get(index).copied() else {
            break;
        };
        if entry.item != Item::Plain {
            continue;
        }
        let Some(definition) = entry
            .word
            .and_then(|word| definition_of(tape, module, word))
            .and_then(|index| tape.get(index).copied())
        else {
            continue;
        };
        if let Some(kept) = tape.get_mut(index) {
            *kept = Entry {
                item: Item::ExternalReference,
                word: None,
                from: home.from,
                count: home.count,
                ..entry
            };
        }
        if let Some(name) = tape.get_mut(index.saturating_add(1)) {
            name.from = definition.from;
            name.count = definition.count;
        }
    }
}

/// Returns whether a type is EMBEDDED PDV or CHARACTER STRING, by the index of its associated type.
fn has_identification(tape: &[Entry], module: usize, index: usize) -> bool {
    [Word::Embedded, Word::Character].iter().any(|word| {
        match definition_of(tape, module, *word) {
            Some(definition) => match tape.get(definition) {
                Some(entry) => definition < index && index < wide(entry.end),
                None => false,
            },
            None => false,
        }
    })
}

/// Returns an error if EMBEDDED PDV or CHARACTER STRING has a constraint in an instance: PER encodes some
/// of these in another way (X.691 28.1, 31.1).
pub(crate) fn check_constraints(scope: Scope<'_>, instance: usize) -> Result<(), NotationError> {
    let module = last_module(scope.tape);
    let home = scope.entry(module);
    if scope.text_of(home) != b"Associated-Types".as_slice() {
        return Ok(());
    }
    let mut walk = scope.walk(instance);
    for _ in 0..scope.most() {
        let Some(place) = walk.next(scope) else {
            break;
        };
        if !scope.item(place).is_type() {
            continue;
        }
        let Some(constraint) = scope.find_in(place, Item::Constraint) else {
            continue;
        };
        let base: Place = scope.base(place)?;
        if base.module == module && has_identification(scope.tape, module, base.index) {
            let feature = "a constraint of EMBEDDED PDV or CHARACTER STRING (X.691 28.1)";
            return Err(scope.error(Problem::Unsupported(feature), constraint));
        }
    }
    Ok(())
}
