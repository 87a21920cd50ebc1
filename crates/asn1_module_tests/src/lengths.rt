//! Lengths of one octet and more in DER (X.690 8.1.3), whatever is said of how many octets they take.

use asn1_resolve::Schema;
use asn1_schema::{Part, Span};
use asn1_x690_encode::{Context, encode, measure};
use asn1_x691_encode::Defaults;
use std::alloc::{AllocError, Global};
use std::cell::Cell;
use std::test::Fail;

/// The most octets of a string here.
const MOST: usize = 70_000;

/// Appends the identifier and the length of an element of `count` contents octets.
fn push_header(octets: &mut Vec<u8>, identifier: u8, count: usize) -> Result<(), AllocError> {
    octets.push(identifier)?;
    if count >= 65_536 {
        octets.extend_from_slice(&[
            0x83,
            (count / 65_536 % 256) as u8,
            (count / 256 % 256) as u8,
        ])?;
    } else if count >= 256 {
        octets.extend_from_slice(&[0x82, (count / 256 % 256) as u8])?;
    } else if count >= 128 {
        octets.push(0x81)?;
    }
    octets.push((count % 256) as u8)?;
    Ok(())
}

/// Returns how many octets a length takes.
fn size_of(count: usize) -> usize {
    match count {
        0..=127 => 1,
        128..=255 => 2,
        256..=65_535 => 3,
        _ => 4,
    }
}

/// Returns how many octets an element of `count` contents octets has.
fn with_header(count: usize) -> usize {
    count.saturating_add(size_of(count)).saturating_add(1)
}

/// Returns a SEQUENCE in an explicit tag, with an octet string of these octets.
fn element_of(alloc: Global, text: &[u8]) -> Result<Vec<u8>, AllocError> {
    let mut octets = Vec::new(alloc);
    let count = text.len().min(MOST);
    let inner = with_header(count);
    push_header(&mut octets, 0xA0, with_header(inner))?;
    push_header(&mut octets, 0x30, inner)?;
    push_header(&mut octets, 0x04, count)?;
    octets.extend_from_slice(text)?;
    Ok(octets)
}

/// X.690 8.1.3: 127, 128, 255, 256, 65,535 and 65,536 contents octets of each of the three elements.
#[test]
fn lengths_are_right_with_any_hint(rt: HostRuntime) -> Result<(), Fail> {
    let alloc = rt.alloc();
    let text = "M DEFINITIONS ::= BEGIN S ::= [0] EXPLICIT SEQUENCE { a OCTET STRING } END";
    let schema = Schema::parse(alloc, text)?;
    let node = schema.node_named("S").ok_or("no type")?;
    let source = vec![in alloc; 0xA5u8; MOST]?;
    for border in [128usize, 256, 65_536] {
        for below in 0..10usize {
            let count = border.saturating_sub(below);
            let string = source.as_slice().get(..count).ok_or("no such string")?;
            let expected = element_of(alloc, string)?;
            let lengths = [Cell::new(0), Cell::new(0)];
            let parts = [
                Part::Sequence {
                    count: 1,
                    is_extended: false,
                },
                Part::Octets(Span {
                    at: 0,
                    count: string.len().min(MOST) * 8,
                }),
            ];
            let context = Context {
                tables: schema.tables(),
                tags: schema.tag_tables(),
                defaults: Defaults {
                    octets: &[],
                    spans: &[],
                },
                parts: &parts,
                source: string,
                is_ordered: true,
                lengths: &lengths,
            };
            if string.len() > MOST || expected.len() > 2 * MOST {
                return Err(Fail::from("too long"));
            }
            let measured = measure(&context, 5, node)?;
            assert!(rt; measured.octets == expected.len());
            assert!(rt; lengths[1].get() as usize == size_of(count));
            for hint in [
                None,
                Some((0, 9)),
                Some((9, 0)),
                Some((1, 1)),
                Some((4, 4)),
                Some((2, 3)),
            ] {
                if let Some((outer, inner)) = hint {
                    lengths[0].set(outer);
                    lengths[1].set(inner);
                }
                for more in [0usize, 1, 9] {
                    let room = expected.len().min(2 * MOST) + more.min(9);
                    let mut octets = vec![in alloc; 0u8; room]?;
                    let encoded = encode(&context, 5, node, octets.as_mut_slice())?;
                    let element = octets.as_slice().get(..encoded.octets);
                    assert!(rt; element == Some(expected.as_slice()));
                }
            }
        }
    }
    Ok(())
}
