//! A message decoded by constant tables, which `asn1 tables` printed.

use crate::people::views::Person;
use crate::people::{MEMBER_NAMES, MEMBERS, NAME_TEXT, NODE_NAMES, NODES, PERSON, RANGES};
use asn1_schema::{Part, Tables};
use asn1_schema_values::{Message, Names, Value};
use asn1_x691_decode::{Context, Defaults, decode};
use std::test::Fail;

#[test]
fn decodes_by_constant_tables(rt: HostRuntime) -> Result<(), Fail> {
    let octets = [0x94, 0x1D, 0xDB, 0x87, 0x80, 0x60];
    let nodes = NODES;
    let tables = Tables {
        nodes: &nodes,
        members: &MEMBERS,
        ranges: &RANGES,
    };
    let context = Context {
        tables,
        defaults: Defaults {
            octets: &[],
            spans: &[],
        },
        octets: &octets,
        is_aligned: false,
    };
    let mut parts = [Part::Absent; 8];
    let count = decode(&context, 10, PERSON, &mut parts)?;
    let message = Message {
        tables,
        names: Names {
            text: NAME_TEXT,
            nodes: &NODE_NAMES,
            members: &MEMBER_NAMES,
        },
        octets: &octets,
        parts: parts.get(..count).unwrap_or(&[]),
    };
    let person = Person(Value::whole(&message, PERSON));
    assert!(rt; person.age().and_then(|it| it.as_i128()) == Some(30));
    assert!(rt; person.likes().and_then(|it| it.item_count()) == Some(1));
    Ok(())
}
