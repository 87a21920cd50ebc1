use crate::args::Output;
use crate::codec::{Codec, Target};
use crate::decode::Decoder;
use crate::rules::Rules;
use crate::types::node_of;
use asn1_resolve::Schema;
use std::alloc::Global;
use std::test::Fail;

const PEOPLE: &str = "People DEFINITIONS AUTOMATIC TAGS ::= BEGIN
Person ::= SEQUENCE {
    name IA5String (SIZE (1..15)),
    age INTEGER (0..150) OPTIONAL,
    likes SEQUENCE OF ENUMERATED { tea, coffee } }
END
";

const OBJECTS: &str = "Objects DEFINITIONS AUTOMATIC TAGS ::= BEGIN
KIND ::= CLASS { &id INTEGER (0..255) UNIQUE, &Type } WITH SYNTAX { ID &id TYPE &Type }
Kinds KIND ::= { { ID 1 TYPE Pair }, ... }
Any ::= SEQUENCE { id KIND.&id ({Kinds}), value KIND.&Type ({Kinds}{@id}) }
Pair ::= SEQUENCE { a INTEGER (0..255), b Either OPTIONAL, ... }
Either ::= CHOICE { yes NULL, no [5] EXPLICIT BOOLEAN, ... }
END
";

/// Returns the tree of a value that octets encode.
fn tree_of(
    alloc: Global,
    module: &str,
    name: &str,
    rules: Rules,
    octets: &[u8],
) -> Result<Vec<u8>, Fail> {
    let schema = Schema::parse(alloc, module)?;
    let node = node_of(&schema, name).ok_or("no type")?;
    let codec = Codec::new(alloc, &schema, node, rules)?;
    let target = Target {
        node,
        depth: 50,
        is_prefix: false,
    };
    let decoder = Decoder {
        alloc,
        schema: &schema,
        codec: &codec,
        target,
        parts: 100,
        printed: Output::Tree,
    };
    Ok(decoder.text_of(octets)?)
}

// The octets are those of Erlang's asn1ct. The offsets are counted by hand.
#[test]
fn a_tree_has_the_elements_of_der(rt: HostRuntime) -> Result<(), Fail> {
    let der = b"\x30\x0D\x80\x03Ann\x81\x01\x1E\xA2\x03\x0A\x01\x01";
    let tree = tree_of(rt.alloc(), PEOPLE, "Person", Rules::Der, der)?;
    let wanted = b"     0  2     13  value: Person, SEQUENCE
     2  2      3    name: character string, [0] = \"Ann\"
     7  2      1    age: INTEGER, [1] = 30
    10  2      3    likes: SEQUENCE OF, [2]
    12  2      1      [0]: ENUMERATED, ENUMERATED = coffee
";
    assert!(rt; tree.as_slice() == wanted.as_slice());
    Ok(())
}

#[test]
fn a_tree_of_per_has_no_elements(rt: HostRuntime) -> Result<(), Fail> {
    let per = [0x94, 0x1D, 0xDB, 0x87, 0x80, 0x60];
    let tree = tree_of(rt.alloc(), PEOPLE, "Person", Rules::Uper, &per)?;
    let wanted = b"value: Person
  name: character string = \"Ann\"
  age: INTEGER = 30
  likes: SEQUENCE OF
    [0]: ENUMERATED = coffee
";
    assert!(rt; tree.as_slice() == wanted.as_slice());
    Ok(())
}

/// X.680 31.2.7: the tag of an open type or a CHOICE is EXPLICIT. The addition 82 is not known.
#[test]
fn contents_of_open_types_have_offsets_in_the_message(rt: HostRuntime) -> Result<(), Fail> {
    let der =
        b"\x30\x15\x80\x01\x01\xA1\x10\x30\x0E\x80\x01\x05\xA1\x05\xA5\x03\x01\x01\xFF\x82\x02\xAB\xCD";
    let tree = tree_of(rt.alloc(), OBJECTS, "Any", Rules::Der, der)?;
    let wanted = b"     0  2     21  value: Any, SEQUENCE
     2  2      1    id: INTEGER, [0] = 1
     5  2     16    value: open type, [1]
     7  2     14      contents: Pair, SEQUENCE
     9  2      1        a: INTEGER, [0] = 5
    12  2      5        b: Either, [1]
    14  2      3          no: BOOLEAN, [5] = TRUE
    19  2      2        ...: unknown, [2] = '8202ABCD'H
";
    assert!(rt; tree.as_slice() == wanted.as_slice());
    Ok(())
}
