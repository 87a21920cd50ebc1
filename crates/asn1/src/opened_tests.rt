use crate::args::Output;
use crate::codec::{Codec, Target};
use crate::decode::Decoder;
use crate::encode::Encoder;
use crate::from_json::encode_json;
use crate::rules::Rules;
use crate::types::node_of;
use asn1_resolve::Schema;
use std::alloc::Global;
use std::test::Fail;

const KINDS: &str = "Kinds DEFINITIONS AUTOMATIC TAGS ::= BEGIN
KIND ::= CLASS { &id INTEGER (0..255), &version INTEGER (0..255), &Type }
    WITH SYNTAX { ID &id VERSION &version TYPE &Type }
Kinds KIND ::= { { ID 1 VERSION 1 TYPE INTEGER (0..255) } | { ID 1 VERSION 2 TYPE BOOLEAN }, ... }
Thing ::= SEQUENCE {
    id KIND.&id ({Kinds}),
    inner SEQUENCE { version KIND.&version ({Kinds}), value KIND.&Type ({Kinds}{@id, @.version}) }
}
Late ::= SEQUENCE { ..., [[
    id KIND.&id ({Kinds}), version KIND.&version ({Kinds}), value KIND.&Type ({Kinds}{@id, @version})
]] }
Either ::= CHOICE { first SEQUENCE {
    id KIND.&id ({Kinds}),
    list SEQUENCE (SIZE (1)) OF SEQUENCE {
        version KIND.&version ({Kinds}), value KIND.&Type ({Kinds}{@..id, @.version})
    }
} }
Whole ::= SEQUENCE { COMPONENTS OF Head, value KIND.&Type ({Kinds}{@head.id, @version}) }
Head ::= SEQUENCE { head [0] Id, version KIND.&version ({Kinds}) }
Id ::= SEQUENCE { id KIND.&id ({Kinds}) }
END
";

/// Returns the octets of a value in UNALIGNED PER, and its JSON without white space.
fn both_ways(alloc: Global, name: &str, json: &str) -> Result<(Vec<u8>, Vec<u8>), Fail> {
    let schema = Schema::parse(alloc, KINDS)?;
    let node = node_of(&schema, name).ok_or("no type")?;
    let codec = Codec::new(alloc, &schema, node, Rules::Uper)?;
    let target = Target {
        node,
        depth: 50,
        is_prefix: false,
    };
    let encoder = Encoder {
        alloc,
        schema: &schema,
        codec: &codec,
        target,
    };
    let octets = encode_json(&encoder, "a.json", json.as_bytes())?;
    let decoder = Decoder {
        alloc,
        schema: &schema,
        codec: &codec,
        target,
        parts: 50,
        printed: Output::Json,
    };
    let text = decoder.text_of(octets.as_slice())?;
    let mut short = Vec::new(alloc);
    for octet in text.as_slice() {
        if !octet.is_ascii_whitespace() {
            short.push(*octet)?;
        }
    }
    Ok((octets, short))
}

// X.691 11.2: an open type has a length octet and whole octets. Late: the bit of the marker, 7 bits of the
// number of additions, the bit of the group, and the group as an open type (19.7 to 19.9).
#[test]
fn components_of_other_types_tell_the_contents(rt: HostRuntime) -> Result<(), Fail> {
    let alloc = rt.alloc();
    for (name, json, wanted) in [
        (
            "Thing",
            "{\"id\":1,\"inner\":{\"version\":2,\"value\":{\"containing\":true}}}",
            [1, 2, 1, 0x80].as_slice(),
        ),
        (
            "Thing",
            "{\"id\":1,\"inner\":{\"version\":1,\"value\":{\"containing\":200}}}",
            [1, 1, 1, 200].as_slice(),
        ),
        (
            "Thing",
            "{\"id\":2,\"inner\":{\"version\":1,\"value\":\"AB\"}}",
            [2, 1, 1, 0xAB].as_slice(),
        ),
        (
            "Late",
            "{\"id\":1,\"version\":1,\"value\":{\"containing\":200}}",
            [0x80, 0x82, 0x00, 0x80, 0x80, 0xE4, 0x00].as_slice(),
        ),
        (
            "Either",
            "{\"first\":{\"id\":1,\"list\":[{\"version\":1,\"value\":{\"containing\":200}}]}}",
            [1, 1, 1, 200].as_slice(),
        ),
        (
            "Whole",
            "{\"head\":{\"id\":1},\"version\":2,\"value\":{\"containing\":true}}",
            [1, 2, 1, 0x80].as_slice(),
        ),
    ] {
        let (octets, text) = both_ways(alloc, name, json)?;
        assert!(rt; octets.as_slice() == wanted);
        assert!(rt; text.as_slice() == json.as_bytes());
    }
    Ok(())
}
