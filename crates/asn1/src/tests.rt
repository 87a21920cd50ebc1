use crate::args::Output;
use crate::codec::{Codec, Target};
use crate::decode::Decoder;
use crate::dump::tree_of;
use crate::encode::Encoder;
use crate::forms::{Form, FormProblem, form_error, form_of, values_of, written_as};
use crate::from_json::encode_json;
use crate::modules::Modules;
use crate::places::line_and_column;
use crate::rules::Rules;
use crate::show::words_of_type;
use crate::stop::Stop;
use crate::types::{list_of, node_of};
use asn1_notation::{NotationError, Problem};
use asn1_resolve::Schema;
use std::alloc::Global;
use std::test::Fail;

const PEOPLE: &str = "People DEFINITIONS AUTOMATIC TAGS ::= BEGIN
Person ::= SEQUENCE {
    name IA5String (SIZE (1..15)),
    age INTEGER (0..150) OPTIONAL,
    likes SEQUENCE OF ENUMERATED { tea, coffee } }
END
";

const BAGS: &str = "Bags DEFINITIONS AUTOMATIC TAGS ::= BEGIN
Bag ::= SEQUENCE { size INTEGER (0..255) DEFAULT 7, items SET OF Thing }
Thing ::= SEQUENCE { n INTEGER (0..255), tags SET OF INTEGER (0..15), w BOOLEAN DEFAULT FALSE }
END
";

/// Returns the octets, or the text of the error, of a value that is encoded in UNALIGNED PER.
fn encoded(
    alloc: Global,
    modules: &str,
    name: &str,
    json: &str,
) -> Result<Result<Vec<u8>, Stop>, Fail> {
    let schema = Schema::parse(alloc, modules)?;
    let node = node_of(&schema, name).ok_or("no type")?;
    let codec = Codec::new(alloc, &schema, node, Rules::Uper)?;
    let target = Target {
        node,
        depth: 50,
        is_prefix: false,
    };
    let encoder = Encoder {
        alloc,
        schema: &schema,
        codec: &codec,
        target,
    };
    Ok(encode_json(&encoder, "a.json", json.as_bytes()))
}

#[test]
fn the_look_of_octets_tells_their_form(rt: HostRuntime) {
    for (octets, form) in [
        (b"".as_slice(), Form::Binary),
        (b" \n".as_slice(), Form::Binary),
        (b"0aF 9\r\n".as_slice(), Form::Hex),
        (b"0ag".as_slice(), Form::Binary),
        (b"-----BEGIN X-----\n".as_slice(), Form::Pem),
        (b"\xFF\n-----BEGIN X-----\n".as_slice(), Form::Pem),
        (b" -----BEGIN X-----\n".as_slice(), Form::Binary),
    ] {
        assert!(rt; form_of(octets) == form);
    }
}

#[test]
fn digits_may_have_white_space_between(rt: HostRuntime) -> Result<(), Fail> {
    let values = values_of(rt.alloc(), Form::Hex, b"94 1d\r\n d B\t")?;
    assert!(rt; values.len() == 1);
    let value = values.as_slice().first().ok_or("no value")?;
    assert!(rt; value.as_slice() == [0x94, 0x1D, 0xDB].as_slice());
    let odd = values_of(rt.alloc(), Form::Hex, b"941");
    assert!(rt; odd.err() == Some(form_error(3, FormProblem::OddDigits)));
    let other = values_of(rt.alloc(), Form::Hex, b"94 x");
    assert!(rt; other.err() == Some(form_error(3, FormProblem::NotHex)));
    assert!(rt; line_and_column(b"94\n\xC3\xA9 x", 6) == (2, 3));
    Ok(())
}

#[test]
fn blocks_are_several_values(rt: HostRuntime) -> Result<(), Fail> {
    let text =
        b"a\n-----BEGIN A-----\nAQ\nID\n-----END A-----\n\n-----BEGIN B C-----\r\n/w==\r\n-----END B C-----\r\n";
    let values = values_of(rt.alloc(), Form::Pem, text)?;
    assert!(rt; values.len() == 2);
    let first = values.as_slice().first().ok_or("no first")?;
    assert!(rt; first.as_slice() == [1, 2, 3].as_slice());
    let second = values.as_slice().last().ok_or("no second")?;
    assert!(rt; second.as_slice() == [0xFF].as_slice());
    for (text, at, problem) in [
        (b"x\n".as_slice(), 0, FormProblem::NoBlock),
        (
            b"-----BEGIN A-----\n".as_slice(),
            18,
            FormProblem::OpenBlock,
        ),
        (
            b"-----BEGIN A-----\n-----END B-----\n".as_slice(),
            18,
            FormProblem::Boundary,
        ),
        (
            b"-----BEGIN A-----\nA!\n-----END A-----\n".as_slice(),
            19,
            FormProblem::NotBase64,
        ),
        (
            b"-----BEGIN A-----\nA\n-----END A-----\n".as_slice(),
            20,
            FormProblem::Base64,
        ),
    ] {
        let values = values_of(rt.alloc(), Form::Pem, text);
        assert!(rt; values.err() == Some(form_error(at, problem)));
    }
    Ok(())
}

#[test]
fn octets_are_written_in_each_form(rt: HostRuntime) -> Result<(), Fail> {
    for (form, wanted) in [
        (Form::Binary, b"\xFB\xF0".as_slice()),
        (Form::Hex, b"FBF0\n".as_slice()),
        (Form::Base64, b"+/A=\n".as_slice()),
        (
            Form::Pem,
            b"-----BEGIN X-----\n+/A=\n-----END X-----\n".as_slice(),
        ),
    ] {
        let written = written_as(rt.alloc(), form, "X", &[0xFB, 0xF0])?;
        assert!(rt; written.as_slice() == wanted);
    }
    // 49 octets have 68 characters: 64 in the first line, and 4 in the second.
    let long = written_as(rt.alloc(), Form::Pem, "X", &[0; 49])?;
    assert!(rt; long.len() == 18 + 65 + 5 + 16);
    assert!(rt; long.as_slice().get(82..87) == Some(b"\nAA==".as_slice()));
    Ok(())
}

#[test]
fn an_error_is_in_the_file_that_has_it(rt: HostRuntime) -> Result<(), Fail> {
    let mut modules = Modules::new(rt.alloc());
    modules.add("a.asn1", "A DEFINITIONS ::= BEGIN\nEND")?;
    modules.add("b.asn1", "B DEFINITIONS ::= BEGIN\n  C ::= Missing\nEND\n")?;
    let error = NotationError {
        problem: Problem::Undefined,
        at: 28 + 24 + 8,
    };
    let report = modules.report(error)?;
    let wanted = "b.asn1:2:9: the name is not defined\n  C ::= Missing\n        ^";
    assert!(rt; report.as_str() == wanted);
    match modules.schema() {
        Err(Stop::Call(text)) => assert!(rt; text.as_str() == wanted),
        _ => return Err("no report".into()),
    }
    Ok(())
}

#[test]
fn types_have_names_with_and_without_modules(rt: HostRuntime) -> Result<(), Fail> {
    let mut modules = Modules::new(rt.alloc());
    modules.add("people.asn1", PEOPLE)?;
    modules.add("bags.asn1", BAGS)?;
    let schema = modules.schema()?;
    let list = list_of(rt.alloc(), &schema)?;
    assert!(rt; list.as_str() == "People.Person\nBags.Bag\nBags.Thing\n");
    assert!(rt; node_of(&schema, "Bag").is_some());
    assert!(rt; node_of(&schema, "Bag") == node_of(&schema, "Bags.Bag"));
    assert!(rt; node_of(&schema, "People.Bag").is_none());
    Ok(())
}

#[test]
fn an_error_has_the_path_to_the_json(rt: HostRuntime) -> Result<(), Fail> {
    for (json, wanted) in [
        (
            "{\n  \"name\": \"Ann\",\n  \"age\": 151, \"likes\": []\n}",
            "a.json:3:10: $.age: the value is not permitted by its type",
        ),
        (
            "{\"name\": \"Ann\", \"likes\": [\"tea\",\n\"milk\"]}",
            "a.json:2:1: $.likes[1]: the type has no value with this name",
        ),
        ("{\"name\":", "a.json:1:9: invalid JSON"),
    ] {
        match encoded(rt.alloc(), PEOPLE, "Person", json)? {
            Err(Stop::Input(text)) => assert!(rt; text.as_str() == wanted),
            _ => return Err("no error".into()),
        }
    }
    Ok(())
}

#[test]
fn defaults_are_left_out_and_sets_are_put_in_order(rt: HostRuntime) -> Result<(), Fail> {
    let json = "{\"size\": 7, \"items\": [{\"n\": 1, \"tags\": [], \"w\": true},
        {\"n\": 9, \"tags\": [3, 1, 2], \"w\": false}]}";
    // 0 00000010, 0 00001001 00000011 0001 0010 0011, 1 00000001 00000000 1.
    let octets = encoded(rt.alloc(), BAGS, "Bags.Bag", json)??;
    let wanted = [0x01, 0x02, 0x40, 0xC4, 0x8E, 0x02, 0x01];
    assert!(rt; octets.as_slice() == wanted.as_slice());
    Ok(())
}

/// Returns the JSON, or the text of the error, of a Person that octets encode.
fn decoded(
    alloc: Global,
    rules: Rules,
    parts: usize,
    octets: &[u8],
) -> Result<Result<Vec<u8>, Stop>, Fail> {
    let schema = Schema::parse(alloc, PEOPLE)?;
    let node = node_of(&schema, "Person").ok_or("no type")?;
    let codec = Codec::new(alloc, &schema, node, rules)?;
    let target = Target {
        node,
        depth: 50,
        is_prefix: false,
    };
    let decoder = Decoder {
        alloc,
        schema: &schema,
        codec: &codec,
        target,
        parts,
        printed: Output::Json,
    };
    Ok(decoder.text_of(octets))
}

// The octets are those of Erlang's asn1ct.
#[test]
fn a_value_has_one_json_by_all_rules(rt: HostRuntime) -> Result<(), Fail> {
    let der = [
        0x30, 0x0D, 0x80, 0x03, 0x41, 0x6E, 0x6E, 0x81, 0x01, 0x1E, 0xA2, 0x03, 0x0A, 0x01, 0x01,
    ];
    for (rules, octets) in [
        (Rules::Der, der.as_slice()),
        (Rules::Uper, [0x94, 0x1D, 0xDB, 0x87, 0x80, 0x60].as_slice()),
        (
            Rules::Aper,
            [0x90, 0x41, 0x6E, 0x6E, 0x1E, 0x01, 0x80].as_slice(),
        ),
    ] {
        let text = decoded(rt.alloc(), rules, 5, octets)??;
        let wanted =
            b"{\n  \"name\": \"Ann\",\n  \"age\": 30,\n  \"likes\": [\n    \"coffee\"\n  ]\n}\n";
        assert!(rt; text.as_slice() == wanted.as_slice());
    }
    Ok(())
}

#[test]
fn a_fault_has_its_offset_and_its_component(rt: HostRuntime) -> Result<(), Fail> {
    for (octets, wanted) in [
        (
            [0x94, 0x1D, 0xDB, 0x87].as_slice(),
            "offset 3, bit 2, age: bits are missing",
        ),
        (
            [0x94, 0x1D, 0xDB, 0x87, 0x80, 0x60].as_slice(),
            "the value has 5 parts, and --parts permits 4",
        ),
    ] {
        match decoded(rt.alloc(), Rules::Uper, 4, octets)? {
            Err(Stop::Input(text)) => assert!(rt; text.as_str() == wanted),
            _ => return Err("no error".into()),
        }
    }
    Ok(())
}

const OBJECTS: &str = "Objects DEFINITIONS AUTOMATIC TAGS ::= BEGIN
KIND ::= CLASS { &id INTEGER (0..255) UNIQUE, &Type } WITH SYNTAX { ID &id TYPE &Type }
Kinds KIND ::= { { ID 1 TYPE Pair } | { ID 2 TYPE Thing {{Kinds}} }, ... }
Thing {KIND:Set} ::= SEQUENCE { id KIND.&id ({Set}), value KIND.&Type ({Set}{@id}) }
Pair ::= SEQUENCE { a INTEGER (0..255), b BOOLEAN DEFAULT FALSE, ..., c BOOLEAN DEFAULT TRUE }
Any ::= Thing {{Kinds}}
END
";

// An open type has a length octet and whole octets (X.691 11.2). Of the object 7 the schema knows nothing.
#[test]
fn objects_tell_the_contents_of_open_types(rt: HostRuntime) -> Result<(), Fail> {
    let alloc = rt.alloc();
    for (json, wanted) in [
        (
            "{\"id\": 1, \"value\": {\"containing\": {\"a\": 5, \"b\": false, \"c\": true}}}",
            [1, 2, 0x01, 0x40].as_slice(),
        ),
        (
            "{\"id\": 2, \"value\": {\"containing\": {\"id\": 7, \"value\": \"ABCD\"}}}",
            [2, 4, 7, 2, 0xAB, 0xCD].as_slice(),
        ),
        (
            "{\"value\": \"0140\", \"id\": 1}",
            [1, 2, 0x01, 0x40].as_slice(),
        ),
    ] {
        let octets = encoded(alloc, OBJECTS, "Any", json)??;
        assert!(rt; octets.as_slice() == wanted);
    }
    match encoded(
        alloc,
        OBJECTS,
        "Any",
        "{\"id\": 7, \"value\": {\"containing\": 5}}",
    )? {
        Err(Stop::Input(text)) => {
            let wanted =
                "a.json:1:20: $.value: expected hexadecimal digits, since no object has this value";
            assert!(rt; text.as_str() == wanted);
        }
        _ => return Err("no error".into()),
    }
    Ok(())
}

/// X.681 14.6: a value of an open type follows the name of its type.
#[test]
fn contents_are_printed_in_the_value_notation(rt: HostRuntime) -> Result<(), Fail> {
    let alloc = rt.alloc();
    let schema = Schema::parse(alloc, OBJECTS)?;
    let node = node_of(&schema, "Any").ok_or("no type")?;
    let codec = Codec::new(alloc, &schema, node, Rules::Uper)?;
    let target = Target {
        node,
        depth: 50,
        is_prefix: false,
    };
    let decoder = Decoder {
        alloc,
        schema: &schema,
        codec: &codec,
        target,
        parts: 100,
        printed: Output::Notation,
    };
    let text = decoder.text_of(&[1, 2, 0x01, 0x40])?;
    let wanted = b"{\n  id 1,\n  value Pair : {\n    a 5\n  }\n}\n";
    assert!(rt; text.as_slice() == wanted.as_slice());
    match decoder.text_of(&[1, 1, 0x01]) {
        Err(Stop::Input(text)) => {
            let wanted = "in the contents of an open type: offset 0, bit 2, a: bits are missing";
            assert!(rt; text.as_str() == wanted);
        }
        _ => return Err("no error".into()),
    }
    Ok(())
}

#[test]
fn elements_are_a_tree(rt: HostRuntime) -> Result<(), Fail> {
    let octets = [0x30, 0x07, 0xA0, 0x03, 0x02, 0x01, 0x05, 0x41, 0x00];
    let tree = tree_of(rt.alloc(), &octets, 50, 10)?;
    let wanted = "     0  2      7  SEQUENCE
     2  2      3    [0]
     4  2      1      INTEGER 05
     7  2      0    [APPLICATION 1]
";
    assert!(rt; tree.as_str() == wanted);
    Ok(())
}

/// The tags of X.680 8.4 and 25.3; the presence bit of X.691 19.2.2.
#[test]
fn a_type_is_shown_with_its_tags_and_bits(rt: HostRuntime) -> Result<(), Fail> {
    let alloc = rt.alloc();
    let schema = Schema::parse(alloc, BAGS)?;
    let node = node_of(&schema, "Bag").ok_or("no type")?;
    let shown = words_of_type(alloc, &schema, "Bag", node, 50)?;
    let wanted = "Bag: SEQUENCE or SET [UNIVERSAL 16]
  size: DEFAULT 7, bit 0, INTEGER (0..255) [0]
  items: SET OF [1]
    item: Thing [UNIVERSAL 16]
";
    assert!(rt; shown.as_str() == wanted);
    let schema = Schema::parse(alloc, PEOPLE)?;
    let node = node_of(&schema, "Person").ok_or("no type")?;
    let shown = words_of_type(alloc, &schema, "Person", node, 0)?;
    assert!(rt; shown.as_str() == "Person: SEQUENCE or SET [UNIVERSAL 16]\n");
    Ok(())
}
