use asn1_json::{Tree, parse_value, print_in_notation, print_value};
use asn1_resolve::Schema;
use asn1_schema::Part;
use json::Scratch;
use std::str;
use std::test::Fail;

const MODULE: &str = "M DEFINITIONS AUTOMATIC TAGS ::= BEGIN
Record ::= SEQUENCE {
    id INTEGER,
    name IA5String OPTIONAL,
    bits BIT STRING,
    kind ENUMERATED { red, green },
    from UTCTime,
    to GeneralizedTime,
    size REAL,
    price REAL,
    most REAL,
    list SEQUENCE OF CHOICE { a NULL, b BOOLEAN }
}
END
";

const RECORD: &str = "{
  \"id\": -340282366920938463463374607431768211456,
  \"name\": \"Ann\",
  \"bits\": {
    \"value\": \"A0\",
    \"length\": 3
  },
  \"kind\": \"green\",
  \"from\": \"991231235959Z\",
  \"to\": \"20000229120000.5Z\",
  \"size\": -1.5,
  \"price\": {
    \"base10Value\": 1995E-2
  },
  \"most\": \"INF\",
  \"list\": [
    {
      \"a\": null
    },
    {
      \"b\": true
    }
  ]
}";

/// The same value (X.680 19.9, 20.8, 21.6, 22.9, 25.18, 26.3, 29.11, 41.8).
const NOTATION: &str = "{
  id -340282366920938463463374607431768211456,
  name \"Ann\",
  bits '101'B,
  kind green,
  from \"991231235959Z\",
  to \"20000229120000.5Z\",
  size -1.5,
  price 1995E-2,
  most PLUS-INFINITY,
  list {
    a : NULL,
    b : TRUE
  }
}";

#[test]
fn a_value_is_printed_as_it_was_read(rt: HostRuntime) -> Result<(), Fail> {
    let alloc = rt.alloc();
    let schema = Schema::parse(alloc, MODULE)?;
    let node = schema.node_named("Record").ok_or("no type")?;
    let mut scratch = Scratch::new(alloc);
    let tree = Tree::parse(alloc, RECORD, &mut scratch)?;
    let Ok(draft) = parse_value(alloc, &schema, &tree, 10, node) else {
        return Err("no value".into());
    };
    let first = draft.parts().first().ok_or("no part")?;
    assert!(rt;
        *first
            == Part::Sequence {
                count: 10,
                is_extended: false
            }
    );
    let octets = print_value(alloc, &schema, draft.octets(), draft.parts(), 10, node)?;
    let text = str::from_utf8(octets.as_slice()).map_err(|_| "no text")?;
    assert!(rt; text == RECORD);
    let text = print_in_notation(alloc, &schema, draft.octets(), draft.parts(), &[], 10, node)?;
    assert!(rt; text.as_str() == NOTATION);
    Ok(())
}

/// X.690 8.3.2: the first nine bits are neither all 0 nor all 1. The numbers are 2^127, -2^127 - 1, 2^128 - 1,
/// -2^128, -2^135 and 2^135.
#[test]
fn octets_of_a_number_are_minimal(rt: HostRuntime) -> Result<(), Fail> {
    let alloc = rt.alloc();
    let schema = Schema::parse(alloc, "M DEFINITIONS ::= BEGIN I ::= INTEGER END")?;
    let node = schema.node_named("I").ok_or("no type")?;
    for (text, first, others, count) in [
        (
            "170141183460469231731687303715884105728",
            [0u8, 0x80],
            0u8,
            17,
        ),
        (
            "-170141183460469231731687303715884105729",
            [0xFF, 0x7F],
            0xFF,
            17,
        ),
        (
            "340282366920938463463374607431768211455",
            [0, 0xFF],
            0xFF,
            17,
        ),
        ("-340282366920938463463374607431768211456", [0xFF, 0], 0, 17),
        (
            "-43556142965880123323311949751266331066368",
            [0x80, 0],
            0,
            17,
        ),
        (
            "43556142965880123323311949751266331066368",
            [0, 0x80],
            0,
            18,
        ),
    ] {
        let mut scratch = Scratch::new(alloc);
        let tree = Tree::parse(alloc, text, &mut scratch)?;
        let Ok(draft) = parse_value(alloc, &schema, &tree, 10, node) else {
            return Err("no value".into());
        };
        assert!(rt; draft.octets().len() == count);
        assert!(rt; draft.octets().starts_with(&first));
        assert!(rt; draft.octets().iter().skip(2).all(|octet| *octet == others));
    }
    Ok(())
}

#[test]
fn a_number_of_base_10_is_alone_in_its_object(rt: HostRuntime) -> Result<(), Fail> {
    let alloc = rt.alloc();
    let schema = Schema::parse(alloc, "M DEFINITIONS ::= BEGIN R ::= REAL END")?;
    let node = schema.node_named("R").ok_or("no type")?;
    for (text, is_read) in [
        ("{\"base10Value\": 15}", true),
        ("{\"base10Value\": 15, \"base\": 10}", false),
        ("{\"base\": 10, \"base10Value\": 15}", false),
        ("{\"base10Value\": 15, \"base10Value\": 15}", false),
        ("{\"base10Value\": \"15\"}", false),
    ] {
        let mut scratch = Scratch::new(alloc);
        let tree = Tree::parse(alloc, text, &mut scratch)?;
        match parse_value(alloc, &schema, &tree, 10, node) {
            Ok(draft) => {
                assert!(rt; is_read);
                assert!(rt; draft.octets() == b"\x0315.E+0".as_slice());
            }
            Err(error) => {
                assert!(rt; !is_read);
                assert!(rt; error.item == 0);
            }
        }
    }
    Ok(())
}
