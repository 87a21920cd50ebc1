use asn1_resolve::{Schema, problems_of};
use asn1_schema::{Length, Node, Part, Span};
use std::test::Fail;

const RECORD: &str = "M DEFINITIONS AUTOMATIC TAGS ::= BEGIN
max INTEGER ::= 15
Record ::= SEQUENCE {
    id INTEGER (0..max, ..., 16..20),
    base Base (SIZE (2..9)),
    choice CHOICE { a NULL, b Record },
    ...,
    [[ extra IA5String ]]
}
Base ::= SEQUENCE (SIZE (1..5)) OF Colour
Colour ::= ENUMERATED { red, green(5), ..., blue }
END
";

#[test]
fn makes_tables(rt: HostRuntime) -> Result<(), Fail> {
    let Ok(schema) = Schema::parse(rt.alloc(), RECORD) else {
        assert!(rt; false);
        return Ok(());
    };
    assert!(rt; schema.types().len() == 3);
    assert!(rt; schema.tables().members.len() == 7);
    let Some(colour) = schema.node_named("Colour") else {
        assert!(rt; false);
        return Ok(());
    };
    assert!(rt; schema.enumerals(colour).len() == 3);
    let Some(Node::SequenceOf { length, .. }) = schema.tables().nodes.get(2) else {
        assert!(rt; false);
        return Ok(());
    };
    assert!(rt; *length == Length::Between { least: 2, range: 3 });
    Ok(())
}

const VALUES: &str = "M DEFINITIONS AUTOMATIC TAGS ::= BEGIN
Record ::= SEQUENCE {
    version Version DEFAULT v2,
    limit INTEGER DEFAULT max,
    usage Usage DEFAULT { sign, crl },
    hash OBJECT IDENTIFIER DEFAULT { iso(1) member-body(2) us(840) 113549 },
    root OBJECT IDENTIFIER DEFAULT { iso standard 8571 },
    pair Pair DEFAULT { b TRUE, a -3 },
    list SEQUENCE OF Pair DEFAULT { { a max }, pair },
    choice CHOICE { x NULL, y Version } DEFAULT y : v1,
    octets OCTET STRING DEFAULT 'C0 F'H,
    wrong BOOLEAN DEFAULT 5,
    again Pair DEFAULT { c TRUE, a 1 }
}
Version ::= INTEGER { v1(0), v2(max) }
Usage ::= BIT STRING { sign(0), key(2), crl(6) }
Pair ::= SEQUENCE { a INTEGER, b BOOLEAN OPTIONAL }
max INTEGER ::= 15
pair Pair ::= { a 7, b FALSE }
END
";

/// Returns the parts of the value of a DEFAULT, without those that it has not.
fn parts_of(schema: &Schema, index: usize) -> &[Part] {
    match schema.default_value(index) {
        Some((parts, _)) => parts,
        None => &[],
    }
}

const PAIR: Part = Part::Sequence {
    count: 2,
    is_extended: false,
};

#[test]
fn reads_default_values(rt: HostRuntime) -> Result<(), Fail> {
    let schema = Schema::parse(rt.alloc(), VALUES)?;
    assert!(rt; parts_of(&schema, 0) == [Part::Integer(15)].as_slice());
    assert!(rt; parts_of(&schema, 1) == [Part::Integer(15)].as_slice());
    let usage = Part::Bits(Span { at: 0, count: 7 });
    assert!(rt; parts_of(&schema, 2) == [usage].as_slice());
    let hash = Part::Octets(Span { at: 8, count: 48 });
    assert!(rt; parts_of(&schema, 3) == [hash].as_slice());
    let root = Part::Octets(Span { at: 56, count: 24 });
    assert!(rt; parts_of(&schema, 4) == [root].as_slice());
    let pair = [PAIR, Part::Integer(-3), Part::Truth(true)];
    assert!(rt; parts_of(&schema, 5) == pair.as_slice());
    let list = [
        Part::Count(2),
        PAIR,
        Part::Integer(15),
        Part::Absent,
        PAIR,
        Part::Integer(7),
        Part::Truth(false),
    ];
    assert!(rt; parts_of(&schema, 6) == list.as_slice());
    let chosen = [Part::Chosen(1), Part::Integer(0)];
    assert!(rt; parts_of(&schema, 7) == chosen.as_slice());
    let octets = Part::Octets(Span { at: 80, count: 16 });
    assert!(rt; parts_of(&schema, 8) == [octets].as_slice());
    assert!(rt; schema.default_value(9).is_none());
    assert!(rt; schema.default_value(10).is_none());
    Ok(())
}

/// X.690 8.19.4: the first subidentifier is 40 times the first arc and the second one. X.680 22.7:
/// the bits up to the last one that is named. X.680 23.3: a last digit is followed by a 0.
#[test]
fn default_values_have_their_octets(rt: HostRuntime) -> Result<(), Fail> {
    let schema = Schema::parse(rt.alloc(), VALUES)?;
    let Some((_, octets)) = schema.default_value(0) else {
        assert!(rt; false);
        return Ok(());
    };
    // 1000001 of seven bits; 1.2.840.113549; 1.0.8571, which is 66 * 128 + 123; and C0 F0.
    let expected = [0x82, 42, 134, 72, 134, 247, 13, 40, 194, 123, 0xC0, 0xF0];
    assert!(rt; octets == expected.as_slice());
    Ok(())
}

const WRONG: &str = "M DEFINITIONS ::= BEGIN
A ::= SEQUENCE { a INTEGER b BOOLEAN }
B ::= SEQUENCE { a A, b Unknown }
C ::= SEQUENCE { b B, n INTEGER (0..size) }
size INTEGER ::= 07
D ::= CHOICE { a INTEGER, b INTEGER }
E ::= D
E ::= NULL
END
";

/// One problem a definition: line 2 lacks a comma, lines 3 and 5 have one each, and so have 6 and 8. Those
/// of line 4 are others' problems.
#[test]
fn finds_several_problems(rt: HostRuntime) -> Result<(), Fail> {
    let problems = problems_of(rt.alloc(), WRONG)?;
    let mut lines: Vec<usize> = Vec::new(rt.alloc());
    for problem in problems.as_slice() {
        lines.push(asn1_notation::Report::new(WRONG, *problem).line())?;
    }
    assert!(rt; lines.as_slice() == [2usize, 3, 5, 6, 8].as_slice());
    Ok(())
}

/// A text of short words has more entries than the first room holds.
#[test]
fn a_text_with_many_entries_is_read_whole(rt: HostRuntime) -> Result<(), Fail> {
    let text =
        "M DEFINITIONS::=BEGIN A::=ENUMERATED{a,b,c,d,e,f,g,h,i,j,k,l,m,n,o,p,q,r,s,t,u,v,w,x,y,z}END";
    let schema = Schema::parse(rt.alloc(), text)?;
    let node = schema.node_named("A").ok_or("no type")?;
    assert!(rt; schema.enumerals(node).len() == 26);
    Ok(())
}

/// An OCTET STRING with CONTAINING tells its contents, also through names and tags, and without ENCODED BY.
#[test]
fn octet_strings_contain_values(rt: HostRuntime) -> Result<(), Fail> {
    let text = "M DEFINITIONS IMPLICIT TAGS ::= BEGIN
A ::= OCTET STRING (CONTAINING B)
B ::= SEQUENCE { a A OPTIONAL, b [1] A, c O (SIZE (9)) (CONTAINING BOOLEAN) }
O ::= OCTET STRING
E ::= OCTET STRING (CONTAINING B ENCODED BY { 2 1 1 })
END";
    let schema = Schema::parse(rt.alloc(), text)?;
    let node = schema.node_named("B").ok_or("no type")?;
    let of = schema.node_named("A").ok_or("no type")?;
    assert!(rt; schema.contents_type(of) == Some(node));
    assert!(rt; schema.open_type(of).is_none());
    for name in ["O", "E", "B"] {
        let node = schema.node_named(name).ok_or("no type")?;
        assert!(rt; schema.contents_type(node).is_none());
    }
    let Some(Node::Sequence { root, .. }) = schema.tables().nodes.get(node).copied() else {
        assert!(rt; false);
        return Ok(());
    };
    let contents = |index: usize| {
        let member = schema
            .tables()
            .members
            .get(root.from.saturating_add(index))?;
        schema.contents_type(member.node)
    };
    assert!(rt; contents(0) == Some(node) && contents(1) == Some(node));
    let last = contents(2).ok_or("no contents")?;
    assert!(rt; matches!(schema.tables().nodes.get(last), Some(Node::Boolean)));
    Ok(())
}

const REALS: &str = "M DEFINITIONS AUTOMATIC TAGS ::= BEGIN
Record ::= SEQUENCE {
    a REAL DEFAULT 1.5,
    b REAL DEFAULT - 2.5E3,
    c REAL DEFAULT 0,
    d REAL DEFAULT seven,
    e REAL DEFAULT { mantissa 12, base 2, exponent low },
    f REAL DEFAULT { mantissa -250, base 10, exponent -1 },
    g REAL DEFAULT MINUS-INFINITY,
    h REAL DEFAULT NOT-A-NUMBER,
    i REAL DEFAULT { mantissa 1, base 3, exponent 0 },
    j REAL DEFAULT TRUE
}
seven REAL ::= -7
low INTEGER ::= -32770
END
";

/// X.690 11.3.2: a decimal number has no zeros at its end, and `+0` as an exponent of 0. X.690 11.3.1: the
/// mantissa of 12 * 2^-32770 is 3, and its exponent -32768. X.690 8.5.2, 8.5.9: zero and special values.
#[test]
fn default_values_of_real_are_canonical(rt: HostRuntime) -> Result<(), Fail> {
    let schema = Schema::parse(rt.alloc(), REALS)?;
    for (index, wanted) in [
        b"\x0315.E-1".as_slice(),
        b"\x03-25.E2",
        b"",
        b"\x03-7.E+0",
        b"\x81\x80\x00\x03",
        b"\x03-25.E+0",
        b"\x41",
        b"\x42",
    ]
    .iter()
    .enumerate()
    {
        let (parts, octets) = schema.default_value(index).ok_or("no value")?;
        let Some(Part::Octets(span)) = parts.first() else {
            return Err("no octets".into());
        };
        let from = span.at / 8;
        let end = from.saturating_add(span.count / 8);
        assert!(rt; octets.get(from..end) == Some(*wanted));
    }
    assert!(rt; schema.default_value(8).is_none());
    assert!(rt; schema.default_value(9).is_none());
    Ok(())
}
