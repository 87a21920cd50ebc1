use crate::sizes::list_with_sizes;
use asn1_resolve::Schema;
use std::test::Fail;

const SIZES: &str = "Sizes DEFINITIONS AUTOMATIC TAGS ::= BEGIN
A ::= BOOLEAN
B ::= INTEGER (0..255)
C ::= INTEGER (5)
D ::= INTEGER (0..7, ...)
E ::= IA5String (SIZE (1..15))
F ::= NumericString (SIZE (4))
G ::= ENUMERATED { a, b, c, ..., d }
H ::= SEQUENCE { a BOOLEAN, b INTEGER (0..15) OPTIONAL, ..., c OCTET STRING (SIZE (2)) }
I ::= CHOICE { a NULL, b INTEGER (0..1023), c BOOLEAN }
J ::= SEQUENCE { next J OPTIONAL, value B }
K ::= SEQUENCE (SIZE (0..3)) OF A
L ::= UTCTime
M ::= OCTET STRING (SIZE (0..65535))
N ::= BIT STRING (SIZE (4, ...))
O ::= PrintableString (FROM (\"a\"..\"d\")) (SIZE (2..3))
P ::= OCTET STRING (SIZE (20000..MAX))
END
";

/// Counted by hand, by X.691 11 to 30. P has a fragment of 16,384 octets, and the others after two octets.
const BITS: &str = "A: 1 bit
B: 8 bits
C: 0 bits
D: at least 4 bits
E: 11 to 109 bits
F: 16 bits
G: 3 to 8 bits
H: 3 to 39 bits
I: 2 to 12 bits
J: at least 9 bits
K: 2 to 5 bits
L: 99 bits
M: 16 to 524296 bits
N: at least 5 bits
O: 5 to 7 bits
P: at least 160024 bits
";

#[test]
fn sizes_are_those_of_per(rt: HostRuntime) -> Result<(), Fail> {
    let schema = Schema::parse(rt.alloc(), SIZES)?;
    let list = list_with_sizes(rt.alloc(), &schema)?;
    assert!(rt; list.as_str() == BITS);
    Ok(())
}
