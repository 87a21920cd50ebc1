use crate::args::Output;
use crate::codec::{Codec, Target};
use crate::decode::Decoder;
use crate::rules::Rules;
use crate::stop::Stop;
use crate::types::node_of;
use asn1_resolve::Schema;
use std::test::Fail;

const PEOPLE: &str = "People DEFINITIONS AUTOMATIC TAGS ::= BEGIN
Person ::= SEQUENCE {
    name IA5String (SIZE (1..15)),
    age INTEGER (0..150) OPTIONAL,
    likes SEQUENCE OF ENUMERATED { tea, coffee } }
END
";

/// The tags of X.680 8.4 and 25.3. The offsets are counted by hand: the name begins at 2, the age at 7, the
/// likes at 10, and the first of them at 12.
#[test]
fn a_fault_of_der_says_what_was_expected_and_found(rt: HostRuntime) -> Result<(), Fail> {
    let alloc = rt.alloc();
    let schema = Schema::parse(alloc, PEOPLE)?;
    let node = node_of(&schema, "Person").ok_or("no type")?;
    let codec = Codec::new(alloc, &schema, node, Rules::Der)?;
    let target = Target {
        node,
        depth: 50,
        is_prefix: false,
    };
    let decoder = Decoder {
        alloc,
        schema: &schema,
        codec: &codec,
        target,
        parts: 100,
        printed: Output::Json,
    };
    for (octets, wanted) in [
        (
            b"\x31\x0D\x80\x03Ann\x81\x01\x1E\xA2\x03\x0A\x01\x01".as_slice(),
            "offset 0: type Person: expected SEQUENCE, found SET",
        ),
        (
            b"\x30\x0D\xA0\x03Ann\x81\x01\x1E\xA2\x03\x0A\x01\x01".as_slice(),
            "offset 2, name: expected [0], found constructed [0]",
        ),
        (
            b"\x30\x0D\x80\x03Ann\x81\x01\x1E\xA2\x03\x02\x01\x01".as_slice(),
            "offset 12, likes[0]: expected ENUMERATED, found INTEGER",
        ),
        (
            b"\x30\x08\x80\x03Ann\x81\x01\x1E".as_slice(),
            "offset 10, likes: a component is missing: expected [2]",
        ),
        (
            b"\x30\x0F\x80\x03Ann\x81\x01\x1E\xA2\x03\x0A\x01\x01\x83\x00".as_slice(),
            "offset 15: type Person: octets follow the last value, found [3]",
        ),
        (
            b"\x30\x0D\x80\x03Ann\x81\x01\x1E\xA2\x03\x0A\x01\x01\x05\x00".as_slice(),
            "offset 15: type Person: octets follow the last value, found NULL",
        ),
        (
            b"\x30\x0D\x80\x03Ann".as_slice(),
            "offset 2: type Person: octets are missing",
        ),
    ] {
        match decoder.text_of(octets) {
            Err(Stop::Input(text)) => assert_eq!(rt; text.as_str(), wanted),
            _ => return Err("no error".into()),
        }
    }
    Ok(())
}
