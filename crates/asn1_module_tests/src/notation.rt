use asn1_notation::{Item, NO_ENTRY, Report, parse};
use std::test::Fail;

const RECORD: &str = "M DEFINITIONS AUTOMATIC TAGS ::= BEGIN
A ::= SEQUENCE { id INTEGER (0..7), ..., [[ b BOOLEAN DEFAULT TRUE ]] }
END
";

#[test]
fn writes_entries(rt: HostRuntime) -> Result<(), Fail> {
    let mut room = [NO_ENTRY; 40];
    let text = RECORD.as_bytes();
    let count = parse(text, &mut room);
    assert!(rt; count == Ok(17));
    assert!(rt; parse(text, &mut []) == count);
    assert!(rt; room[0].item == Item::Module && room[0].end == 17);
    assert!(rt; room[15].item == Item::Default && room[15].count == 4);
    Ok(())
}

#[test]
fn reports_the_line(rt: HostRuntime) -> Result<(), Fail> {
    let text = "M DEFINITIONS ::= BEGIN\nA ::= SEQUENCE {\n    two BOOLEAN OPTIONNAL\n}\nEND\n";
    let Err(error) = parse(text.as_bytes(), &mut []) else {
        assert!(rt; false);
        return Ok(());
    };
    let report = Report::new(text, error);
    let printed = format!(in rt.alloc(); "{report}")?;
    let wanted =
        "3:17: expected `,` or `}`, found `OPTIONNAL`\n    two BOOLEAN OPTIONNAL\n                ^";
    assert!(rt; printed.as_str() == wanted);
    Ok(())
}
