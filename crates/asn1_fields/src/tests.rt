//! A caller of `run` over memory, whose octets are known.

ghost use Rattle.std.specs.Prelude.{IfOk};
ghost use Rattle.field_lines.specs.Answer.{IsAnswer, IsOnly};

use crate::run::run;
use octet_streams::StreamError;
use std::alloc::Global;
use std::test::Fail;

/// Returns the status and the whole output for an input in memory.
fn answer_of(alloc: Global, input: &[u8]) -> Result<(u8, Vec<u8>), StreamError>
    ensures { IfOk result (λ answered.
        IsOnly (IsAnswer input.now) (record { text = answered.1.items; status = answered.0 })) }
{
    let mut output = Vec::new(alloc);
    let mut rest = input;
    let status = run(alloc, &mut rest, &mut output)?;
    Ok((status, output))
}

#[test]
fn an_input_in_memory_has_its_answer(rt: HostRuntime) -> Result<(), Fail> {
    let Ok((status, output)) = answer_of(rt.alloc(), b"c d2\n0200808837\n0\n") else {
        return Err("no answer".into());
    };
    assert!(rt; status == 0);
    let expected = b"c 0080\nd 2.999\nrest 0\nagain 0200808837\n";
    assert!(rt; output.as_slice() == expected.as_slice());
    Ok(())
}
