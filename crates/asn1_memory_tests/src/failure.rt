//! What a test prints after a failed allocation.

use std::test::Fail;

/// Prints that the call under test met the failed allocation.
pub fn met(rt: &HostRuntime, call: &str) -> Result<(), Fail> {
    println!(rt; "failed: {call}")?;
    Ok(())
}

/// Checks the result of a call that allocates, and prints a line if an allocation failed.
pub fn settle(
    rt: &HostRuntime,
    call: &str,
    is_done: bool,
    is_as_it_must_be: bool,
) -> Result<(), Fail> {
    if !is_as_it_must_be {
        return Err("another answer".into());
    }
    if is_done { Ok(()) } else { met(rt, call) }
}

/// Says that an argument of the call could not be made.
pub fn met_before(rt: &HostRuntime, call: &str) -> Result<(), Fail> {
    println!(rt; "failed before: {call}")?;
    Ok(())
}
