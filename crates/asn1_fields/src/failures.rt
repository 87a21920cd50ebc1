//! A run in which an allocation fails. `scripts/fail-each-allocation` lets the first allocation
//! fail, then the second, and so on until there are no more.

use crate::run::run;
use octet_streams::StreamError;
use std::io::{self, Write};
use std::test::Fail;

/// Counts the octets that it takes, and allocates nothing.
#[derive(Drop)]
struct Counted {
    octets: usize,
}

impl Write for Counted {
    fn write(&mut self, buf: &[u8]) -> io::Result<usize> {
        self.octets = self.octets.saturating_add(buf.len());
        Ok(buf.len())
    }

    fn flush(&mut self) -> io::Result<()> {
        Ok(())
    }
}

/// Prints that the call under test ran out of memory.
fn met(rt: &HostRuntime, call: &str) -> Result<(), Fail> {
    println!(rt; "failed: {call}")?;
    Ok(())
}

#[test]
fn a_run_without_memory_says_so(rt: HostRuntime) -> Result<(), Fail> {
    let mut input = b"n3\n00\n0\n".as_slice();
    let mut output = Counted { octets: 0 };
    match run(rt.alloc(), &mut input, &mut output) {
        Ok(status) => {
            assert!(rt; status == 0);
            assert!(rt; output.octets == 20);
            Ok(())
        }
        Err(error) => {
            assert!(rt; error == StreamError::Memory);
            assert!(rt; output.octets == 0);
            met(&rt, "run")
        }
    }
}
