//! Readers and writers that fail, which no run of a program shows: what an error is called, that an
//! interrupted write is tried again, and that `write_all` flushes.

use crate::error::StreamError;
use crate::reading::{read_to_end, read_within};
use crate::writing::write_all;
use std::io::{self, ErrorKind, Read, Write};
use std::test::Fail;

/// Returns one octet a read, for a number of reads, and then fails.
#[derive(Drop)]
struct Broken {
    left: usize,
}

impl Read for Broken {
    fn read(&mut self, buf: &mut [u8]) -> io::Result<usize> {
        if self.left == 0 || buf.is_empty() {
            return Err(io::Error::other("lost"));
        }
        self.left -= 1;
        buf[0] = 7;
        Ok(1)
    }
}

#[test]
fn a_read_that_fails_is_named(rt: HostRuntime) -> Result<(), Fail> {
    for left in 0..3usize {
        let mut input = Broken { left };
        assert!(rt; read_to_end(rt.alloc(), &mut input).err() == Some(StreamError::Read));
        assert!(rt; input.left == 0);
    }
    Ok(())
}

/// Returns one octet a read, without end.
#[derive(Drop)]
struct Endless {
    given: usize,
}

impl Read for Endless {
    fn read(&mut self, buf: &mut [u8]) -> io::Result<usize> {
        if buf.is_empty() {
            return Ok(0);
        }
        self.given = self.given.saturating_add(1);
        buf[0] = 7;
        Ok(1)
    }
}

#[test]
fn an_input_without_end_is_given_up(rt: HostRuntime) -> Result<(), Fail> {
    let mut input = Endless { given: 0 };
    assert!(rt; read_within(rt.alloc(), &mut input, 5).err() == Some(StreamError::Read));
    assert!(rt; input.given == 5);
    Ok(())
}

/// Keeps what is written back until it is flushed. Where it `fails`, it loses that.
#[derive(Drop)]
struct Buffered {
    fails: bool,
    kept: usize,
    flushed: usize,
}

impl Write for Buffered {
    fn write(&mut self, buf: &[u8]) -> io::Result<usize> {
        self.kept = self.kept.saturating_add(buf.len());
        Ok(buf.len())
    }

    fn flush(&mut self) -> io::Result<()> {
        if self.fails {
            return Err(io::Error::other("lost"));
        }
        self.flushed = self.flushed.saturating_add(self.kept);
        self.kept = 0;
        Ok(())
    }
}

/// Returns whether 20 octets are flushed, or if that fails, the error says so.
fn is_flushed(fails: bool) -> bool {
    let mut output = Buffered {
        fails,
        kept: 0,
        flushed: 0,
    };
    match write_all(&mut output, b"n 0\nrest 5\nagain 00\n") {
        Ok(()) => !fails && output.flushed == 20,
        Err(error) => fails && error == StreamError::Write && output.flushed == 0,
    }
}

#[test]
fn the_output_is_flushed(rt: HostRuntime) -> Result<(), Fail> {
    assert!(rt; is_flushed(false));
    assert!(rt; is_flushed(true));
    Ok(())
}

/// Takes two octets a call. Its second call fails with this error.
#[derive(Drop)]
struct Halting {
    error: ErrorKind,
    calls: usize,
    sum: u32,
}

impl Write for Halting {
    fn write(&mut self, buf: &[u8]) -> io::Result<usize> {
        self.calls = self.calls.saturating_add(1);
        if self.calls == 2 {
            return Err(io::Error::from(self.error));
        }
        let count = if buf.len() < 2 { buf.len() } else { 2 };
        for octet in &buf[..count] {
            self.sum = self.sum.wrapping_mul(10).wrapping_add(u32::from(*octet));
        }
        Ok(count)
    }

    fn flush(&mut self) -> io::Result<()> {
        Ok(())
    }
}

#[test]
fn an_interrupted_write_is_tried_again(rt: HostRuntime) -> Result<(), Fail> {
    let error = ErrorKind::Interrupted;
    let mut output = Halting {
        error,
        calls: 0,
        sum: 0,
    };
    assert!(rt; write_all(&mut output, &[1, 2, 3, 4, 5]).is_ok());
    assert!(rt; output.calls == 4);
    assert!(rt; output.sum == 12345);
    Ok(())
}

#[test]
fn another_failed_write_is_an_error(rt: HostRuntime) -> Result<(), Fail> {
    let error = ErrorKind::BrokenPipe;
    let mut output = Halting {
        error,
        calls: 0,
        sum: 0,
    };
    assert!(rt; write_all(&mut output, &[1, 2, 3, 4, 5]).err() == Some(StreamError::Write));
    assert!(rt; output.sum == 12);
    Ok(())
}
