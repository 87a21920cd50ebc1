//! Progress with large inputs.

use std::rt::Runtime;

/// The least number of octets of an input whose progress is shown.
const LARGE: usize = 1 << 20;

/// Whether progress is shown on standard error.
#[derive(Clone, Copy, Debug)]
pub struct Progress {
    is_shown: bool,
}

impl Progress {
    /// Shows progress if standard error is a terminal.
    pub fn on(is_terminal: bool) -> Progress {
        Progress {
            is_shown: is_terminal,
        }
    }

    /// Prints a line that says what happens next to the octets, if they are many. A failed write is
    /// ignored.
    pub fn say<R: Runtime>(self, rt: &R, what: &str, octets: usize) {
        if self.is_shown && octets >= LARGE {
            let _ = rt.eprintln(format_args!("{what} {octets} octets"));
        }
    }
}
