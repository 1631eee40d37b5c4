// How much of a long input was read, as a line on a terminal.

use std::alloc::Global;
use std::io::{IsTerminal, Write};
use std::rt::Stderr;

/// Inputs of at most this many bytes are read in silence.
const LONG_INPUT: u64 = 100_000_000;

/// The line is written anew after this many bytes.
const STEP: u64 = 10_000_000;

/// What erases a line of a terminal from the cursor on.
const ERASE: &str = "\x1b[K";

/// A line on standard error that says how much of an input was read.
#[derive(Drop)]
pub struct Progress {
    alloc: Global,
    stream: Stderr,
    // How many bytes were read, and at how many the line is written next.
    read: u64,
    next: u64,
}

/// Returns whether the line can be shown: standard error is a terminal, and what is printed goes
/// elsewhere.
pub fn can_be_shown(rt: &HostRuntime, prints: bool) -> bool {
    rt.stderr().is_terminal() && !(prints && rt.stdout().is_terminal())
}

impl Progress {
    /// Creates the line of an input of which nothing was read.
    pub fn new(rt: &HostRuntime) -> Progress {
        Progress {
            alloc: rt.alloc(),
            stream: rt.stderr(),
            read: 0,
            next: LONG_INPUT,
        }
    }

    // Writes a text. A line that cannot be written is left out.
    fn write(&mut self, text: &str) {
        let _ = self.stream.write(text.as_bytes());
    }

    // Writes the line. The cursor stays at its beginning, so that what follows is written over it.
    fn show(&mut self) {
        let megabytes = self.read / 1_000_000;
        if let Ok(line) = format!(in self.alloc; "mezdruk: {megabytes} MB read\r") {
            self.write(ERASE);
            self.write(line.as_str());
        }
    }

    /// Counts bytes that were read, and writes the line if they are many. None are the end of the
    /// input, at which the line is erased.
    pub fn add(&mut self, count: usize) {
        self.read = self.read.saturating_add(count as u64);
        if count == 0 && self.read > LONG_INPUT {
            self.write(ERASE);
        } else if self.read > self.next {
            self.next = self.read.saturating_add(STEP);
            self.show();
        }
    }
}
