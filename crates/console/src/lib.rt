// Standard output and standard error for the programs, by the kit's `io`: each piece goes out as it comes, without a buffer, and a piece that
// cannot be written is lost, so that a program ends as if it had been.
#![tactic(auto)]

use std::fmt;
use std::fmt::{Display, Write};
use std::io::{ErrorKind, Result};

// The descriptors of standard output and standard error.
const STDOUT_FILENO: i32 = 1;

const STDERR_FILENO: i32 = 2;

// A destination of text.
#[derive(Clone, Copy)]
struct Descriptor(i32);

impl fmt::Write for Descriptor {
    fn write_str(&mut self, s: &str) -> fmt::Result {
        io::write_all(self.0, s.as_bytes());
        Ok(())
    }
}

// What the programs print to. Bytes that cannot be written are an error, for a program that has words for it.
#[derive(Clone, Copy)]
pub struct Console;

impl Print for Console {
    fn print<D: Display + Drop>(&self, value: D) -> Result<()> {
        let _ = Descriptor(STDOUT_FILENO).write(value);
        Ok(())
    }

    fn println<D: Display + Drop>(&self, value: D) -> Result<()> {
        let _ = Descriptor(STDOUT_FILENO).writeln(value);
        Ok(())
    }

    fn write_all(&self, bytes: &[u8]) -> Result<()> {
        if io::write_all(STDOUT_FILENO, bytes) {
            Ok(())
        } else {
            Err(ErrorKind::WriteZero.into())
        }
    }
}

impl Eprint for Console {
    fn eprint<D: Display + Drop>(&self, value: D) -> Result<()> {
        let _ = Descriptor(STDERR_FILENO).write(value);
        Ok(())
    }

    fn eprintln<D: Display + Drop>(&self, value: D) -> Result<()> {
        let _ = Descriptor(STDERR_FILENO).writeln(value);
        Ok(())
    }
}

// Standard output as a destination of text.
impl fmt::Write for Console {
    fn write_str(&mut self, s: &str) -> fmt::Result {
        io::write_all(STDOUT_FILENO, s.as_bytes());
        Ok(())
    }
}
