// Text for standard output, gathered in a buffer and written out in large pieces. What doesn't fit is left out; each line starts with
// room for 40,000 bytes.
ghost use Rattle.std.specs.Prelude.{◌≡◌, ◌≤◌};

use crate::told::unwritten;
use std::fmt;
use std::io::{Stderr, Stdout};

// The first `len` bytes are gathered; `failed` once a write failed. An array and not std's BufWriter, as that allocates, and so can fail.
// No Debug and no equality: std's Stdout has neither.
#[derive(Drop)]
pub struct Out {
    stdout: Stdout,
    stderr: Stderr,
    failed: bool,
    bytes: [u8; 65536],
    len: usize,
    ghost in_bounds: { len ≤ 65536 },
}

impl Out {
    pub fn new(stdout: Stdout, stderr: Stderr) -> Self
        ensures { result.len ≡ 0 }
    {
        Out {
            stdout,
            stderr,
            failed: false,
            bytes: [0; 65536],
            len: 0,
        }
    }

    pub fn text(&mut self, text: &[u8])
        ensures { self.new.len ≤ 65536 }
    {
        let end = self.len + text.len().min(65536 - self.len);
        self.bytes[self.len..end].copy_from_slice(&text[..end - self.len]);
        self.len = end;
    }

    // Writes what was gathered; nothing is left. A write that fails is told on standard error, and nothing is written after it.
    pub fn flush(&mut self)
        ensures { self.new.len ≡ 0 }
    {
        if !self.failed && self.stdout.write_all(&self.bytes[..self.len]).is_err() {
            self.failed = true;
            unwritten(self.stderr);
        }
        self.len = 0;
    }

    // Writes out what was gathered if it is much.
    fn flush_much(&mut self)
        ensures { self.new.len ≤ 24576 }
    {
        if self.len > 24576 {
            self.flush();
        }
    }

    // Bytes that are whole lines.
    pub fn lines(&mut self, lines: &[u8])
        ensures { self.new.len ≤ 24576 }
    {
        self.text(lines);
        self.flush_much();
    }

    // What `write!` and `writeln!` call.
    pub fn write_fmt<D: fmt::Display + Drop>(&mut self, text: D)
        ensures { self.new.len ≤ 24576 }
    {
        let _ = fmt::Write::write(self, text);
        self.flush_much();
    }

    // A line `.`, which ends what is said of a file of a batch, and all that was gathered written.
    pub fn end_file(&mut self)
        ensures { self.new.len ≡ 0 }
    {
        writeln!(self, ".");
        self.flush();
    }
}

impl fmt::Write for Out {
    fn write_str(&mut self, s: &str) -> fmt::Result {
        self.text(s.as_bytes());
        Ok(())
    }
}
