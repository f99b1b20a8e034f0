// What is told on standard error of reading and writing. A write that fails there goes unsaid.
use std::io::Stderr;

pub fn unread(stderr: Stderr) {
    let _ = stderr.write_all(b"standard input can't be read\n");
}

pub fn unwritten(stderr: Stderr) {
    let _ = stderr.write_all(b"standard output can't be written\n");
}
