// Reads a load file of either version from standard input and writes its load as a file of version 2 to standard output. A file that is
// refused, and a load that is not written, are told on standard error; then nothing is written. So are a read or a write that fails; after
// a failed read nothing is written.
#![tactic(auto)]

use load::Load;
use parts::{print, read_input};
use refusal::{Answer, Refusal};
use std::io::{Stderr, Stdout};
use writer::write;

// As long as the longest file of a load that steps make.
const ROOM: usize = 33588;

// As long as the longest list.
const SAID: usize = 4096;

fn tell(stderr: Stderr, answer: Answer, load: Load) {
    let mut out = [0; SAID];
    let n = lines::lines(&mut out, answer, load);
    let _ = stderr.write_all(&out[..n]);
}

fn save(stdout: Stdout, stderr: Stderr, load: Load) -> Result<(), Refusal> {
    let mut out = [0; ROOM];
    let size = write(load, &mut out)?;
    print(stdout, stderr, &out[..size.min(ROOM)]);
    Ok(())
}

fn main(rt: HostRuntime) {
    let mut reader = reader::fresh(false);
    if let Some(answer) = read_input(rt.stdin(), rt.stderr(), &mut reader) {
        let load = reader.load;
        let saved = answer.and_then(|_| save(rt.stdout(), rt.stderr(), load));
        if let Err(r) = saved {
            tell(rt.stderr(), Err(r), load);
        }
    }
}
