// Reads load files from standard input, each after its length as a big-endian u32, and prints what each was answered, a line
// `.` after each: the calls' answers, the table, the places, the journeys, horizon and limits, best and next after. A file
// that is longer than the buffer, or is not there whole, ends the run; so does a read that fails, which is told on standard error, as a
// write that fails is.
#![tactic(auto)]

mod answers;
mod load_lines;
mod queries;

use stdio::out::Out;
use stdio::{input, told};

// As long as the longest file.
const MOST: usize = 1000000;

fn main(rt: HostRuntime) {
    let mut out = Out::new(rt.stdout(), rt.stderr());
    let mut buf = input::zeros::<MOST>();
    let done = input::each_file(rt.stdin(), &mut buf, |bytes| {
        answers::file(&mut out, bytes);
        out.end_file();
    });
    if done.is_err() {
        told::unread(rt.stderr());
    }
}
