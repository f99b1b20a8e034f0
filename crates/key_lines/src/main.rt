// Reads a load file from standard input and prints each kept journey with its rides, horizon and limits, and whether it was searched; or
// the refusal. A read or a write that fails is told on standard error; after a failed read nothing is printed.
#![tactic(auto)]

use parts::{print, read_input};

// As long as the longest list with its rides.
const MOST: usize = 16384;

// As in `show`. One function for both would take the printer, and ask in a clause longer than this body how many bytes it fills.
fn main(rt: HostRuntime) {
    let mut reader = reader::fresh(false);
    if let Some(answer) = read_input(rt.stdin(), rt.stderr(), &mut reader) {
        let mut out = [0; MOST];
        let n = lines::ride_lines_of(&mut out, answer, &reader.load);
        print(rt.stdout(), rt.stderr(), &out[..n]);
    }
}
