// Reads a load file from standard input and prints its journeys in list order, then horizon and limits; or the refusal. A read or a write
// that fails is told on standard error; after a failed read nothing is printed.
#![tactic(auto)]

use parts::{print, read_input};

// As long as the longest list.
const MOST: usize = 4096;

// As in `key_lines`, which says why there are two.
fn main(rt: HostRuntime) {
    let mut reader = reader::fresh(false);
    if let Some(answer) = read_input(rt.stdin(), rt.stderr(), &mut reader) {
        let mut out = [0; MOST];
        let n = lines::lines_of(&mut out, answer, &reader.load);
        print(rt.stdout(), rt.stderr(), &out[..n]);
    }
}
