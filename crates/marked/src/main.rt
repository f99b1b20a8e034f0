// Runs instances of RULES 6, 7 and 14 and published hash vectors, and writes a line for each; the file `stdout` says what each must give.
#![tactic(auto)]

mod changes;
mod places;
mod show;
mod text_lines;

fn run(rt: &impl Print) {
    text_lines::hashes(rt);
    text_lines::names(rt);
    text_lines::times(rt);
    places::run(rt);
    changes::run(rt)
}

// A failed write goes unsaid, as what is printed is compared with the file `stdout`; the next is tried.
fn main(rt: HostRuntime) {
    run(&rt);
}
