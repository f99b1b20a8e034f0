// Asks best (`best_over`) over the first of the journeys, and `best_lent` over as many lent, side by side, a line for each question: which
// journey of the list each takes, with its leave, arrival, rides and walk. The file `stdout` says what each must give.
#![tactic(auto)]

mod questions;

use profile::{Journey, KEPT};
use std::fmt;

// An answer of best.
#[derive(Clone, Copy, Debug, PartialEq, Eq)]
struct Shown(Option<Journey>);

impl fmt::Display for Shown {
    fn fmt<W: fmt::Write>(&self, f: &mut fmt::Formatter<W>) -> fmt::Result {
        match &self.0 {
            Some(j) => write!(
                f,
                "{} ({} {} {} {})",
                j.first.trip, j.leave, j.arrival, j.rides, j.walk
            ),
            None => f.write_str("-"),
        }
    }
}

// `None` where a question is misspelt, which goes unsaid, as what is printed is compared with the file `stdout`. So does a write that
// fails; the next is tried.
fn ask(rt: &impl Print, name: &str, list: &[Journey; KEPT], question: &str) -> Option<()> {
    let q = questions::read_question(question)?;
    let over = best::best_over(prefix::first(list, q.count), q.horizon, q.second);
    let lent = lent::best_lent(list, q.count, q.horizon, q.second);
    let _ = println!(rt;
        "{name} at {}, first {}, up to {}: {} | {}",
        q.second,
        q.count,
        q.horizon,
        Shown(over),
        Shown(lent)
    );
    Some(())
}

fn line(rt: &impl Print, text: &str) -> Option<()> {
    let (name, asked) = text.split_once('|')?;
    let (list, questions) = asked.split_once('|')?;
    let list = questions::list(list)?;
    for question in questions.split(',') {
        ask(rt, name, &list, question)?;
    }
    Some(())
}

fn run(rt: &impl Print) -> Option<()> {
    for text in questions::LINES.lines() {
        line(rt, text)?;
    }
    Some(())
}

fn main(rt: HostRuntime) {
    let _ = run(&rt);
}
