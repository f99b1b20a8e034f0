// A line for each step: what is wrong with it, its answer, and the answer of a good step on the load that it returns.
use crate::step::Step;
use load::StepResult;
use refusal::{Accepted, Answer};
use std::fmt;

// What a step is answered: a word, or the number of a refusal.
#[derive(Clone, Copy, Debug, PartialEq, Eq)]
struct Shown(Answer);

impl fmt::Display for Shown {
    fn fmt<W: fmt::Write>(&self, f: &mut fmt::Formatter<W>) -> fmt::Result {
        match self.0 {
            Ok(Accepted::Taken) => f.write_str("taken"),
            Ok(Accepted::Outside) => f.write_str("outside"),
            Err(cause) => write!(f, "{}", u8::from(cause)),
        }
    }
}

// No load is opened, so no step follows.
pub fn opened(rt: &impl Print, label: &str, stepped: StepResult) {
    let _ = println!(rt; "open {label}: {}", Shown(stepped.answer));
}

pub fn then(rt: &impl Print, step: Step, label: impl fmt::Display + Drop, stepped: StepResult) {
    let next = step.then(stepped.load);
    let _ = println!(rt;
        "{step} {label}: {}, then {}",
        Shown(stepped.answer),
        Shown(next.answer)
    );
}

// How many a full load holds.
pub fn held(rt: &impl Print, step: Step, count: usize) {
    let _ = println!(rt; "{step}s held: {count}");
}
