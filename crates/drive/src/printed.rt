// The lines that records have in common: what a step was answered, and the journey of a query.
use profile::Journey;
use refusal::{Accepted, Answer};
use stdio::load_lines::{Figures, refused};
use stdio::out::Out;

// The line of an answer; `taken` is the word where the step was taken.
pub fn told(out: &mut Out, answer: Answer, taken: &str) {
    match answer {
        Ok(Accepted::Taken) => writeln!(out, "{taken}"),
        Ok(Accepted::Outside) => writeln!(out, "outside"),
        Err(r) => refused(out, r),
    }
}

pub fn found(out: &mut Out, journey: Option<Journey>) {
    match journey {
        Some(j) => writeln!(out, "journey {}", Figures(&j)),
        None => writeln!(out, "none"),
    }
}
