// Best at -1, 0, each leave, each leave + 1, the horizon and the horizon + 1, in rising order and once each; then next
// after each kept journey, at second 0.
ghost use Rattle.std.specs.Ordering.{int_cmp};
ghost use Rattle.std.specs.Prelude.{IsSorted};

use best::{best, next_after};
use load::Load;
use profile::Journey;
use std::fmt;
use stdio::load_lines::Figures;
use stdio::out::Out;

// What a query answers.
#[derive(Clone, Copy, Debug, PartialEq, Eq)]
struct BestJourney(Option<Journey>);

impl fmt::Display for BestJourney {
    fn fmt<W: fmt::Write>(&self, f: &mut fmt::Formatter<W>) -> fmt::Result {
        match &self.0 {
            Some(j) => write!(f, "{}", Figures(j)),
            None => f.write_str("none"),
        }
    }
}

// The seconds that are asked, in rising order; -1 stands in for the journeys that are not there too.
fn asked(horizon: u16, kept: &[Journey]) -> [i64; 132]
    ensures { IsSorted int_cmp result }
{
    let mut seconds = [-1; 132];
    seconds[1] = 0;
    seconds[2] = i64::from(horizon);
    seconds[3] = i64::from(horizon) + 1;
    let (pairs, _) = seconds[4..].as_chunks_mut::<2>();
    for (pair, j) in pairs.iter_mut().zip(kept) {
        *pair = [i64::from(j.leave), i64::from(j.leave) + 1];
    }
    seconds.sort_unstable();
    seconds
}

pub fn bests(out: &mut Out, load: Load, kept: &[Journey]) {
    let mut last = None;
    for second in asked(load.horizon, kept) {
        if last != Some(second) {
            writeln!(out, "best {second} {}", BestJourney(best(load, second)));
            last = Some(second);
        }
    }
}

pub fn nexts(out: &mut Out, load: Load, kept: &[Journey]) {
    for j in kept {
        writeln!(
            out,
            "next {} {}",
            j.leave,
            BestJourney(next_after(load, 0, *j))
        );
    }
}
