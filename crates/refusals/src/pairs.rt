// Each fault of a step alone, and each two of them together.
use crate::fault::{Fault, Faults};
use crate::shown::then;
use crate::step::Step;
use load::StepResult;
use refusal::Refusal;

// Two that never hold together. An id or a name that is taken is 1 to 32 bytes long; reversed times are both there; the stops of a rule
// taken are known; a load is searched only where its calls fit, so of a search no fault but that of its settings is beside it; of an
// unknown service nobody says that it doesn't run; where no call is withdrawn, none shows again.
fn apart(step: Step, first: Fault, second: Fault) -> bool {
    match (first, second) {
        (_, Fault::Falls) => step == Step::Withdrawn,
        (Fault::Meets(Refusal::IdLength), Fault::Meets(Refusal::IdTaken)) => true,
        (Fault::Absent, Fault::Meets(Refusal::TimesReversed)) => true,
        (Fault::Meets(Refusal::FieldRange), Fault::Meets(Refusal::PairTaken)) => true,
        (Fault::Meets(Refusal::AlreadySearched), Fault::Meets(cause)) => {
            step == Step::Search || step == Step::Limited && cause != Refusal::SettingsRange
        }
        (Fault::Meets(Refusal::ServiceUnknown), Fault::Rests) => true,
        _ => false,
    }
}

// The faults stand in the scope's order.
pub fn each<F: Fn(Faults) -> StepResult>(rt: &impl Print, step: Step, faults: &[Fault], tried: F)
    requires { F.IsAlwaysCallable tried }
{
    for &first in faults {
        let one = Faults {
            first,
            second: None,
        };
        then(rt, step, one, tried(one));
    }
    for (i, &first) in faults.iter().enumerate() {
        for &second in &faults[i + 1..] {
            if !apart(step, first, second) {
                let both = Faults {
                    first,
                    second: Some(second),
                };
                then(rt, step, both, tried(both));
            }
        }
    }
}
