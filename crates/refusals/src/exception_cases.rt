// Exceptions to services: their faults, and exceptions told in words. Parameters as main.rt has them.
use crate::fault::{Fault, Faults};
use crate::inputs::{on_monday, service_of};
use crate::loads::{searched_if, small, week, with};
use crate::service_cases::{called, date_of};
use crate::shown::then;
use crate::step::Step;
use crate::{good, pairs};
use load::{Load, StepResult};
use refusal::Refusal;
use services::ExceptionInput;

const FAULTS: [Fault; 3] = [
    Fault::Meets(Refusal::AlreadySearched),
    Fault::Meets(Refusal::DateWrong),
    Fault::Meets(Refusal::ServiceUnknown),
];

fn tried(faults: Faults) -> StepResult {
    let load = searched_if(faults.meet(Refusal::AlreadySearched), week(2));
    let input = ExceptionInput {
        date: date_of(faults),
        kind: 2,
    };
    load.exception(service_of(faults), input)
}

fn told(rt: &impl Print, label: &str, load: Load, name: &[u8]) {
    then(
        rt,
        Step::Exception,
        label,
        load.exception(name, on_monday(1)),
    )
}

// Of any kind, as `inputs: on_monday`.
fn told_of(rt: &impl Print, label: &str, name: &[u8], kind: u8) {
    then(
        rt,
        Step::Exception,
        label,
        week(2).exception(name, on_monday(kind)),
    )
}

pub fn run(rt: &impl Print) {
    pairs::each(rt, Step::Exception, &FAULTS, tried);
    told_of(rt, "of type 1", b"A", 1);
    told_of(rt, "of type 2", b"A", 2);
    told_of(rt, "of type 0", b"A", 0);
    told_of(rt, "of type 3", b"A", 3);
    told_of(rt, "of type 3 and an unknown service", b"unknown", 3);
    let other = ExceptionInput {
        date: 20240229,
        kind: 1,
    };
    then(
        rt,
        Step::Exception,
        "on another date",
        week(2).exception(b"A", other),
    );
    told(rt, "without a name", week(2), b"");
    told(rt, "with a name of 33 bytes", week(2), &[b'a'; 33]);
    let many = with(week(2), 1000, good::exception);
    told(rt, "after 1000 others", many, b"A");
    let wrong = ExceptionInput { date: 0, kind: 3 };
    then(
        rt,
        Step::Exception,
        "of a load without dates",
        small().exception(b"unknown", wrong),
    );
    told(
        rt,
        "after a call that is refused",
        called(b"unknown", 600),
        b"A",
    );
    told(rt, "after a call that doesn't run", called(b"B", 600), b"A");
    told(rt, "after a call that is taken", called(b"A", 600), b"A")
}
