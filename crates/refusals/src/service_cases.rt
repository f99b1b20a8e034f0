// Services: their faults, and services told in words. Parameters as main.rt has them.
use crate::fault::{Fault, Faults};
use crate::inputs::{FIRST, LAST, MONDAY, call_at, daily, name_of};
use crate::loads::{searched_if, small, week};
use crate::pairs;
use crate::shown::{held, then};
use crate::step::Step;
use load::{Load, StepResult};
use refusal::Refusal;

const FAULTS: [Fault; 5] = [
    Fault::Meets(Refusal::AlreadySearched),
    Fault::Meets(Refusal::IdLength),
    Fault::Meets(Refusal::IdTaken),
    Fault::Meets(Refusal::DateWrong),
    Fault::Meets(Refusal::ServicesFull),
];

// A date, or none that the calendar has.
pub fn date_of(faults: Faults) -> u32 {
    if faults.meet(Refusal::DateWrong) {
        20230229
    } else {
        MONDAY
    }
}

fn tried(faults: Faults) -> StepResult {
    let load = week(if faults.meet(Refusal::ServicesFull) {
        64
    } else {
        2
    });
    let load = searched_if(faults.meet(Refusal::AlreadySearched), load);
    load.service(name_of(faults, b"A"), daily(date_of(faults), LAST))
}

// A week after a call of a service.
pub fn called(service: &[u8], time: u32) -> Load {
    week(2).call_of(service, call_at(900, 0, 1, time)).load
}

// One of every date.
fn told(rt: &impl Print, label: &str, load: Load, name: &[u8]) {
    then(
        rt,
        Step::Service,
        label,
        load.service(name, daily(FIRST, LAST)),
    )
}

fn told_from(rt: &impl Print, label: &str, start: u32, end: u32) {
    then(
        rt,
        Step::Service,
        label,
        week(2).service(b"new", daily(start, end)),
    )
}

fn words(rt: &impl Print) {
    told(rt, "with a name of 32 bytes", week(2), &[b'a'; 32]);
    told(rt, "with a name of 33 bytes", week(2), &[b'a'; 33]);
    told(rt, "with the id of a stop", week(2), b"C");
    told_from(rt, "with an end before the start", 20261118, 20261116);
    told_from(rt, "from 19000229", 19000229, LAST);
    told_from(rt, "to 20240431", FIRST, 20240431);
    told(rt, "of a load without dates", small(), b"new");
    let unnamed = small().service(b"", daily(0, 0));
    then(
        rt,
        Step::Service,
        "without a name of a load without dates",
        unnamed,
    );
    told(
        rt,
        "after a call that is refused",
        called(b"unknown", 600),
        b"new",
    );
    told(
        rt,
        "after a call that doesn't run",
        called(b"B", 600),
        b"new",
    );
    told(rt, "after a call that is taken", called(b"A", 600), b"new");
    told(
        rt,
        "after a call outside the window",
        called(b"A", 30000),
        b"new",
    )
}

pub fn run(rt: &impl Print) {
    pairs::each(rt, Step::Service, &FAULTS, tried);
    words(rt);
    held(rt, Step::Service, week(70).week.service_count)
}
