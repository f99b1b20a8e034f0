// Calls that name a service: their faults, and calls told in words: names, and on which days a service runs.
// Parameters as main.rt has them.
use crate::fault::{Fault, Faults};
use crate::inputs::{FIRST, LAST, MONDAY, call_at, daily, faulty_call, service_of};
use crate::loads::{on, small, week, with};
use crate::shown::then;
use crate::step::Step;
use crate::{good, pairs};
use again::add;
use load::{Load, StepResult};
use refusal::Refusal;
use services::{ExceptionInput, ServiceInput};

const FAULTS: [Fault; 7] = [
    Fault::Meets(Refusal::FieldRange),
    Fault::Meets(Refusal::ServiceUnknown),
    Fault::Rests,
    Fault::Absent,
    Fault::Meets(Refusal::TimesReversed),
    Fault::Outside,
    Fault::Meets(Refusal::NoRoom),
];

fn tried(faults: Faults) -> StepResult {
    let calls = faults.many(Fault::Meets(Refusal::NoRoom), 512);
    let load = with(week(2), calls, good::call_of);
    add(load, service_of(faults), faulty_call(faults, 0, 1, 600))
}

fn told(rt: &impl Print, label: &str, load: Load, service: &[u8]) {
    then(
        rt,
        Step::CallOf,
        label,
        add(load, service, call_at(900, 0, 1, 600)),
    )
}

fn names(rt: &impl Print) {
    told(rt, "without a name", week(2), b"");
    told(rt, "with a name of 33 bytes", week(2), &[b'a'; 33]);
    told(rt, "with the id of a stop", week(2), b"C");
    told(rt, "on a load without dates", small(), b"unknown");
    then(
        rt,
        Step::Call,
        "on a load with dates",
        good::call(week(2), 900),
    )
}

fn weekly(weekdays: u8) -> ServiceInput {
    ServiceInput {
        weekdays,
        ..daily(FIRST, LAST)
    }
}

// A call on a date of a service with exceptions of these types on that date.
fn told_on(rt: &impl Print, label: &str, date: u32, runs: ServiceInput, exceptions: &[u8]) {
    let dates = [date, 20261119, 20261119];
    let mut load = on(dates).service(b"S", runs).load;
    for &kind in exceptions {
        load = load.exception(b"S", ExceptionInput { date, kind }).load;
    }
    told(rt, label, load, b"S")
}

fn weekdays(rt: &impl Print) {
    told_on(rt, "on Mondays, 1 January 1", FIRST, weekly(1), &[]);
    told_on(
        rt,
        "on other weekdays, 1 January 1",
        FIRST,
        weekly(126),
        &[],
    );
    told_on(
        rt,
        "on Tuesdays, 29 February 2000",
        20000229,
        weekly(2),
        &[],
    );
    told_on(rt, "on Fridays, 31 December 9999", LAST, weekly(16), &[]);
    told_on(
        rt,
        "on Sundays, 22 November 2026",
        20261122,
        weekly(64),
        &[],
    )
}

fn spans(rt: &impl Print) {
    let backwards = daily(20261117, 20261115);
    told_on(rt, "on its first date", MONDAY, daily(MONDAY, LAST), &[]);
    told_on(
        rt,
        "before its first date",
        MONDAY,
        daily(20261117, LAST),
        &[],
    );
    told_on(rt, "on its last date", MONDAY, daily(FIRST, MONDAY), &[]);
    told_on(
        rt,
        "after its last date",
        MONDAY,
        daily(FIRST, 20261115),
        &[],
    );
    told_on(rt, "with an end before the start", MONDAY, backwards, &[]);
    told_on(
        rt,
        "with an end before the start, added",
        MONDAY,
        backwards,
        &[1],
    )
}

fn excepted(rt: &impl Print) {
    told_on(rt, "added on no weekday", MONDAY, weekly(0), &[1]);
    told_on(rt, "removed", MONDAY, weekly(127), &[2]);
    told_on(rt, "added, then removed", MONDAY, weekly(127), &[1, 2]);
    told_on(rt, "removed, then added", MONDAY, weekly(127), &[2, 1])
}

pub fn run(rt: &impl Print) {
    pairs::each(rt, Step::CallOf, &FAULTS, tried);
    names(rt);
    weekdays(rt);
    spans(rt);
    excepted(rt)
}
