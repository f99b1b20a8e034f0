// Calls of no service: their faults, and calls told in words.
use crate::fault::{Fault, Faults};
use crate::inputs::{call_at, faulty_call};
use crate::loads::{small, with_calls};
use crate::pairs;
use crate::shown::{held, then};
use crate::step::Step;
use again::add;
use calls::CallInput;
use load::StepResult;
use refusal::Refusal;

const FAULTS: [Fault; 5] = [
    Fault::Meets(Refusal::FieldRange),
    Fault::Absent,
    Fault::Meets(Refusal::TimesReversed),
    Fault::Outside,
    Fault::Meets(Refusal::NoRoom),
];

fn tried(faults: Faults) -> StepResult {
    let load = with_calls(faults.many(Fault::Meets(Refusal::NoRoom), 512));
    add(load, b"", faulty_call(faults, 0, 1, 600))
}

// A good call of trip 900, but for what is changed.
fn told<F: FnOnce(&mut CallInput)>(rt: &impl Print, label: &str, change: F)
    requires { F.IsAlwaysCallable change }
{
    let mut call = call_at(900, 0, 1, 600);
    change(&mut call);
    then(rt, Step::Call, label, add(small(), b"", call))
}

// Of day 2, which starts at 0.
fn told_at(rt: &impl Print, label: &str, time: u32) {
    told(rt, label, |c| {
        c.day = 2;
        c.arrival = Some(time);
        c.departure = Some(time);
    })
}

pub fn run(rt: &impl Print) {
    pairs::each(rt, Step::Call, &FAULTS, tried);
    told(rt, "of stop 2", |c| c.stop = 2);
    told(rt, "of stop 3", |c| c.stop = 3);
    told(rt, "of trip 65534", |c| c.trip = 65534);
    told(rt, "of day 3", |c| c.day = 3);
    told(rt, "with pickup 4", |c| c.pickup = 4);
    told(rt, "with drop-off 4", |c| c.drop_off = 4);
    told(rt, "with pickup and drop-off 3", |c| {
        c.pickup = 3;
        c.drop_off = 3;
    });
    told(rt, "without an arrival", |c| c.arrival = None);
    told_at(rt, "a second before the start", 999);
    told_at(rt, "at the start", 1000);
    told_at(rt, "at the horizon", 22600);
    told_at(rt, "a second after the horizon", 22601);
    held(rt, Step::Call, with_calls(512).call_count)
}
