// Calls withdrawn from loads, searched or not: their faults, and withdrawals told in words. Parameters as main.rt has them.
use crate::fault::{Fault, Faults};
use crate::inputs::call_at;
use crate::loads::{rides, searched};
use crate::pairs;
use crate::shown::then;
use crate::step::Step;
use again::{add, withdraw};
use calls::CallKey;
use load::{Load, StepResult};
use refusal::Refusal;

const FAULTS: [Fault; 2] = [
    Fault::Meets(Refusal::FieldRange),
    Fault::Meets(Refusal::CallUnknown),
];

const SEARCHED_FAULTS: [Fault; 3] = [
    Fault::Meets(Refusal::FieldRange),
    Fault::Meets(Refusal::CallUnknown),
    Fault::Falls,
];

fn with(load: Load, sequence: u32, stop: u16, time: u32) -> Load {
    add(load, b"", call_at(0, sequence, stop, time)).load
}

// A journey of trip 0, which beats those of so many halves.
fn hiding(halves: u16) -> Load {
    with(with(rides(halves), 0, 1, 600), 1, 2, 900)
}

fn key(trip: u16, day: u8, sequence: u32) -> CallKey {
    CallKey {
        trip,
        day,
        sequence,
    }
}

// The second call of trip 0.
fn withdrawn(load: Load, faults: Faults) -> StepResult {
    let trip = if faults.meet(Refusal::FieldRange) {
        65535
    } else {
        0
    };
    let sequence = if faults.meet(Refusal::CallUnknown) {
        5
    } else {
        1
    };
    withdraw(load, key(trip, 0, sequence))
}

fn tried(faults: Faults) -> StepResult {
    withdrawn(hiding(0), faults)
}

// 65 journeys are to show again where the list falls.
fn tried_searched(faults: Faults) -> StepResult {
    let load = hiding(faults.many(Fault::Falls, 130));
    withdrawn(searched(load), faults)
}

fn told(rt: &impl Print, label: &str, load: Load, key: CallKey) {
    then(rt, Step::Withdrawal, label, withdraw(load, key))
}

pub fn run(rt: &impl Print) {
    pairs::each(rt, Step::Withdrawal, &FAULTS, tried);
    pairs::each(rt, Step::Withdrawn, &SEARCHED_FAULTS, tried_searched);
    let load = hiding(0);
    let second = key(0, 0, 1);
    let doubled = with(load, 1, 1, 800);
    told(rt, "of the first call", load, key(0, 0, 0));
    told(rt, "of day 2", load, key(0, 2, 1));
    told(rt, "of day 3", load, key(0, 3, 1));
    told(rt, "of trip 65534", load, key(65534, 0, 1));
    told(rt, "of one withdrawn", withdraw(load, second).load, second);
    told(rt, "of one of two", doubled, second);
    told(
        rt,
        "of the other of two",
        withdraw(doubled, second).load,
        second,
    )
}
