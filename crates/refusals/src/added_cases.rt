// Calls added to searched loads: the second of trip 900, which has left at 600.
use crate::fault::{Fault, Faults};
use crate::inputs::{call_at, faulty_call, service_of};
use crate::loads::{rides, searched, week, with};
use crate::step::Step;
use crate::{good, pairs};
use again::add;
use load::{Load, StepResult};
use refusal::Refusal;

const FAULTS: [Fault; 7] = [
    Fault::Meets(Refusal::FieldRange),
    Fault::Absent,
    Fault::Meets(Refusal::TimesReversed),
    Fault::Outside,
    Fault::Meets(Refusal::NoRoom),
    Fault::Meets(Refusal::Neighbours),
    Fault::Falls,
];

const FAULTS_OF: [Fault; 8] = [
    Fault::Meets(Refusal::FieldRange),
    Fault::Meets(Refusal::ServiceUnknown),
    Fault::Rests,
    Fault::Absent,
    Fault::Meets(Refusal::TimesReversed),
    Fault::Outside,
    Fault::Meets(Refusal::NoRoom),
    Fault::Meets(Refusal::Neighbours),
];

// The first call of the trip, and a second one that is there already where that is a fault.
fn boarded(load: Load, faults: Faults) -> Load {
    let load = good::call_of(load, 900).load;
    if faults.meet(Refusal::Neighbours) {
        add(load, b"A", call_at(900, 1, 1, 700)).load
    } else {
        load
    }
}

// How many good calls are added first.
fn filling(faults: Faults) -> u16 {
    faults.many(Fault::Meets(Refusal::NoRoom), 512)
}

fn added(load: Load, faults: Faults) -> StepResult {
    add(
        searched(load),
        service_of(faults),
        faulty_call(faults, 1, 2, 2000),
    )
}

// 64 journeys leave before it where its own is to be the 65th.
fn tried(faults: Faults) -> StepResult {
    let before = rides(faults.many(Fault::Falls, 128));
    added(
        with(boarded(before, faults), filling(faults), good::call),
        faults,
    )
}

fn tried_of(faults: Faults) -> StepResult {
    added(
        with(boarded(week(2), faults), filling(faults), good::call_of),
        faults,
    )
}

pub fn run(rt: &impl Print) {
    pairs::each(rt, Step::Added, &FAULTS, tried);
    pairs::each(rt, Step::AddedOf, &FAULTS_OF, tried_of)
}
