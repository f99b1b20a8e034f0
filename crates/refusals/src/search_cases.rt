// Searches, and those within a limit on joins: their faults, and searches told in words. Parameters as main.rt has them.
use crate::fault::{Fault, Faults};
use crate::loads::{rides, searched_if, with_two};
use crate::pairs;
use crate::shown::then;
use crate::step::Step;
use load::{Load, StepResult};
use refusal::Refusal;
use search::{search, search_within};

const FAULTS: [Fault; 3] = [
    Fault::Meets(Refusal::AlreadySearched),
    Fault::Meets(Refusal::Neighbours),
    Fault::Meets(Refusal::NoRoom),
];

const LIMITED_FAULTS: [Fault; 4] = [
    Fault::Meets(Refusal::AlreadySearched),
    Fault::Meets(Refusal::SettingsRange),
    Fault::Meets(Refusal::Neighbours),
    Fault::Meets(Refusal::NoRoom),
];

// 65 unbeaten journeys are one too many; neighbours that are refused are two calls of one sequence.
fn load_of(faults: Faults) -> Load {
    let load = rides(faults.many(Fault::Meets(Refusal::NoRoom), 130));
    let load = if faults.meet(Refusal::Neighbours) {
        with_two(load, 0, 600)
    } else {
        load
    };
    searched_if(faults.meet(Refusal::AlreadySearched), load)
}

fn tried(faults: Faults) -> StepResult {
    search(load_of(faults))
}

// Two changes are allowed where a limited search is to be sent back for them.
fn tried_limited(faults: Faults) -> StepResult {
    let mut load = load_of(faults);
    if faults.meet(Refusal::SettingsRange) {
        load.settings.max_transfers = 2;
    }
    search_within(load, 1000000).stepped()
}

fn told(rt: &impl Print, label: &str, load: Load) {
    then(rt, Step::Search, label, search(load))
}

pub fn run(rt: &impl Print) {
    pairs::each(rt, Step::Search, &FAULTS, tried);
    told(
        rt,
        "of a call arriving as the last departs",
        with_two(rides(0), 1, 600),
    );
    told(
        rt,
        "of a call arriving before the last departs",
        with_two(rides(0), 1, 599),
    );
    told(rt, "of 64 unbeaten journeys", rides(128));
    told(rt, "of no call", rides(0));
    pairs::each(rt, Step::Limited, &LIMITED_FAULTS, tried_limited)
}
