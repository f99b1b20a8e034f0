// Stops: their faults, and stops told in words. Parameters as main.rt has them.
use crate::fault::{Fault, Faults};
use crate::inputs::{PLAIN, name_of};
use crate::loads::{searched_if, small, with_stops};
use crate::pairs;
use crate::shown::{held, then};
use crate::step::Step;
use load::StepResult;
use place::Degrees;
use refusal::Refusal;
use stops::{NewStop, StopInput};

const FAULTS: [Fault; 7] = [
    Fault::Meets(Refusal::AlreadySearched),
    Fault::Meets(Refusal::IdLength),
    Fault::Meets(Refusal::IdTaken),
    Fault::Meets(Refusal::LocationType),
    Fault::Meets(Refusal::ParentUnknown),
    Fault::Meets(Refusal::NameUnusable),
    Fault::Meets(Refusal::StopsFull),
];

// The parent of a stop, if it has one, is unknown.
fn tried(faults: Faults) -> StepResult {
    let load = with_stops(faults.many(Fault::Meets(Refusal::StopsFull), 128));
    let name: &[u8] = if faults.meet(Refusal::NameUnusable) {
        &[b'a'; 65]
    } else {
        b"name"
    };
    let parent: Option<&[u8]> = if faults.meet(Refusal::ParentUnknown) {
        Some(b"unknown")
    } else {
        None
    };
    let input = StopInput {
        location_type: if faults.meet(Refusal::LocationType) {
            2
        } else {
            0
        },
        ..PLAIN
    };
    let load = searched_if(faults.meet(Refusal::AlreadySearched), load);
    load.stop(NewStop {
        id: name_of(faults, b"B"),
        name: Some(name),
        parent,
        input,
    })
}

fn with_id(id: &[u8]) -> NewStop<'_> {
    NewStop {
        id,
        name: None,
        parent: None,
        input: PLAIN,
    }
}

fn with_name(name: &[u8]) -> NewStop<'_> {
    NewStop {
        id: b"new",
        name: Some(name),
        parent: None,
        input: PLAIN,
    }
}

// The type is a byte, as any may be handed in, also one that no stop has.
fn with_parent(parent: &[u8], location_type: u8) -> NewStop<'_> {
    NewStop {
        id: b"new",
        name: None,
        parent: Some(parent),
        input: StopInput {
            location_type,
            ..PLAIN
        },
    }
}

// The stop at a latitude.
fn at(stop: NewStop<'_>, latitude: f64) -> NewStop<'_> {
    let degrees = Some(Degrees {
        latitude,
        longitude: 0.0,
    });
    let input = StopInput {
        degrees,
        ..stop.input
    };
    NewStop { input, ..stop }
}

fn told(rt: &impl Print, label: &str, stop: NewStop<'_>) {
    let stepped = small().stop(stop);
    then(rt, Step::Stop, label, stepped)
}

fn texts(rt: &impl Print) {
    told(rt, "id of 32 bytes", with_id(&[b'a'; 32]));
    told(rt, "id of 33 bytes", with_id(&[b'a'; 33]));
    told(rt, "station with a parent", with_parent(b"A", 1));
    told(rt, "stop with a parent", with_parent(b"A", 0));
    told(rt, "parent that is no station", with_parent(b"B", 0));
    told(rt, "name of 64 bytes", at(with_name(&[b'a'; 64]), 52.5))
}

// A name is needed at a position that can be used.
fn needed(rt: &impl Print, label: &str, name: &[u8]) {
    told(rt, label, at(with_name(name), 52.5))
}

fn names(rt: &impl Print) {
    needed(rt, "needed name of 65 bytes", &[b'a'; 65]);
    needed(rt, "needed name without a word", b" \t ");
    needed(rt, "needed name with a control", b"a\x1f");
    told(
        rt,
        "name without a word, latitude 91",
        at(with_name(b" \t "), 91.0),
    );
    needed(rt, "needed name with an accent", b"B\xc3\xa9con");
    needed(rt, "needed name with control 128", b"a\xc2\x80");
    needed(rt, "needed name of 133 and 160", b"\xc2\x85\xc2\xa0");
    needed(rt, "needed name, ill-formed", b"a\x80");
    needed(rt, "needed name, overlong", b"\xc1\x81");
    needed(rt, "needed name cut short", b"a\xc3");
    needed(rt, "needed name with code point 256", b"\xc4\x80");
    told(
        rt,
        "ill-formed name, latitude 91",
        at(with_name(b"a\x80"), 91.0),
    );
    told(
        rt,
        "needed id with an accent",
        at(with_id(b"\xc3\xa9"), 52.5),
    );
    told(rt, "needed id, ill-formed", at(with_id(b"\x80"), 52.5))
}

pub fn run(rt: &impl Print) {
    pairs::each(rt, Step::Stop, &FAULTS, tried);
    texts(rt);
    names(rt);
    held(rt, Step::Stop, with_stops(128).stop_count)
}
