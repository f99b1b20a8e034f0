// The scope's changes, of every kind, and its marked joins. Station 0 has the platforms 1 and 2, station 3 the
// platform 4; 5 and 6 are of one place, 7 of none of theirs. The change time is 180 seconds.
use crate::show::yes;
use rules::Rule;
use stops::{NO_STOP, STOPS};
use transfer::Transfers;
use transfer::pair::join;

fn parents() -> [u16; STOPS] {
    let mut parents = [NO_STOP; STOPS];
    parents[1] = 0;
    parents[2] = 0;
    parents[4] = 3;
    parents
}

fn places() -> [u16; STOPS] {
    let mut places = [NO_STOP; STOPS];
    places[1] = 0;
    places[2] = 0;
    places[4] = 1;
    places[5] = 2;
    places[6] = 2;
    places[7] = 3;
    places
}

// The type is a byte, as in a rule.
fn rule(from: u16, to: u16, transfer_type: u8, seconds: u16) -> Rule {
    Rule {
        from,
        to,
        transfer_type,
        seconds: Some(seconds),
    }
}

// In the order taken.
fn taken() -> [Rule; 10] {
    [
        rule(1, 4, 2, 300),
        rule(2, 3, 2, 200),
        rule(0, 4, 2, 240),
        rule(0, 3, 3, 0),
        rule(5, 6, 3, 0),
        rule(7, 5, 0, 600),
        rule(7, 6, 1, 600),
        rule(6, 7, 2, 60),
        rule(3, 1, 2, 65535),
        rule(3, 0, 2, 400),
    ]
}

fn between(from: u16, to: u16) -> Option<u16> {
    let transfers = Transfers {
        rules: &taken(),
        parents: &parents(),
        places: &places(),
        change: 180,
    };
    transfers.between(from, to)
}

fn change(rt: &impl Print, label: &str, from: u16, to: u16) {
    let _ = match between(from, to) {
        Some(seconds) => println!(rt; "transfer \"{label}\" {seconds}"),
        None => println!(rt; "transfer \"{label}\" none"),
    };
}

// Whether a ride that arrives at 1000 joins one from stop 7.
fn joined(rt: &impl Print, label: &str, from: u16, one_run: bool, departure: u16) {
    let joins = join(between(from, 7), one_run, 1000, departure);
    let _ = println!(rt; "join \"{label}\" {}", yes(joins));
}

fn by_rule(rt: &impl Print) {
    change(rt, "both sides exact", 1, 4);
    change(rt, "two half-exact rules", 2, 4);
    change(rt, "one side exact before neither", 4, 1);
    change(rt, "neither side exact", 4, 2);
    change(rt, "type 3 between two stations", 0, 3);
    change(rt, "type 3 between two of one place", 5, 6);
    change(rt, "type 0 with 600 seconds", 7, 5);
    change(rt, "type 1 with 600 seconds", 7, 6);
    change(rt, "type 2 with 60 seconds", 6, 7)
}

fn by_nearness(rt: &impl Print) {
    change(rt, "one stop", 7, 7);
    change(rt, "one parent", 1, 2);
    change(rt, "one place", 6, 5);
    change(rt, "neither", 7, 1);
    change(rt, "a platform and its station", 1, 0)
}

pub fn run(rt: &impl Print) {
    by_rule(rt);
    by_nearness(rt);
    joined(
        rt,
        "same stop, arrival 1000 and departure 1180",
        7,
        false,
        1180,
    );
    joined(
        rt,
        "same stop, arrival 1000 and departure 1179",
        7,
        false,
        1179,
    );
    joined(rt, "one trip and day", 7, true, 1180);
    joined(rt, "no change", 1, false, 1180)
}
