// Changes over plain numbers and lent arrays, for programs in C and Rust to call.
#![tactic(auto)]

ghost use Rattle.std.specs.Prelude.{◌≡◌, ◌<◌, take};
ghost use Rattle.transfer.specs.Rows.{change_row};
ghost use Rattle.places.specs.Places.{places_of};
ghost use Rattle.transfer_c.specs.Flat.{rule_at, rules_of};
ghost use Rattle.transfer_c.specs.Plain.{stop_with, stops_with};
ghost use Rattle.rules.specs.Sizes.{rule_room};

use place::Degrees;
use places::group::group_places;
use prefix::first;
use rules::{RULES, Rule, blank_rule};
use std::array;
use stops::{NAME_BYTES, STOPS, Stop};
use texts::{ID_BYTES, Text};
use transfer::Transfers;

// Five numbers for each rule.
const NUMBERS: usize = RULES * 5;

// The rule at a place: from, to, type, seconds, and 1 if seconds were given, which no row depends on, as none count as 0. C lends 16 bits
// for a type, of which the low 8 are read; a cast that may lose bits is refused. The bound is that of the places in the array.
fn rule_at(flat: &[u16; NUMBERS], i: usize) -> Rule
    requires { i < rule_room }
    ensures { result ≡ rule_at flat.now i }
{
    let at = i * 5;
    Rule {
        from: flat[at],
        to: flat[at + 1],
        transfer_type: (flat[at + 2] % 256) as u8,
        seconds: Some(flat[at + 3]),
    }
}

// The first `count` of the rules that C lends, five numbers for each. Those behind them are not read, and blank here.
fn rules_of(flat: &[u16; NUMBERS], count: usize) -> [Rule; RULES]
    ensures { take count result ≡ take count (rules_of flat.now) }
{
    let mut rules = [blank_rule(); RULES];
    for i in 0..count.min(RULES) {
        rules[i] = rule_at(flat, i);
    }
    rules
}

// The changes from a stop to each of 128 (`change_row`). C lends plain arrays, and a count beside the rules.
#[unsafe(no_mangle)]
pub extern "C" fn changes_row(
    row: &mut [u32; STOPS],
    rules: &[u16; NUMBERS],
    count: usize,
    parents: &[u16; STOPS],
    places: &[u16; STOPS],
    from: u16,
    change: u16,
)
    ensures { row.new ≡ change_row (take count (rules_of rules.now)) parents.now places.now from change }
{
    let rules = rules_of(rules, count);
    let transfers = Transfers {
        rules: first(&rules, count),
        parents,
        places,
        change,
    };
    transfer_row::change_row(row, &transfers, from);
}

// A stop of plain numbers.
fn stop_with(id: u16, name: u8, latitude: f64, longitude: f64) -> Stop
    ensures { result ≡ stop_with id name latitude longitude }
{
    let [high, low] = id.to_be_bytes();
    let mut bytes = [0; ID_BYTES];
    bytes[ID_BYTES - 2] = high;
    bytes[ID_BYTES - 1] = low;
    let degrees = Degrees {
        latitude,
        longitude,
    };
    Stop {
        id: Text {
            bytes,
            len: ID_BYTES as u8,
        },
        name: Some(Text {
            bytes: [name; NAME_BYTES],
            len: NAME_BYTES as u8,
        }),
        parent: None,
        location_type: 0,
        degrees: Some(degrees),
        members: 0,
    }
}

// 128 of them, of the arrays that C lends.
fn stops_with(
    ids: &[u16; STOPS],
    names: &[u8; STOPS],
    latitudes: &[f64; STOPS],
    longitudes: &[f64; STOPS],
) -> [Stop; STOPS]
    ensures { result ≡ stops_with ids.now names.now latitudes.now longitudes.now }
{
    array::from_fn(|k| stop_with(ids[k], names[k], latitudes[k], longitudes[k]))
}

// The place of each of the first `count` of 128 stops (`group_places`), of plain arrays and a count as C lends them.
#[unsafe(no_mangle)]
pub extern "C" fn changes_places(
    places: &mut [u16; STOPS],
    ids: &[u16; STOPS],
    names: &[u8; STOPS],
    latitudes: &[f64; STOPS],
    longitudes: &[f64; STOPS],
    count: usize,
)
    ensures { places.new ≡ places_of (take count (stops_with ids.now names.now latitudes.now longitudes.now)) }
{
    let stops = stops_with(ids, names, latitudes, longitudes);
    *places = group_places(first(&stops, count));
}
