// Why a stop is sent back: 15, 3, 5, 6, 7, 8, 4.
#![tactic(auto)]

ghost use Rattle.std.specs.Prelude.{◌≡◌, length, not, ◌&&◌, is_some, option_copied};
ghost use Rattle.refusal.specs.First.{first_answer};
ghost use Rattle.stops.specs.Answer.{station_of, is_known, id_wrong, type_wrong, name_needed, unusable, name_wrong, stop_tests};
ghost use Rattle.stops.specs.Sizes.{stop_room};

use prefix::first;
use refusal::{Accepted, Answer, Refusal};
use stops::find::{find, find_station};
use stops::{NAME_BYTES, NewStop, STOPS, Stop, StopInput};
use texts::ID_BYTES;

// The number of the station that is named as the parent, among the stops of a load.
#[tactic(auto, unfolding(stops::specs::Answer::station_of))]
pub fn parent_of(stops: &[Stop], parent: Option<&[u8]>) -> Option<u16>
    ensures { result ≡ station_of stops.now stop_room (option_copied parent.entry) }
{
    match find_station(first(stops, STOPS), parent?) {
        Some(place) => Some(place as u16),
        None => None,
    }
}

#[tactic(auto, unfolding(stops::specs::Answer::id_wrong))]
pub fn id_wrong(id: &[u8]) -> bool
    ensures { result ≡ id_wrong id.now }
{
    id.len() == 0 || ID_BYTES < id.len()
}

// `kind` is the number handed in.
#[tactic(auto, unfolding(stops::specs::Answer::type_wrong))]
fn type_wrong(kind: u8, has: bool) -> bool
    ensures { result ≡ type_wrong kind has }
{
    1 < kind || kind == 1 && has
}

fn parent_wrong(parent: Option<&[u8]>, station: Option<u16>) -> bool
    ensures { result ≡ (is_some (option_copied parent.entry) && not (is_some station)) }
{
    parent.is_some() && station.is_none()
}

#[tactic(auto, unfolding(stops::specs::Answer::name_needed))]
fn name_needed(parent: Option<&[u8]>, input: StopInput) -> bool
    ensures { result ≡ name_needed (option_copied parent.entry) input }
{
    input.location_type == 0 && parent.is_none() && place::usable(input.degrees)
}

fn is_unusable(text: &[u8]) -> bool
    ensures { result ≡ unusable text.now }
{
    key::name_key(text).is_err()
}

#[tactic(auto, unfolding(stops::specs::Answer::name_wrong))]
fn name_wrong(name: Option<&[u8]>, needed: bool, id: &[u8]) -> bool
    ensures { result ≡ name_wrong (option_copied name.entry) needed id.now }
{
    match name {
        Some(name) => NAME_BYTES < name.len() || needed && is_unusable(name),
        None => needed && is_unusable(id),
    }
}

#[tactic(auto, unfolding(stops::specs::Answer::is_known))]
fn known(stops: &[Stop], id: &[u8]) -> bool
    ensures { result ≡ is_known stops.now (length stops.now) id.now }
{
    find(stops, id).is_some()
}

// What a stop is answered, by the stops of the load, the parent found, and the search.
#[tactic(auto, unfolding(stops::specs::Answer::stop_tests, refusal::specs::First::first_answer))]
pub fn stop_answer(
    searched: bool,
    stops: &[Stop],
    station: Option<u16>,
    stop: NewStop<'_>,
) -> Answer
    ensures { result ≡ first_answer (stop_tests searched stops.now (length stops.now) station stop.entry.id.now
        (option_copied stop.entry.name) (option_copied stop.entry.parent) stop.entry.input) }
{
    if searched {
        return Err(Refusal::AlreadySearched);
    }
    if id_wrong(stop.id) {
        return Err(Refusal::IdLength);
    }
    if known(stops, stop.id) {
        return Err(Refusal::IdTaken);
    }
    if type_wrong(stop.input.location_type, stop.parent.is_some()) {
        return Err(Refusal::LocationType);
    }
    if parent_wrong(stop.parent, station) {
        return Err(Refusal::ParentUnknown);
    }
    if name_wrong(stop.name, name_needed(stop.parent, stop.input), stop.id) {
        return Err(Refusal::NameUnusable);
    }
    if STOPS <= stops.len() {
        return Err(Refusal::StopsFull);
    }
    Ok(Accepted::Taken)
}
