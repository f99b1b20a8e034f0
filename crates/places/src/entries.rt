// The entry of each stop: id, number and place key.
ghost use Rattle.std.specs.Prelude.{◌≡◌, ◌<◌, ◌≤◌, length, take, option_copied};
ghost use Rattle.laws.specs.Tables.{table};
ghost use Rattle.stops.specs.Sound.{stop_at};
ghost use Rattle.stops.specs.Stops.{id_of};
ghost use Rattle.places.specs.Entries.{blank_entry, entry_at};
ghost use Rattle.places.specs.Keys.{parent_id, stop_key};
ghost use Rattle.stops.specs.Sizes.{stop_room};

use crate::Entry;
use place::{PlaceKey, no_place, place_key};
use stops::taken::blank_stop;
use stops::{STOPS, Stop};

// The id of the stop of a number; empty past the last.
#[tactic(auto, unfolding(stops::specs::Sound::stop_at, texts::specs::Texts::held))]
fn id_at(stops: &[Stop], number: u16) -> &[u8]
    ensures { result.now ≡ id_of (stop_at stops.now number) }
{
    stops.get(usize::from(number)).map_or(b"", |stop| stop.id())
}

// The id of a stop's parent.
fn parent_id(stops: &[Stop], parent: Option<u16>) -> Option<&[u8]>
    ensures { option_copied result ≡ parent_id stops.now parent }
{
    parent.map(|number| id_at(stops, number))
}

// The place key of a stop whose parent, if it has one, has this id.
fn stop_key(stop: &Stop, parent: Option<&[u8]>) -> PlaceKey
    ensures { result ≡ stop_key stop.now (option_copied parent.entry) }
{
    if stop.location_type != 0 {
        return no_place();
    }
    place_key(parent, stop.degrees, stop.name(), stop.id())
}

// What an unused slot holds: the default, by a name that contracts can give it.
pub fn blank_entry() -> Entry
    ensures { result ≡ blank_entry }
{
    Entry::default()
}

// The entry of the stop with the number i; past the last that of a blank stop. That i is small is asked for the cast.
fn entry_at(stops: &[Stop], i: usize) -> Entry
    requires { i < stop_room }
    ensures { result ≡ entry_at stops.now i }
{
    let blank = blank_stop();
    let stop = stops.get(i).unwrap_or(&blank);
    Entry {
        id: stop.id,
        stop: i as u16,
        key: stop_key(stop, parent_id(stops, stop.parent)),
    }
}

// The entries of the stops, of which there are at most 128; behind them nothing is read.
pub fn entries_of(stops: &[Stop]) -> [Entry; STOPS]
    requires { length stops.now ≤ stop_room }
    ensures { take (length stops.now) result ≡ table (length stops.now) (entry_at stops.now) }
{
    let mut entries = [blank_entry(); STOPS];
    for i in 0..stops.len() {
        entries[i] = entry_at(stops, i);
    }
    entries
}
