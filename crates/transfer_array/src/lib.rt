// The changes between the stops that calls name, in rows of 128 numbers one after the other. A row is filled up to the last stop that a call
// names: a small paper has a dozen.
#![tactic(auto)]

ghost use Rattle.std.specs.Prelude.{◌≡◌, true, false, ℕ, ◌+◌, ◌*◌, ◌<◌, ◌≤◌, get_or, set};
ghost use Rattle.transfer.specs.Lent.{entry_in};
ghost use Rattle.laws.specs.Regions.{Region};
ghost use Rattle.transfer_array.specs.Named.{Marks, Reaches, Marked, HoldsChanges};
ghost use Rattle.stops.specs.Sizes.{stop_room};

use search_input::at_most_calls;
use search_input::layout::{CALL_WIDTH, Changes, Feed, STOPS};
use transfer::Transfers;
use transfer_row::change_row;

// The changes from one stop are put in, as far as the marks reach. The bounds are asked for: a type that holds them would be taken apart
// at each use.
fn put_row(changes: &mut Changes, reach: usize, transfers: &Transfers, from: u16)
    requires from { from < stop_room }
    requires reach { reach ≤ stop_room }
    ensures { Region (entry_in transfers.now from) (from * stop_room) reach changes.old changes.new }
{
    let at = usize::from(from) * STOPS;
    change_row(&mut changes[at..at + reach], transfers, from);
}

// The same for a stop that is marked, the bounds as there; for any other nothing is done.
fn put_marked(changes: &mut Changes, mark: bool, reach: usize, transfers: &Transfers, from: u16)
    requires from { from < stop_room }
    requires reach { reach ≤ stop_room }
    ensures { Marked mark (entry_in transfers.now from) (from * stop_room) reach changes.old changes.new }
{
    if mark {
        put_row(changes, reach, transfers, from);
    }
}

// A stop is marked; a number past the 128 stops marks none.
fn mark_stop(marks: &mut [bool; STOPS], stop: u16)
    ensures { marks.new ≡ set marks.old stop true }
{
    let k = usize::from(stop);
    if k < STOPS {
        marks[k] = true;
    }
}

// The stops that the first `calls` calls of the feed name are marked.
fn named_stops(feed: &Feed, calls: usize) -> [bool; STOPS]
    ensures { Marks result feed.now calls }
{
    let mut marks = [false; STOPS];
    for i in 0..at_most_calls(calls) {
        mark_stop(&mut marks, feed[i * CALL_WIDTH + 2]);
    }
    marks
}

// One past the last marked stop. That it is at most 128 is told for the rows.
fn reach_of(marks: &[bool; STOPS]) -> usize
    ensures { Reaches marks.now result × (result ≤ stop_room) }
{
    let mut reach = 0;
    for (k, &marked) in marks.iter().enumerate() {
        if marked {
            reach = k + 1;
        }
    }
    reach
}

// The rows of the marked stops, as far as the marks reach. By number, and not over the array's chunks: once a loop over
// `chunks_exact_mut` or `as_chunks_mut` ends, a proof knows the array's length and none of its elements (tried).
fn marked_rows(changes: &mut Changes, marks: &[bool; STOPS], transfers: &Transfers)
    ensures { (from to : ℕ) → get_or marks.now from false ≡ true → get_or marks.now to false ≡ true
        → get_or changes.new (from * stop_room + to) 0 ≡ entry_in transfers.now from to }
{
    let reach = reach_of(marks);
    for from in 0..reach as u16 {
        put_marked(changes, marks[from as usize], reach, transfers, from);
    }
}

// Puts in the seconds of a change at from * 128 + to, 65536 where there is none, from and to each stop that one of the first `calls` calls
// of the feed names; with depth 0 there are no changes to read. The array is lent: by value it would be blanked and copied where it goes.
pub fn fill_changes(
    changes: &mut Changes,
    feed: &Feed,
    calls: usize,
    depth: u16,
    transfers: &Transfers,
)
    ensures { HoldsChanges changes.new feed.now calls depth (entry_in transfers.now) }
{
    if 1 <= depth {
        let marks = named_stops(feed, calls);
        marked_rows(changes, &marks, transfers);
    }
}
