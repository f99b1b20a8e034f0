// The search step: the calls put in order, every offer made, and what is kept; and the same within a limit on joins.
#![tactic(auto)]

ghost use Rattle.std.specs.Prelude.{◌≡◌, ◌<◌, ℕ, get_or, take};
ghost use Rattle.search_state.specs.View.{view};
ghost use Rattle.places.specs.Places.{places_of};
ghost use Rattle.load.specs.Steps.{stepped};
ghost use Rattle.search.specs.Search.{search_spec};
ghost use Rattle.transfer.specs.Changes.{change_number};
ghost use Rattle.transfer_array.specs.Named.{HoldsChanges};
ghost use Rattle.search.specs.Timetable.{change_in};
ghost use Rattle.search.specs.Offered.{offered_of, found_in};
ghost use Rattle.search.specs.Within.{answered, step_of};

use call_order::{neighbours_clash, sorted};
use calls::{CALLS, Call};
use kept_journeys::journeys_of;
use limited_rides::Tested;
use load::{Load, StepResult};
use places::group::group_places;
use prefix::first;
use refusal::{Accepted, Answer, Refusal};
use rides::paths::endpoint_paths;
use search_input::layout::{CHANGES_SIZE, Changes, FEED_SIZE, Feed};
use search_input_array::fill_feed;
use search_state::layout::State;
use search_state::{count, fresh, horizon, is_refused, limits};
use stops::Stop;
use transfer::Transfers;
use transfer::copied::parents_of;
use transfer_array::fill_changes;

pub mod earliest;
mod within;

pub use within::{search_within, take_search_within};

// What a search within a limit on joins tested, or why it is sent back, beside the load that it returns, as of every step.
#[derive(Clone, Copy, Debug, PartialEq)]
pub struct Limited {
    pub tested: Result<Tested, Refusal>,
    pub load: Load,
}

impl Limited {
    // As any step: taken where it was not sent back.
    pub fn stepped(self) -> StepResult
        ensures { result ≡ step_of (answered self) }
    {
        StepResult {
            answer: self.tested.map(|_| Accepted::Taken),
            load: self.load,
        }
    }
}

// What is lent where no change is allowed: none is read of it.
pub(crate) static NO_CHANGES: Changes = [0; CHANGES_SIZE];

// The changes that a search of the load reads, from the stops that the feed names.
fn fill_changes_for(changes: &mut Changes, load: &Load, feed: &Feed)
    ensures { HoldsChanges changes.new feed.now load.now.call_count load.now.settings.max_transfers
        (λ p q. change_number (change_in load.now p q)) }
{
    let settings = load.settings;
    let parents = parents_of(&load.stops);
    let places = group_places(first(&load.stops, load.stop_count));
    let transfers = Transfers {
        rules: first(&load.rules, load.rule_count),
        parents: &parents,
        places: &places,
        change: settings.transfer_seconds,
    };
    fill_changes(
        changes,
        feed,
        load.call_count,
        settings.max_transfers as u16,
        &transfers,
    )
}

// The numbers of a feed fit in two bytes. Nothing is computed, and the copy goes: of an array that is lent a proof knows only what a call
// tells it.
fn numbers_told(feed: Feed)
    ensures { (i : ℕ) → get_or feed i 0 < 65536 }
{}

// The state of a search of the load over these calls, every offer made.
fn offered(load: &Load, calls: &[Call; CALLS]) -> State
    ensures { view result ≡ offered_of load.now calls.now }
{
    let settings = load.settings;
    let mut feed = [0; FEED_SIZE];
    fill_feed(&mut feed, calls, load.call_count, &load.stops, settings);
    numbers_told(feed);
    let mut st = fresh(load.table_horizon, load.table_limits);
    if settings.max_transfers == 0 {
        endpoint_paths(&mut st, &feed, &NO_CHANGES, load.call_count, 0);
        return st;
    }
    let mut changes = [0; CHANGES_SIZE];
    fill_changes_for(&mut changes, load, &feed);
    let depth = settings.max_transfers as u16;
    endpoint_paths(&mut st, &feed, &changes, load.call_count, depth);
    st
}

// A walk is a byte. Nothing is computed: of a load that is lent a proof knows only what a call tells it.
fn bytes_told(walks: [u8; 4])
    ensures { (o : ℕ) → get_or walks o 0 < 256 }
{}

// The load is given what a search over these calls left in the state; with the limit at which it was stopped, if it was.
fn keep(load: &mut Load, calls: &[Call; CALLS], st: &State, limit: Option<u64>)
    ensures { load.new ≡ found_in load.old calls.now st.now limit }
{
    load.calls = *calls;
    load.journeys = journeys_of(st, calls);
    load.journey_count = count(st);
    load.horizon = horizon(st);
    load.limits = limits(st);
    load.searched = true;
    load.limit = limit;
}

// The load searched, or why it is sent back: 15, 14, 11. By value it is the search in place, made on a copy.
pub fn search(load: Load) -> StepResult
    ensures { result ≡ search_spec load }
{
    let mut next = load;
    let answer = take_search(&mut next);
    StepResult { answer, load: next }
}

// The same in place.
pub fn take_search(load: &mut Load) -> Answer
    ensures { stepped result load.new ≡ search_spec load.old }
{
    if load.searched {
        return Err(Refusal::AlreadySearched);
    }
    let calls = sorted(&load.calls, load.call_count);
    if neighbours_clash(first(&calls, load.call_count)) {
        return Err(Refusal::Neighbours);
    }
    let st = offered(load, &calls);
    if is_refused(&st) {
        return Err(Refusal::NoRoom);
    }
    bytes_told(load.settings.origin_walks);
    keep(load, &calls, &st, None);
    Ok(Accepted::Taken)
}
