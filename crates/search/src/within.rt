// The search within a limit on joins: as the search step, with the offers before the first join past the limit.
ghost use Rattle.std.specs.Prelude.{◌≡◌, min};
ghost use Rattle.limited_rides.specs.Within.{Within};
ghost use Rattle.search.specs.Timetable.{timetable_of};
ghost use Rattle.search.specs.Events.{place_events};
ghost use Rattle.search.specs.Offered.{placed};
ghost use Rattle.search.specs.Within.{answered, answered_by, within_spec};
ghost use Rattle.calls.specs.Sizes.{call_room};

use crate::{Limited, NO_CHANGES, bytes_told, fill_changes_for, keep, numbers_told};
use call_order::{neighbours_clash, sorted};
use calls::{CALLS, Call};
use limited_rides::Tested;
use limited_rides::within::paths_within;
use load::Load;
use prefix::first;
use refusal::Refusal;
use search_input::layout::{CHANGES_SIZE, FEED_SIZE};
use search_input_array::fill_feed;
use search_state::layout::State;
use search_state::{fresh, is_refused};

// The offers before the first join past the limit, made to a state; how many joins were tested, and whether none is left.
fn offered_within(load: &Load, calls: &[Call; CALLS], limit: u64, st: &mut State) -> Tested
    ensures { Within st.old st.new limit
        (place_events (timetable_of load.now) (placed calls.now) (min load.now.call_count call_room)) result }
{
    let settings = load.settings;
    let mut feed = [0; FEED_SIZE];
    fill_feed(&mut feed, calls, load.call_count, &load.stops, settings);
    numbers_told(feed);
    if settings.max_transfers == 0 {
        return paths_within(st, &feed, &NO_CHANGES, load.call_count, 0, limit);
    }
    let mut changes = [0; CHANGES_SIZE];
    fill_changes_for(&mut changes, load, &feed);
    let depth = settings.max_transfers as u16;
    paths_within(st, &feed, &changes, load.call_count, depth, limit)
}

// The load searched within a limit on joins, or why it is sent back: 15, 1, 14, 11. A stopped search holds its limit. By value it is the
// search in place, made on a copy.
pub fn search_within(load: Load, limit: u64) -> Limited
    ensures { answered result ≡ within_spec load limit }
{
    let mut next = load;
    let tested = take_search_within(&mut next, limit);
    Limited { tested, load: next }
}

// The same in place.
pub fn take_search_within(load: &mut Load, limit: u64) -> Result<Tested, Refusal>
    ensures { answered_by load.new result ≡ within_spec load.old limit }
{
    if load.searched {
        return Err(Refusal::AlreadySearched);
    }
    let settings = load.settings;
    if 1 < settings.max_transfers {
        return Err(Refusal::SettingsRange);
    }
    let calls = sorted(&load.calls, load.call_count);
    if neighbours_clash(first(&calls, load.call_count)) {
        return Err(Refusal::Neighbours);
    }
    let mut st = fresh(load.table_horizon, load.table_limits);
    let tested = offered_within(load, &calls, limit, &mut st);
    if is_refused(&st) {
        return Err(Refusal::NoRoom);
    }
    bytes_told(settings.origin_walks);
    keep(load, &calls, &st, (!tested.finished).then_some(limit));
    Ok(tested)
}
