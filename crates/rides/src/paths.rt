// The whole search: a pass over the first rides for the journeys of one ride and two, and one for those of three.
ghost use Rattle.std.specs.Prelude.{◌≡◌, ◌≤◌, ◌<◌};
ghost use Rattle.search_state.specs.View.{view};
ghost use Rattle.rides.specs.Loops.{direct_at, direct_rows, pass_rows};
ghost use Rattle.rides.specs.Places.{sheet_in, joins_in};
ghost use Rattle.rides.specs.Sheets.{sheet_of};
ghost use Rattle.rides.specs.Routes.{rows_of};
ghost use Rattle.rides.specs.Offered.{offer_all, Offered};

use crate::bounds::bounds_of;
use crate::call_list::Calls;
use crate::change::directs_before;
use crate::firsts::FirstRides;
use crate::joined::BLOCKS;
use crate::known::{any_ride, known_none, next_first};
use crate::last::LastRides;
use crate::lent::Lent;
use crate::offer::offer;
use crate::onward::ThreeRides;
use crate::reach::onward_times;
use crate::since::{Passed, passed_for, passed_none};
use candidate::candidate;
use search_input::FirstRide;
use search_input::layout::{CALLS, Changes, Feed};
use search_state::is_refused;
use search_state::layout::State;

// Offers the ride alone, to target x.
pub(crate) fn direct_at(st: &mut State, calls: &Calls, f: FirstRide, x: u8)
    requires { x < 4 }
    ensures { Offered st.old st.new (direct_at (sheet_of calls.now.feed.now) f x) }
{
    candidate(st, offer(calls, f, 1, f.arrival, x));
}

// The targets of the stop where the ride ends.
pub fn directs(st: &mut State, calls: &Calls, f: FirstRide)
    ensures { Offered st.old st.new (direct_rows (sheet_of calls.now.feed.now) f) }
{
    for x in calls.targets(f.stop) {
        direct_at(st, calls, f, x);
    }
}

// The direct journeys. A refused search stays as it is, so the loop of a pass may end there.
pub fn direct_pass(st: &mut State, lent: &Lent)
    ensures { Offered st.old st.new (pass_rows (sheet_in lent.now) (joins_in lent.now) 0 lent.now.calls.n) }
{
    let calls = &lent.calls;
    let mut before = any_ride(calls);
    let mut passed = passed_none(st);
    for l in FirstRides::of(calls) {
        if is_refused(st) {
            return;
        }
        let f = calls.first_ride(l.ride, l.origin);
        let now = passed_for(st, f, before, passed);
        let from = directs_before(st, calls, f, now.from);
        passed = Passed { from, ..now };
        before = f;
    }
}

// Those and then those with a change, by first ride.
fn change_pass(st: &mut State, last: &LastRides)
    ensures { Offered st.old st.new (pass_rows (sheet_in last.now.lent) (joins_in last.now.lent) 1 last.now.lent.calls.n) }
{
    let mut known = known_none(st, last);
    for l in FirstRides::of(&last.lent.calls) {
        if is_refused(st) {
            return;
        }
        next_first(st, &mut known, last, l);
    }
}

// Those of three rides alone.
fn three_pass(st: &mut State, three: &ThreeRides)
    ensures { Offered st.old st.new (pass_rows (sheet_in three.now.lent) (joins_in three.now.lent) 2 three.now.lent.calls.n) }
{
    let calls = &three.lent.calls;
    let mut before = any_ride(calls);
    let mut passed = passed_none(st);
    for l in FirstRides::of(calls) {
        if is_refused(st) {
            return;
        }
        let f = calls.first_ride(l.ride, l.origin);
        let now = passed_for(st, f, before, passed);
        passed = three.three_rides(st, f, l.ride, now);
        before = f;
    }
}

// With at most one change.
fn up_to_one(st: &mut State, lent: &Lent, depth: u16)
    requires { depth ≤ 1 }
    ensures { Offered st.old st.new (pass_rows (sheet_in lent.now) (joins_in lent.now) depth lent.now.calls.n) }
{
    if depth == 0 {
        direct_pass(st, lent);
    } else {
        let bounds = bounds_of(&lent.calls);
        let last = LastRides {
            lent: *lent,
            bounds: &bounds,
        };
        change_pass(st, &last);
    }
}

fn with_two(st: &mut State, lent: &Lent)
    ensures { Offered st.old st.new (pass_rows (sheet_in lent.now) (joins_in lent.now) 2 lent.now.calls.n) }
{
    let mut by_last = [[65535u16; BLOCKS]; CALLS];
    let mut by_middle = [[65535u16; BLOCKS]; CALLS];
    let times = onward_times(lent, &mut by_last, &mut by_middle);
    let three = ThreeRides {
        lent: *lent,
        times: &times.on,
        boards: &times.boards,
        by_last: &by_last,
        by_middle: &by_middle,
    };
    three_pass(st, &three);
}

// The state after every offer of a search over the first n calls, in order: journeys with at most so many changes, those of three rides
// after all others.
pub fn endpoint_paths(st: &mut State, feed: &Feed, changes: &Changes, n: usize, depth: u16)
    ensures { view st.new ≡ offer_all (view st.old) (rows_of feed.now changes.now n depth) }
{
    let lent = Lent::first(feed, changes, n);
    up_to_one(st, &lent, depth.min(1));
    if 2 <= depth {
        with_two(st, &lent);
    }
}
