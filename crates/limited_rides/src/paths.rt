// The first rides within a limit on joins. What is over stays as it is, so the loops may end there.
ghost use Rattle.std.specs.Prelude.{◌≡◌};
ghost use Rattle.rides.specs.Places.{sheet_in, joins_in};
ghost use Rattle.limited_rides.specs.Runs.{Met};
ghost use Rattle.limited_rides.specs.RowEvents.{row_events};

use crate::last::LastJoins;
use crate::tally::{Tally, has_left, is_over, spend};
use rides::firsts::FirstRides;
use rides::known::{known_none, next_first};
use rides::lent::Lent;
use rides::paths::{direct_pass, directs};
use search_state::layout::State;

// The direct journeys alone, by the loop of the full search, as no join is among them.
pub fn direct_paths(st: &mut State, tally: &mut Tally, lent: &Lent)
    ensures { Met st.old tally.old st.new tally.new (row_events (sheet_in lent.now) (joins_in lent.now) 0 lent.now.calls.n) }
{
    if is_over(st, *tally) {
        return;
    }
    direct_pass(st, lent);
}

// Those and then the joins, by first ride. One with no more joins than are left is walked as by the full search; in one with more the search
// stops.
pub fn change_paths(st: &mut State, tally: &mut Tally, joins: &LastJoins)
    ensures { Met st.old tally.old st.new tally.new
        (row_events (sheet_in joins.now.last.lent) (joins_in joins.now.last.lent) 1 joins.now.last.lent.calls.n) }
{
    let calls = &joins.last.lent.calls;
    let n = joins.counts.all as u64;
    let mut known = known_none(st, &joins.last);
    for l in FirstRides::of(calls) {
        if is_over(st, *tally) {
            return;
        }
        if has_left(*tally, n) {
            next_first(st, &mut known, &joins.last, l);
            spend(tally, n);
        } else {
            let f = calls.first_ride(l.ride, l.origin);
            directs(st, calls, f);
            joins.change_rides(st, tally, f);
            return;
        }
    }
}
