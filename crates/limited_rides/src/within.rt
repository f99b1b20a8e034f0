// A search within a limit on joins: how many were tested, and whether none is left.
ghost use Rattle.std.specs.Prelude.{◌≡◌};
ghost use Rattle.rides.specs.Places.{sheet_in, joins_in};
ghost use Rattle.limited_rides.specs.Runs.{Met};
ghost use Rattle.limited_rides.specs.RowEvents.{row_events, events_at};
ghost use Rattle.limited_rides.specs.Within.{Within, told};

use crate::Tested;
use crate::counts::counts_of;
use crate::last::LastJoins;
use crate::paths::{change_paths, direct_paths};
use crate::tally::Tally;
use rides::bounds::bounds_of;
use rides::last::LastRides;
use rides::lent::Lent;
use search_input::layout::{Changes, Feed};
use search_state::layout::State;

// What a limit tells with so much of it left.
fn tested(limit: u64, left: Tally) -> Tested
    ensures { result ≡ told limit left }
{
    match left {
        Some(n) => Tested {
            joins: limit.saturating_sub(n),
            finished: true,
        },
        None => Tested {
            joins: limit,
            finished: false,
        },
    }
}

fn with_joins(st: &mut State, tally: &mut Tally, last: &LastRides)
    ensures { Met st.old tally.old st.new tally.new (row_events (sheet_in last.now.lent) (joins_in last.now.lent) 1 last.now.lent.calls.n) }
{
    let counts = counts_of(&last.lent.calls);
    let joins = LastJoins {
        last: *last,
        counts: &counts,
    };
    change_paths(st, tally, &joins);
}

// Joins are tested where journeys have one change; depth stands beside the arrays, since no loop reads it.
fn run(st: &mut State, tally: &mut Tally, lent: &Lent, depth: u16)
    ensures { Met st.old tally.old st.new tally.new (row_events (sheet_in lent.now) (joins_in lent.now) depth lent.now.calls.n) }
{
    if depth != 1 {
        direct_paths(st, tally, lent);
        return;
    }
    let bounds = bounds_of(&lent.calls);
    let last = LastRides {
        lent: *lent,
        bounds: &bounds,
    };
    with_joins(st, tally, &last);
}

// The state after the offers before the first join past the limit, of a search over the first n calls, and how many joins it tested.
pub fn paths_within(
    st: &mut State,
    feed: &Feed,
    changes: &Changes,
    n: usize,
    depth: u16,
    limit: u64,
) -> Tested
    ensures { Within st.old st.new limit (events_at feed.now changes.now n depth) result }
{
    let mut tally = Some(limit);
    run(st, &mut tally, &Lent::first(feed, changes, n), depth);
    tested(limit, tally)
}
