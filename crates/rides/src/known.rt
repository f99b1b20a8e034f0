// One first ride of a pass with at most one change, and what is known before the next: for the full search and for one within a limit.
ghost use Rattle.std.specs.Prelude.{◌≡◌, ◌++◌};
ghost use Rattle.rides.specs.Firsts.{leg_of};
ghost use Rattle.rides.specs.Loops.{direct_rows, change_rows};
ghost use Rattle.rides.specs.Offered.{Offered};
ghost use Rattle.rides.specs.Over.{Knows};
ghost use Rattle.rides.specs.Places.{sheet_in, joins_in, IsRide};
ghost use Rattle.rides.specs.Rows.{first_at};

use crate::call_list::{Calls, Ride};
use crate::change::first_before;
use crate::firsts::FirstLeg;
use crate::joined::{JoinedTimes, joined_none};
use crate::last::LastRides;
use crate::since::{Since, since_for, since_none};
use search_input::FirstRide;
use search_state::layout::State;

// The last first ride, from when on journeys that begin like it are passed over, and the numbers by where a first ride alights.
#[derive(Clone, Copy, Debug, PartialEq, Eq)]
pub struct Known {
    pub before: FirstRide,
    pub since: Since,
    pub joined: JoinedTimes,
}

// What stands before the first of the first rides: any ride, as nothing is known before one. What is known of a ride holds of the next, if
// they leave alike and walk alike.
pub(crate) fn any_ride(calls: &Calls) -> FirstRide {
    let none = Ride {
        board: 0,
        alight: 0,
    };
    calls.first_ride(none, 0)
}

// What is known before any first ride.
pub fn known_none(st: &State, last: &LastRides) -> Known
    ensures { Knows st.now last.now result }
{
    Known {
        before: any_ride(&last.lent.calls),
        since: since_none(st),
        joined: joined_none(last),
    }
}

// The journeys of one first ride alone, and then those with a change.
pub fn next_first(st: &mut State, known: &mut Known, last: &LastRides, l: FirstLeg)
    requires { IsRide last.now.lent.calls.feed.now last.now.lent.calls.n l.ride × Knows st.old last.now known.old }
    ensures rows { Offered st.old st.new (direct_rows (sheet_in last.now.lent) (first_at (sheet_in last.now.lent) (leg_of l))
        ++ change_rows (sheet_in last.now.lent) (joins_in last.now.lent) 1 last.now.lent.calls.n
        (first_at (sheet_in last.now.lent) (leg_of l))) }
    ensures known { Knows st.new last.now known.new }
{
    let f = last.lent.calls.first_ride(l.ride, l.origin);
    let since = since_for(st, f, known.before, known.since);
    known.since = first_before(st, &mut known.joined, last, f, since);
    known.before = f;
}
