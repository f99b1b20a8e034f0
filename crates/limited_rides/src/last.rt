// The joins of the first ride in which the search stops. Those that board at one place are counted at once while no more than are left; of
// the first that are more, each join is counted, and its offers are made until the search is over.
ghost use Rattle.std.specs.Prelude.{◌≡◌, ◌+◌, ◌<◌};
ghost use Rattle.search_input.specs.Feed.{call_at};
ghost use Rattle.rides.specs.Places.{sheet_in, joins_in};
ghost use Rattle.limited_rides.specs.Runs.{Met};
ghost use Rattle.limited_rides.specs.RowEvents.{run_events, ride_events, board_events, change_events};
ghost use Rattle.limited_rides.specs.Counts.{Counts};

use crate::counts::RideCounts;
use crate::tally::{Tally, has_left, is_over, spend};
use candidate::times::threshold;
use rides::call_list::Ride;
use rides::change::board_before;
use rides::last::{LastRides, last_targets};
use rides::later::Later;
use rides::lent::Lent;
use search_input::FirstRide;
use search_state::layout::State;

// The join with the ride r, and its offers if the first ride joins it, unless the search is over.
fn last_alight(st: &mut State, tally: &mut Tally, lent: &Lent, f: FirstRide, r: Ride)
    ensures { Met st.old tally.old st.new tally.new (ride_events (sheet_in lent.now) (joins_in lent.now) f r.board r.alight) }
{
    let a = lent.calls.at(r.alight);
    if a.alight {
        spend(tally, 1);
        if is_over(st, *tally) {
            return;
        }
        if lent.joins(f, r.board) {
            last_targets(st, &lent.calls, f, r, lent.calls.targets(a.stop));
        }
    }
}

// The later calls of the trip and day of the call at j.
fn last_alightings(st: &mut State, tally: &mut Tally, lent: &Lent, f: FirstRide, j: usize)
    requires { j < lent.now.calls.n }
    ensures { Met st.old tally.old st.new tally.new
        (run_events (ride_events (sheet_in lent.now) (joins_in lent.now) f j) (call_at lent.now.calls.feed.now) lent.now.calls.n j (j + 1)) }
{
    for m in Later::than(&lent.calls, j) {
        let r = Ride {
            board: j,
            alight: m,
        };
        last_alight(st, tally, lent, f, r);
    }
}

// Those that board at j, if one can board there.
fn last_board(st: &mut State, tally: &mut Tally, lent: &Lent, f: FirstRide, j: usize)
    requires { j < lent.now.calls.n }
    ensures { Met st.old tally.old st.new tally.new (board_events (sheet_in lent.now) (joins_in lent.now) lent.now.calls.n f j) }
{
    if lent.calls.at(j).board {
        last_alightings(st, tally, lent, f, j);
    }
}

// The last rides, and how many there are.
#[derive(Clone, Copy, Debug, PartialEq, Eq)]
pub struct LastJoins<'a> {
    pub last: LastRides<'a>,
    pub counts: &'a RideCounts,
    ghost counted: { Counts counts.now last.lent.calls.feed.now last.lent.calls.n },
}

impl<'a> LastJoins<'a> {
    // The joins with every last ride, up to where the search stops.
    pub fn change_rides(&self, st: &mut State, tally: &mut Tally, f: FirstRide)
        ensures { Met st.old tally.old st.new tally.new
            (change_events (sheet_in self.now.last.lent) (joins_in self.now.last.lent) 1 self.now.last.lent.calls.n f) }
    {
        let mut over = threshold(st, f.leave, 2, f.walk);
        for j in 0..self.last.lent.calls.n {
            let n = self.counts.board[j] as u64;
            if has_left(*tally, n) {
                over = board_before(st, &self.last, f, j, over);
                spend(tally, n);
            } else {
                last_board(st, tally, &self.last.lent, f, j);
                return;
            }
        }
    }
}
