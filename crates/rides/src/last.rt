// Last rides: what is offered of one, and the arrays that are read of them.
ghost use Rattle.std.specs.Prelude.{◌≡◌, ◌<◌, get_or};
ghost use Rattle.rides.specs.Loops.{over_bits, last_at};
ghost use Rattle.rides.specs.Sheets.{sheet_of};
ghost use Rattle.rides.specs.Bounds.{Bounds, Bounds-prop};
ghost use Rattle.rides.specs.Offered.{Offered};

use crate::bits::Digits;
use crate::call_list::{Calls, Ride};
use crate::lent::Lent;
use crate::offer::offer;
use candidate::{Offer, candidate};
use search_input::FirstRide;
use search_state::layout::State;

// Offers the first ride and then the ride r, to target x.
pub(crate) fn last_at(st: &mut State, calls: &Calls, f: FirstRide, r: Ride, x: u8)
    requires { x < 4 }
    ensures { Offered st.old st.new (last_at (sheet_of calls.now.feed.now) f r.board r.alight x) }
{
    let first = offer(calls, f, 2, calls.at(r.alight).arrival, x);
    candidate(
        st,
        Offer {
            board2: r.board as u16,
            alight2: r.alight as u16,
            ..first
        },
    );
}

// These targets.
pub fn last_targets(st: &mut State, calls: &Calls, f: FirstRide, r: Ride, targets: Digits)
    ensures { Offered st.old st.new (over_bits (last_at (sheet_of calls.now.feed.now) f r.board r.alight) targets.left) }
{
    for x in targets {
        last_at(st, calls, f, r, x);
    }
}

// The last rides, and how early one of them can bring one to a target.
#[derive(Clone, Copy, Debug, PartialEq, Eq)]
pub struct LastRides<'a> {
    pub lent: Lent<'a>,
    pub bounds: &'a [u16; 1024],
    ghost bounded: { Bounds bounds.now lent.calls.feed.now lent.calls.n } by { Bounds-prop bounds.now lent.calls.feed.now lent.calls.n },
}

impl<'a> LastRides<'a> {
    // A time before which no last ride is at a target: of those that board at a place, or of those of a bucket.
    pub(crate) fn bound(&self, at: usize) -> u16
        requires { at < 1024 }
        ensures { result ≡ get_or self.now.bounds.now at 0 }
    {
        self.bounds[at]
    }
}
