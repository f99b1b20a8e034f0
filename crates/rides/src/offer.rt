// What is offered of a journey that begins with a ride, but for the calls of its other rides.
ghost use Rattle.std.specs.Prelude.{◌≡◌, ◌<◌};
ghost use Rattle.rides.specs.Rows.{offer_of};
ghost use Rattle.rides.specs.Sheets.{sheet_of};

use crate::call_list::Calls;
use candidate::Offer;
use search_input::{FirstRide, arrival_of};

// A journey of so many rides from the ride f to target x, whose last ride arrives at `arrival`.
#[tactic(auto, unfolding(crate::specs::Rows::offer_of, crate::specs::Sheets::sheet_of))]
pub fn offer(calls: &Calls, f: FirstRide, rides: u16, arrival: u16, x: u8) -> Offer
    requires { x < 4 }
    ensures { result ≡ offer_of (sheet_of calls.now.feed.now) f rides arrival x }
{
    Offer {
        leave: f.leave,
        arrival: arrival_of(calls.target_walk(x), arrival),
        rides,
        walk: f.walk,
        origin: f.origin,
        target: x as u16,
        board: f.board,
        alight: f.alight,
        board2: 0,
        alight2: 0,
        middle_board: 0,
        middle_alight: 0,
    }
}
