// What is asked of the rides: how many there are, and leg by leg.
ghost use Rattle.std.specs.Prelude.{◌≡◌};
ghost use Rattle.connection.specs.Tests.{first_of, asking};
ghost use Rattle.connection.specs.Legs.{ride_right, ride_tests, leg_tests, legs_tests};

use crate::tests::first_of;
use crate::{Cause, FoundLeg, Leg, Way};

#[tactic(auto, unfolding(crate::specs::Legs::ride_right))]
fn ride_right(n: u8) -> bool
    ensures { result ≡ ride_right n }
{
    1 <= n && n <= 3
}

pub fn rides_cause(n: u8) -> Option<Cause>
    ensures { result ≡ first_of (ride_tests n) }
{
    first_of(&[(!ride_right(n), Cause::RideCount(n))])
}

// Of a leg, if it is asked; the test stands here, so that `legs_cause` is one chain.
pub fn leg_cause(asked: bool, i: u8, leg: Leg, found: &FoundLeg) -> Option<Cause>
    ensures { result ≡ first_of (asking asked (leg_tests i leg found.now)) }
{
    if !asked {
        return None;
    }
    first_of(&[
        (found.board.is_none(), Cause::NoCall(i, leg.board)),
        (found.alight.is_none(), Cause::NoCall(i, leg.alight)),
        (!found.boards().board, Cause::BoardingBarred(i)),
        (!found.alights().alight, Cause::AlightingBarred(i)),
        (leg.alight <= leg.board, Cause::NotLater(i)),
    ])
}

// Of the first n legs, the first of them always.
pub fn legs_cause(n: u8, legs: [Leg; 3], way: &Way) -> Option<Cause>
    ensures { result ≡ first_of (legs_tests n legs way.now) }
{
    leg_cause(true, 0, legs[0], &way.first)
        .or(leg_cause(2 <= n, 1, legs[1], &way.second))
        .or(leg_cause(3 <= n, 2, legs[2], &way.third))
}
