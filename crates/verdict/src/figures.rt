// The rides of a connection, of the calls that were found.
ghost use Rattle.std.specs.Prelude.{◌≡◌};
ghost use Rattle.verdict.specs.Verdicts.{ride_found, last_leg, middle_ride, last_ride};

use connection::{FoundLeg, Way};
use profile::{Ride, no_ride};

#[tactic(auto, unfolding(crate::specs::Verdicts::ride_found))]
pub fn ride_of(found: &FoundLeg) -> Ride
    ensures { result ≡ ride_found found.now }
{
    kept_journeys::ride_of(&found.boards(), &found.alights())
}

#[tactic(auto, unfolding(crate::specs::Verdicts::last_leg))]
pub fn last_leg(n: u8, way: &Way) -> FoundLeg
    ensures { result ≡ last_leg n way.now }
{
    match n {
        1 => way.first,
        2 => way.second,
        _ => way.third,
    }
}

// Which rides there are, by their number, `kept_journeys` asks of a row, and here of calls: each makes its rides otherwise.
#[tactic(auto, unfolding(crate::specs::Verdicts::middle_ride))]
pub fn middle_ride(n: u8, way: &Way) -> Ride
    ensures { result ≡ middle_ride n way.now }
{
    if n == 3 {
        return ride_of(&way.second);
    }
    no_ride()
}

#[tactic(auto, unfolding(crate::specs::Verdicts::last_ride))]
pub fn last_ride(n: u8, way: &Way) -> Ride
    ensures { result ≡ last_ride n way.now }
{
    if n == 1 {
        return no_ride();
    }
    ride_of(&last_leg(n, way))
}
