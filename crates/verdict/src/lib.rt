// What a load says of a connection that a person names: that there is no verdict, why it can't be made, or which journey of the list is it,
// or is as good or better.
#![tactic(auto)]

pub mod causes;
pub mod figures;

ghost use Rattle.std.specs.Prelude.{◌≡◌};
ghost use Rattle.best.specs.Best.{kept_of};
ghost use Rattle.listing.specs.Listed.{judged_in};
ghost use Rattle.verdict.specs.Verdicts.{is_finished, journey_on, verdict_of};

use causes::cause_of;
use connection::ends::walk_at;
use connection::find::way_of;
use connection::{Connection, Way};
use figures::{last_leg, last_ride, middle_ride, ride_of};
use listing::{Verdict, listed};
use load::Load;
use prefix::first;
use profile::Journey;
use search_input::{arrival_of, leave_of};

// By the list, of a connection that can be made.
fn by_list(load: &Load, connection: &Connection, way: &Way) -> Verdict
    ensures { result ≡ judged_in (kept_of load.now) load.now.horizon (journey_on load.now.settings connection.now way.now) }
{
    let n = connection.rides;
    let walk = walk_at(&load.settings.origin_walks, connection.origin);
    let egress = walk_at(&load.settings.target_walks, connection.target);
    let departure = way.first.boards().departure;
    let alighting = last_leg(n, way).alights().arrival;
    let due = arrival_of(u16::from(egress), alighting);
    if u32::from(load.horizon) < due {
        return Verdict::Late;
    }
    let journey = Journey {
        leave: leave_of(u16::from(walk), departure),
        arrival: due as u16,
        rides: n,
        walk,
        origin: connection.origin,
        target: connection.target,
        first: ride_of(&way.first),
        middle: middle_ride(n, way),
        last: last_ride(n, way),
    };
    listed(first(&load.journeys, load.journey_count), journey)
}

// A search that was stopped is not finished.
#[tactic(auto, unfolding(crate::specs::Verdicts::finished_by))]
fn is_finished(load: &Load) -> bool
    ensures { result ≡ is_finished load.now }
{
    load.searched && load.limit.is_none()
}

// The verdict on a connection.
pub fn verdict(load: &Load, connection: &Connection) -> Verdict
    ensures { result ≡ verdict_of load.now connection.now }
{
    if !is_finished(load) {
        return Verdict::NotFinished;
    }
    let way = way_of(first(&load.calls, load.call_count), connection.legs);
    match cause_of(load, connection, &way) {
        Some(cause) => Verdict::Impossible(cause),
        None => by_list(load, connection, &way),
    }
}
