// A journey as C and Rust read it: plain numbers, its rides in order.
ghost use Rattle.std.specs.Prelude.{◌≡◌};
ghost use Rattle.timetable.specs.Journeys.{ride_row, ride_of, second_ride, third_ride, journey_row, middle_of, last_of, journey_of};

use profile::{Journey, Ride};

#[repr(C)]
#[derive(Clone, Copy, Debug, Default, PartialEq, Eq)]
pub struct TimetableRide {
    pub trip: u16,
    pub from: u16,
    pub to: u16,
    pub departure: u16,
    pub arrival: u16,
    pub day: u8,
    pub board_request: bool,
    pub alight_request: bool,
}

// The first `rides` of `ride` count.
#[repr(C)]
#[derive(Clone, Copy, Debug, Default, PartialEq, Eq)]
pub struct TimetableJourney {
    pub leave: u16,
    pub arrival: u16,
    pub rides: u8,
    pub walk: u8,
    pub origin: u8,
    pub target: u8,
    pub ride: [TimetableRide; 3],
}

#[tactic(auto, unfolding(crate::specs::Journeys::ride_row))]
fn ride_row(r: Ride) -> TimetableRide
    ensures { result ≡ ride_row r }
{
    TimetableRide {
        trip: r.trip,
        from: r.from,
        to: r.to,
        departure: r.departure,
        arrival: r.arrival,
        day: r.day,
        board_request: r.board_request,
        alight_request: r.alight_request,
    }
}

#[tactic(auto, unfolding(crate::specs::Journeys::ride_of))]
fn ride_of(r: TimetableRide) -> Ride
    ensures { result ≡ ride_of r }
{
    Ride {
        trip: r.trip,
        day: r.day,
        from: r.from,
        to: r.to,
        departure: r.departure,
        arrival: r.arrival,
        board_request: r.board_request,
        alight_request: r.alight_request,
    }
}

// The second of two rides is a journey's last, the second of three its middle one. The one that is left stands third.
#[tactic(auto, unfolding(crate::specs::Journeys::second_ride))]
fn second_ride(j: Journey) -> Ride
    ensures { result ≡ second_ride j }
{
    if j.rides == 2 { j.last } else { j.middle }
}

#[tactic(auto, unfolding(crate::specs::Journeys::third_ride))]
fn third_ride(j: Journey) -> Ride
    ensures { result ≡ third_ride j }
{
    if j.rides == 2 { j.middle } else { j.last }
}

pub fn journey_row(j: Journey) -> TimetableJourney
    ensures { result ≡ journey_row j }
{
    TimetableJourney {
        leave: j.leave,
        arrival: j.arrival,
        rides: j.rides,
        walk: j.walk,
        origin: j.origin,
        target: j.target,
        ride: [
            ride_row(j.first),
            ride_row(second_ride(j)),
            ride_row(third_ride(j)),
        ],
    }
}

// The middle ride of two stands third.
#[tactic(auto, unfolding(crate::specs::Journeys::middle_of))]
fn middle_of(r: &TimetableJourney) -> Ride
    ensures { result ≡ middle_of r.now }
{
    if r.rides == 2 {
        return ride_of(r.ride[2]);
    }
    ride_of(r.ride[1])
}

#[tactic(auto, unfolding(crate::specs::Journeys::last_of))]
fn last_of(r: &TimetableJourney) -> Ride
    ensures { result ≡ last_of r.now }
{
    if r.rides == 2 {
        return ride_of(r.ride[1]);
    }
    ride_of(r.ride[2])
}

// The journey that a row stands for.
pub fn journey_of(r: &TimetableJourney) -> Journey
    ensures { result ≡ journey_of r.now }
{
    Journey {
        leave: r.leave,
        arrival: r.arrival,
        rides: r.rides,
        walk: r.walk,
        origin: r.origin,
        target: r.target,
        first: ride_of(r.ride[0]),
        middle: middle_of(r),
        last: last_of(r),
    }
}
