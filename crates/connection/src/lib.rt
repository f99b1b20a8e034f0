// A connection that a person names: its origin and target, and one to three rides, each a trip on a day from one call to another; and why
// it can't be made: the first of a list of causes, in a fixed order. What is said of one that can be made stands in crate `verdict`.
#![tactic(auto)]

pub mod changes;
pub mod ends;
pub mod find;
pub mod legs;
pub mod tests;

use calls::Call;

// A ride as it is named: the sequences of the calls where it boards and alights.
#[derive(Clone, Copy, Debug, PartialEq, Eq)]
pub struct Leg {
    pub trip: u16,
    pub day: u8,
    pub board: u32,
    pub alight: u32,
}

// The first `rides` of the legs count: an array with its count, since the core has no heap.
#[derive(Clone, Copy, Debug, PartialEq, Eq)]
pub struct Connection {
    pub origin: u8,
    pub target: u8,
    pub rides: u8,
    pub legs: [Leg; 3],
}

// Why a connection can't be made. The number that comes first is that of the leg, or of the change, from 0.
#[derive(Clone, Copy, Debug, PartialEq, Eq)]
pub enum Cause {
    // No ride, or more than three: how many.
    RideCount(u8),
    // No call of the trip and day has the sequence.
    NoCall(u8, u32),
    BoardingBarred(u8),
    AlightingBarred(u8),
    // The call to alight at isn't a later one.
    NotLater(u8),
    // The first stop isn't of the origin, or there is no such origin; likewise the last stop and the target.
    NotOrigin,
    NotTarget,
    // The seconds of the walk, and the departure, which comes before.
    TooEarly(u32, u16),
    // How many changes may be made.
    TooManyChanges(u8),
    // A change to the trip and day that one comes by.
    SameRun(u8),
    // The number of the rule.
    Forbidden(u8, usize),
    // No rule, and neither one stop, one station nor one place.
    NoChange(u8),
    // The seconds that the change takes, when one arrives and when the next ride departs.
    TooShort(u8, u16, u16, u16),
}

// The calls that a leg names, where there are such.
#[derive(Clone, Copy, Debug, PartialEq, Eq)]
pub struct FoundLeg {
    pub board: Option<Call>,
    pub alight: Option<Call>,
}

// Those of three legs. No array, as it is read by how many rides there are: that may be any number, and the match on it would stay.
#[derive(Clone, Copy, Debug, PartialEq, Eq)]
pub struct Way {
    pub first: FoundLeg,
    pub second: FoundLeg,
    pub third: FoundLeg,
}
