// Where what stands in the two arrays that a search is lent.
pub use calls::CALLS;
pub use stops::STOPS;

// The feed has every call first, six numbers each: trip, day, stop, arrival, departure and flags.
pub const CALL_WIDTH: usize = 6;

// Behind them the membership bytes of the stops, then the walks of the four origins and those of the four targets.
pub const MEMBERS: usize = CALLS * CALL_WIDTH;

pub const ORIGIN_WALKS: usize = MEMBERS + STOPS;

pub const TARGET_WALKS: usize = ORIGIN_WALKS + 4;

pub const FEED_SIZE: usize = TARGET_WALKS + 4;

// The changes have, for each pair of stops, the seconds of a change: those from a stop to every stop stand together.
pub const CHANGES_SIZE: usize = STOPS * STOPS;

// The seconds where there is no change, more than any departure allows.
pub const NO_CHANGE: u32 = 65536;

pub type Feed = [u16; FEED_SIZE];

pub type Changes = [u32; CHANGES_SIZE];
