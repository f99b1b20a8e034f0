// What a search keeps: the records of a journey, its four figures, and the theory of the kept list.
#![tactic(auto)]

ghost use Rattle.std.specs.Prelude.{◌≡◌};
ghost use Rattle.profile.specs.Journeys.{no_ride, no_journey, no_row};

pub mod figures;

// How many journeys are kept: one more makes the horizon fall.
pub const KEPT: usize = 64;

// No horizon falls below it.
pub const LEAST_HORIZON: u16 = 3600;

// A ride, as a kept journey holds it.
#[derive(Clone, Copy, Debug, Default, PartialEq, Eq)]
pub struct Ride {
    pub trip: u16,
    pub day: u8,
    pub from: u16,
    pub to: u16,
    pub departure: u16,
    pub arrival: u16,
    pub board_request: bool,
    pub alight_request: bool,
}

// A kept journey. For one ride, `last` is the blank ride; for fewer than three, `middle` is. No options beside `rides`, which says how many
// count.
#[derive(Clone, Copy, Debug, Default, PartialEq, Eq)]
pub struct Journey {
    pub leave: u16,
    pub arrival: u16,
    pub rides: u8,
    pub walk: u8,
    pub origin: u8,
    pub target: u8,
    pub first: Ride,
    pub middle: Ride,
    pub last: Ride,
}

// A journey while the search runs: its figures, its origin and target, and the numbers of the calls where it boards and alights: of the
// first ride, the last and the middle one. For one ride, `board2` and `alight2` are 0, and for fewer than three those of the middle ride: 0
// and no option, as a row is twelve numbers of the state's array. An arrival has 16 bits in a row, 32 in an offer (`candidate: Offer`).
#[derive(Clone, Copy, Debug, Default, PartialEq, Eq)]
pub struct Found<A> {
    pub leave: u16,
    pub arrival: A,
    pub rides: u16,
    pub walk: u16,
    pub origin: u16,
    pub target: u16,
    pub board: u16,
    pub alight: u16,
    pub board2: u16,
    pub alight2: u16,
    pub middle_board: u16,
    pub middle_alight: u16,
}

// As it is kept.
pub type Row = Found<u16>;

// The blank ride, the blank journey and the blank row: what stands where there is none. Functions over the derived defaults, so that
// contracts say which values these are.
pub fn no_ride() -> Ride
    ensures { result ≡ no_ride }
{
    Ride::default()
}

pub fn no_journey() -> Journey
    ensures { result ≡ no_journey }
{
    Journey::default()
}

pub fn no_row() -> Row
    ensures { result ≡ no_row }
{
    Row::default()
}
