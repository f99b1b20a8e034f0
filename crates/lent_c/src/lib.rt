// Best over journeys given as plain numbers, for programs in C and Rust to call. Each figure has a column of 64 numbers; a journey's
// number is its place in the columns. Columns and counts, 65535 for none: C has neither options nor slices that know their length.
#![tactic(auto)]

ghost use Rattle.std.specs.Prelude.{◌≡◌};
ghost use Rattle.lent_c.specs.Plain.{journey_with, journeys_of, answer_of, best_numbers, first_numbers};

use best::{best_over, first_leaving};
use lent::best_lent;
use prefix::first;
use profile::{Journey, KEPT, no_ride};
use std::array;

// The number of no journey.
const NO_NUMBER: u16 = 65535;

fn journey_with(number: u8, leave: u16, arrival: u16, rides: u8, walk: u8) -> Journey
    ensures { result ≡ journey_with number leave arrival rides walk }
{
    let none = no_ride();
    Journey {
        leave,
        arrival,
        rides,
        walk,
        origin: number,
        target: 0,
        first: none,
        middle: none,
        last: none,
    }
}

fn journeys_of(
    leaves: &[u16; KEPT],
    arrivals: &[u16; KEPT],
    rides: &[u8; KEPT],
    walks: &[u8; KEPT],
) -> [Journey; KEPT]
    ensures { result ≡ journeys_of leaves.now arrivals.now rides.now walks.now }
{
    array::from_fn(|i| journey_with(i as u8, leaves[i], arrivals[i], rides[i], walks[i]))
}

fn answer_of(found: Option<Journey>) -> [u16; 5]
    ensures { result ≡ answer_of found }
{
    match found {
        Some(j) => [
            j.origin as u16,
            j.leave,
            j.arrival,
            j.rides as u16,
            j.walk as u16,
        ],
        None => [NO_NUMBER, 0, 0, 0, 0],
    }
}

// Best over the first `count` journeys (`best_over`): its number, leave, arrival, rides and walk; for none 65535 and four
// zeros.
#[unsafe(no_mangle)]
pub extern "C" fn best_over_numbers(
    leaves: &[u16; KEPT],
    arrivals: &[u16; KEPT],
    rides: &[u8; KEPT],
    walks: &[u8; KEPT],
    count: usize,
    horizon: u16,
    second: i64,
    answer: &mut [u16; 5],
)
    ensures { answer.new ≡ best_numbers leaves.now arrivals.now rides.now walks.now count horizon second }
{
    let journeys = journeys_of(leaves, arrivals, rides, walks);
    *answer = answer_of(best_over(first(&journeys, count), horizon, second));
}

// The same by `best_lent`.
#[unsafe(no_mangle)]
pub extern "C" fn best_lent_numbers(
    leaves: &[u16; KEPT],
    arrivals: &[u16; KEPT],
    rides: &[u8; KEPT],
    walks: &[u8; KEPT],
    count: usize,
    horizon: u16,
    second: i64,
    answer: &mut [u16; 5],
)
    ensures { answer.new ≡ best_numbers leaves.now arrivals.now rides.now walks.now count horizon second }
{
    let journeys = journeys_of(leaves, arrivals, rides, walks);
    *answer = answer_of(best_lent(&journeys, count, horizon, second));
}

// The first of them that leaves in time (`first_leaving`): best, where they stand in order.
#[unsafe(no_mangle)]
pub extern "C" fn first_numbers(
    leaves: &[u16; KEPT],
    arrivals: &[u16; KEPT],
    rides: &[u8; KEPT],
    walks: &[u8; KEPT],
    count: usize,
    horizon: u16,
    second: i64,
    answer: &mut [u16; 5],
)
    ensures { answer.new ≡ first_numbers leaves.now arrivals.now rides.now walks.now count horizon second }
{
    let journeys = journeys_of(leaves, arrivals, rides, walks);
    *answer = answer_of(first_leaving(first(&journeys, count), horizon, second));
}
