// The lists that are asked, and the questions of each. A line has a name, a list and its questions.
use profile::{Journey, KEPT, Ride};
use std::str::{FromStr, Split};

// A journey is written by its number, leave, arrival, rides and walk; a question by how many journeys are asked, the horizon and the
// second.
//
// No journey; one; a full tie of two; of three, the last two apart; arrivals in falling order; neither leave nor arrival in order;
// a tie in arrival, with fewer rides; and in rides, with the shorter walk; and in walk, with the later leave; the preferred leaves
// first; figures at the ends of their types; 64 equal journeys; the same with the best in the last slot.
// Past all but the last two stands a journey that best would take.
pub const LINES: &str = "none|99 65535 0 0 0|0 21600 0,0 65535 9223372036854775807
single|99 65535 0 0 0,0 300 1320 1 5|1 21600 300,1 21600 301,1 0 0,1 65535 -9223372036854775808,1 65535 9223372036854775807
pair|99 65535 0 0 0,0 300 1319 2 5,1 300 1319 2 5|2 21600 0,2 65535 300
between|99 65535 0 0 0,0 250 1400 1 1,1 300 1319 2 5,2 300 1319 2 5,3 310 1320 1 0,4 300 1319 2 5|\
    5 21600 300,5 21600 301,2 21600 0,1 21600 0
falling|99 65535 0 0 0,0 100 5000 1 1,1 200 4000 1 1,2 300 3000 2 9,3 400 2000 2 9,4 500 1000 2 9|5 21600 0,4 21600 0,5 21600 501
mixed|99 65535 0 0 0,0 700 2000 1 4,1 100 1500 2 4,2 900 2500 1 0,3 400 1500 2 4,4 650 1999 2 4|\
    5 21600 0,5 21600 401,5 21600 651,5 650 651,5 650 650
fewer|99 65535 0 0 0,0 500 900 2 0,1 100 900 1 9,2 600 900 2 0|3 21600 0,3 21600 101
shorter|99 65535 0 0 0,0 500 900 1 7,1 100 900 1 6,2 600 900 1 7|3 21600 0,3 21600 101
later|99 65535 0 0 0,0 500 900 1 7,1 700 900 1 7,2 600 900 1 7,3 700 900 1 7|4 21600 0,3 21600 600,4 699 700
early|99 65535 0 0 0,0 10 50 1 0,1 20 60 1 0,2 30 70 1 0,3 40 80 1 0|4 0 0,4 0 1,4 21600 11,4 21600 40,4 21600 -1
ends|99 65535 0 0 0,0 65535 65535 255 255,1 0 65535 255 255,2 65535 65535 0 255,3 65535 65535 255 0,4 0 0 255 255|\
    5 65535 65535,5 65535 65536,5 65535 0,5 65535 1,5 65534 65535,\
    1 65535 65535,5 65535 -9223372036854775808,5 65535 9223372036854775807
equal|1 300 1320 1 5,0 300 1320 1 5|64 21600 0,65 21600 300,18446744073709551615 21600 300
back|1 300 1320 1 5,0 300 1320 1 5,63 300 1319 2 9|64 21600 0,63 21600 0,65 21600 0";

// The next number of a row.
fn number<N: FromStr>(row: &mut Split<'_, char>) -> Option<N>
where
    N::Err: Drop,
{
    row.next()?.parse::<N>().ok()
}

// Its first trip has its number.
fn journey(text: &str) -> Option<Journey> {
    let mut row = text.split(' ');
    let ride = Ride {
        trip: number(&mut row)?,
        day: 0,
        from: 0,
        to: 0,
        departure: 0,
        arrival: 0,
        board_request: false,
        alight_request: false,
    };
    Some(Journey {
        leave: number(&mut row)?,
        arrival: number(&mut row)?,
        rides: number(&mut row)?,
        walk: number(&mut row)?,
        origin: 0,
        target: 0,
        first: ride,
        middle: ride,
        last: ride,
    })
}

// The first journey stands in each slot, each other one in the slot of its number.
pub fn list(text: &str) -> Option<[Journey; KEPT]> {
    let (first, others) = text.split_once(',').unwrap_or((text, ""));
    let mut list = [journey(first)?; KEPT];
    for row in others.split_terminator(',') {
        let journey = journey(row)?;
        let slot = usize::from(journey.first.trip);
        *list.get_mut(slot)? = journey;
    }
    Some(list)
}

// How many journeys are asked, up to which horizon, and at which second.
#[derive(Clone, Copy, Debug, PartialEq, Eq)]
pub struct Question {
    pub count: usize,
    pub horizon: u16,
    pub second: i64,
}

pub fn read_question(text: &str) -> Option<Question> {
    let mut row = text.split(' ');
    Some(Question {
        count: number(&mut row)?,
        horizon: number(&mut row)?,
        second: number(&mut row)?,
    })
}
