// What a load file's search found, as plain numbers.
ghost use Rattle.std.specs.Prelude.{◌≡◌, get_or};
ghost use Rattle.refusal.specs.First.{answer_number};
ghost use Rattle.profile.specs.Journeys.{no_journey};
ghost use Rattle.timetable.specs.List.{row_at, rows_of, state_of, refused_list, load_list, list_by};

use crate::journeys::{TimetableJourney, journey_row};
use load::Load;
use margin::margin_of;
use prefix::first;
use profile::{Journey, KEPT, no_journey};
use refusal::Answer;
use std::array;

// `refusal` is the number of the file's refusal, or 0; `state` is 0 for a refused file, 1 for one that isn't searched, 2 for a stopped
// search and 3 for a finished one. The margin is 65535 where there is none. Rows past the count are all 0.
#[repr(C)]
#[derive(Clone, Copy, Debug, PartialEq, Eq)]
pub struct TimetableList {
    pub now: i64,
    pub joins: u64,
    pub horizon: u16,
    pub margin: u16,
    pub refusal: u8,
    pub state: u8,
    pub limits: u8,
    pub count: u8,
    pub journey: [TimetableJourney; KEPT],
}

// The number of an answer, 0 where it isn't a refusal.
pub fn number_of(answer: Answer) -> u8
    ensures { result ≡ answer_number answer }
{
    match answer {
        Ok(_) => 0,
        Err(refusal) => u8::from(refusal),
    }
}

fn journey_at(kept: &[Journey], i: usize) -> Journey
    ensures { result ≡ get_or kept.now i no_journey }
{
    kept.get(i).copied().unwrap_or(no_journey())
}

#[tactic(auto, unfolding(crate::specs::List::row_at))]
fn row_at(kept: &[Journey], i: usize) -> TimetableJourney
    ensures { result ≡ row_at kept.now i }
{
    journey_row(journey_at(kept, i))
}

fn rows_of(kept: &[Journey]) -> [TimetableJourney; KEPT]
    ensures { result ≡ rows_of kept.now }
{
    array::from_fn(|i| row_at(kept, i))
}

#[tactic(auto, unfolding(crate::specs::List::state_of))]
fn state_of(searched: bool, limit: Option<u64>) -> u8
    ensures { result ≡ state_of searched limit }
{
    if !searched {
        return 1;
    }
    if limit.is_some() { 2 } else { 3 }
}

pub fn refused_list(number: u8) -> TimetableList
    ensures { result ≡ refused_list number }
{
    TimetableList {
        now: 0,
        joins: 0,
        horizon: 0,
        margin: 65535,
        refusal: number,
        state: 0,
        limits: 0,
        count: 0,
        journey: rows_of(&[]),
    }
}

fn load_list(joins: u64, load: &Load) -> TimetableList
    ensures { result ≡ load_list joins load.now }
{
    let kept = first(&load.journeys, load.journey_count);
    TimetableList {
        now: load.settings.now,
        joins,
        horizon: load.horizon,
        margin: margin_of(*load).unwrap_or(65535),
        refusal: 0,
        state: state_of(load.searched, load.limit),
        limits: load.limits,
        count: kept.len() as u8,
        journey: rows_of(kept),
    }
}

// After the last record was answered so.
pub fn list_by(answer: Answer, joins: u64, load: &Load) -> TimetableList
    ensures { result ≡ list_by answer joins load.now }
{
    match answer {
        Ok(_) => load_list(joins, load),
        Err(refusal) => refused_list(u8::from(refusal)),
    }
}
