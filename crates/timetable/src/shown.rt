// A display of lists, and what is asked of what it shows.
ghost use Rattle.std.specs.Prelude.{◌≡◌, get_or};
ghost use Rattle.laws.specs.Tables.{table};
ghost use Rattle.timetable.specs.Journeys.{journey_of, no_row};
ghost use Rattle.timetable.specs.List.{refused_list};
ghost use Rattle.timetable.specs.Displays.{
  journeys_of,
  group_of,
  given_at,
  groups_of,
  dealt_of,
  part_row,
  display_row,
  shows,
  shown_best,
};

use crate::journeys::{TimetableJourney, journey_of, journey_row};
use crate::list::{TimetableList, refused_list};
use crate::queries::first_leaving;
use display::part::Part;
use display::{Display, deal};
use groups::Group;
use prefix::first;
use profile::{Journey, KEPT, no_journey};
use refusal::Refusal;
use std::array;

// What is shown of a group: `share` journeys of its list, due by `window`; or 11 where one doesn't fit.
#[repr(C)]
#[derive(Clone, Copy, Debug, Default, PartialEq, Eq)]
pub struct TimetablePart {
    pub window: u16,
    pub refusal: u8,
    pub share: u8,
    pub present: bool,
}

// The part of each group, by its number; or 23.
#[repr(C)]
#[derive(Clone, Copy, Debug, Default, PartialEq, Eq)]
pub struct TimetableDisplay {
    pub part: [TimetablePart; 4],
    pub refusal: u8,
}

fn row_in(rows: &[TimetableJourney], i: usize) -> TimetableJourney
    ensures { result ≡ get_or rows.now i no_row }
{
    rows.get(i).copied().unwrap_or(journey_row(no_journey()))
}

fn journey_in(rows: &[TimetableJourney], i: usize) -> Journey
    ensures { result ≡ journey_of (get_or rows.now i no_row) }
{
    journey_of(&row_in(rows, i))
}

fn journeys_of(rows: &[TimetableJourney]) -> [Journey; KEPT]
    ensures { result ≡ journeys_of rows.now }
{
    array::from_fn(|i| journey_in(rows, i))
}

// A list, given for the group of a number.
fn group_of(number: u8, list: &TimetableList) -> Group
    ensures { result ≡ group_of number list.entry.now }
{
    let journeys = journeys_of(&list.journey);
    Group {
        number,
        searched: 2 <= list.state,
        now: list.now,
        horizon: list.horizon,
        count: usize::from(list.count),
        journeys,
    }
}

fn number_at(numbers: &[u8], i: usize) -> u8
    ensures { result ≡ get_or numbers.now i 0 }
{
    numbers.get(i).copied().unwrap_or(0)
}

// The empty list where there are fewer.
fn list_at(lists: &[TimetableList], i: usize) -> TimetableList
    ensures { result ≡ get_or lists.now i (refused_list 0) }
{
    lists.get(i).copied().unwrap_or(refused_list(0))
}

#[tactic(auto, unfolding(crate::specs::Displays::given_at))]
fn given_at(lists: &[TimetableList], numbers: &[u8], i: usize) -> Group
    ensures { result ≡ given_at lists.now numbers.now i }
{
    group_of(number_at(numbers, i), &list_at(lists, i))
}

fn given(lists: &[TimetableList], numbers: &[u8]) -> [Group; 4]
    ensures { result ≡ table 4 (given_at lists.now numbers.now) }
{
    array::from_fn(|i| given_at(lists, numbers, i))
}

// Each list with its number, as many as there are of both.
#[tactic(auto, unfolding(crate::specs::Displays::dealt_of, crate::specs::Displays::groups_of))]
pub fn dealt(lists: &[TimetableList], numbers: &[u8]) -> Display
    ensures { result ≡ dealt_of lists.now numbers.now }
{
    let n = lists.len().min(numbers.len());
    if 4 < n {
        return Err(Refusal::DisplayGroups);
    }
    let groups = given(lists, numbers);
    deal(first(&groups, n))
}

#[tactic(auto, unfolding(crate::specs::Displays::part_row))]
fn part_row(part: Part) -> TimetablePart
    ensures { result ≡ part_row part }
{
    match part {
        None => TimetablePart::default(),
        Some(Err(refusal)) => TimetablePart {
            window: 0,
            refusal: u8::from(refusal),
            share: 0,
            present: true,
        },
        Some(Ok(shown)) => TimetablePart {
            window: shown.window,
            refusal: 0,
            share: shown.count.min(255) as u8,
            present: true,
        },
    }
}

#[tactic(auto, unfolding(crate::specs::Displays::display_row))]
pub fn display_row(display: Display) -> TimetableDisplay
    ensures { result ≡ display_row display }
{
    match display {
        Ok(parts) => TimetableDisplay {
            part: [
                part_row(parts[0]),
                part_row(parts[1]),
                part_row(parts[2]),
                part_row(parts[3]),
            ],
            refusal: 0,
        },
        Err(refusal) => TimetableDisplay {
            part: [TimetablePart::default(); 4],
            refusal: u8::from(refusal),
        },
    }
}

// Whether journeys are shown.
#[tactic(auto, unfolding(crate::specs::Displays::shows))]
fn shows(part: &TimetablePart) -> bool
    ensures { result ≡ shows part.now }
{
    part.present && part.refusal == 0
}

// The first of those shown that leaves at the second or later.
#[tactic(auto, unfolding(crate::specs::Displays::shown_best))]
pub fn shown_best(
    list: &TimetableList,
    part: &TimetablePart,
    second: i64,
) -> Option<TimetableJourney>
    ensures { result ≡ shown_best list.entry.now part.now second }
{
    if !shows(part) || list.state < 2 {
        return None;
    }
    first_leaving(
        first(&list.journey, usize::from(part.share)),
        part.window,
        second,
    )
}
