// Best and next after, over a list that the caller holds.
ghost use Rattle.std.specs.Prelude.{◌≡◌, leb, unwrap_or};
ghost use Rattle.std.specs.List.{find};
ghost use Rattle.timetable.specs.Queries.{first_leaving, best_in, query_number};

use crate::journeys::TimetableJourney;
use crate::list::TimetableList;
use best::asked;
use prefix::first;

// The first that leaves at t or later. No `best::first_leaving`: to make journeys of the rows would take longer than the query.
fn first_from(rows: &[TimetableJourney], t: u64) -> Option<TimetableJourney>
    ensures { result ≡ find (λ r. leb t r.leave) rows.now }
{
    rows.iter().find(|r| t <= r.leave as u64).copied()
}

// The same at any second: none before 0 and after the horizon.
pub fn first_leaving(
    rows: &[TimetableJourney],
    horizon: u16,
    second: i64,
) -> Option<TimetableJourney>
    ensures { result ≡ first_leaving rows.now horizon second }
{
    first_from(rows, asked(horizon, second)?)
}

// Of a list that a search left.
#[tactic(auto, unfolding(crate::specs::Queries::best_in))]
pub fn best_in(list: &TimetableList, second: i64) -> Option<TimetableJourney>
    ensures { result ≡ best_in list.entry.now second }
{
    if list.state < 2 {
        return None;
    }
    let rows = first(&list.journey, usize::from(list.count));
    first_leaving(rows, list.horizon, second)
}

// 2 where there is no list, else whether a journey was found; that is put where it is asked for.
#[tactic(auto, unfolding(crate::specs::Queries::query_number))]
pub fn answer(state: u8, found: Option<TimetableJourney>, journey: &mut TimetableJourney) -> u8
    ensures number { result ≡ query_number state found }
    ensures row { journey.new ≡ unwrap_or found journey.old }
{
    *journey = found.unwrap_or(*journey);
    if state < 2 {
        return 2;
    }
    u8::from(found.is_some())
}
