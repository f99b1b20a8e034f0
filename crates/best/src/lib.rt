// Best and next after: the queries of a searched load. Its list stands in order, so best is the first that leaves in time, and what
// follows is not read. `best_over` reads a list in any order.
#![tactic(auto)]

ghost use Rattle.std.specs.Prelude.{◌≡◌, leb};
ghost use Rattle.std.specs.List.{find};
ghost use Rattle.best.specs.Best.{best_of_of, first_leaving, after_of, best_spec, next_spec};
ghost use Rattle.best.specs.Turn.{asked, better_of};

use load::Load;
use prefix::first;
use profile::Journey;

// The preferred of what was found and j, without one that leaves before the second.
#[tactic(auto, unfolding(crate::specs::Turn::better_of, crate::specs::Turn::keep_of))]
fn better(found: Option<Journey>, j: Journey, second: u64) -> Option<Journey>
    ensures { result ≡ better_of second found j }
{
    let leave = j.leave as u64;
    if second <= leave {
        match found {
            Some(b) if b.figures().preferred(j.figures()) => Some(b),
            _ => Some(j),
        }
    } else {
        found
    }
}

// The second, where a query at it is answered: none before 0 and after the horizon.
pub fn asked(horizon: u16, second: i64) -> Option<u64>
    ensures { result ≡ asked horizon second }
{
    if second < 0 || second as u64 > horizon as u64 {
        return None;
    }
    Some(second as u64)
}

// Best over the journeys, in any order and of any number; of full ties the first. No struct of the three parameters: each caller takes
// list and horizon from elsewhere, and would make one for this call alone.
pub fn best_over(journeys: &[Journey], horizon: u16, second: i64) -> Option<Journey>
    ensures { result ≡ best_of_of journeys.now horizon second }
{
    let t = asked(horizon, second)?;
    journeys.iter().fold(None, |found, j| better(found, *j, t))
}

// The first of the journeys that leaves at t or later; it reads no further.
fn first_from(journeys: &[Journey], t: u64) -> Option<Journey>
    ensures { result ≡ find (λ j. leb t j.leave) journeys.now }
{
    journeys.iter().find(|j| t <= j.leave as u64).copied()
}

// The same at any second: none before 0 and after the horizon. Three parameters, as `best_over` has them.
pub fn first_leaving(journeys: &[Journey], horizon: u16, second: i64) -> Option<Journey>
    ensures { result ≡ first_leaving journeys.now horizon second }
{
    first_from(journeys, asked(horizon, second)?)
}

// The best journey that leaves at or after the second; none of an unsearched load.
#[tactic(auto, unfolding(crate::specs::Best::best_spec))]
pub fn best_of(load: &Load, second: i64) -> Option<Journey>
    ensures { result ≡ best_spec load.now second }
{
    if load.searched {
        let kept = first(&load.journeys, load.journey_count);
        first_leaving(kept, load.horizon, second)
    } else {
        None
    }
}

// The same of a load by value.
pub fn best(load: Load, second: i64) -> Option<Journey>
    ensures { result ≡ best_spec load second }
{
    best_of(&load, second)
}

// The larger of the second and the one after a leave.
#[tactic(auto, unfolding(crate::specs::Best::after_of))]
pub fn after(second: i64, leave: u16) -> i64
    ensures { result ≡ after_of second leave }
{
    second.max(leave as i64 + 1)
}

// What to take after missing a journey: the best that leaves later. Only its leave counts.
pub fn next_after(load: Load, second: i64, missed: Journey) -> Option<Journey>
    ensures { result ≡ next_spec load second missed }
{
    best(load, after(second, missed.leave))
}
