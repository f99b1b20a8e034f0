// Calls added to and withdrawn from any load. A searched load goes back to an unsearched one, on which the step is done, and is searched
// again (RULES 10).
#![tactic(auto)]

ghost use Rattle.std.specs.Prelude.{◌≡◌};
ghost use Rattle.load.specs.declared.Load.{Load};
ghost use Rattle.load.specs.Steps.{stepped};
ghost use Rattle.search.specs.Within.{answered_by, step_of};
ghost use Rattle.again.specs.Again.{unsearched_of, researched, again, added_to, add_spec_of, taken_out, withdraw_spec};

use calls::{CallInput, CallKey};
use limited_rides::Tested;
use load::{Load, StepResult};
use prefix::first;
use profile::{KEPT, no_journey};
use refusal::{Accepted, Answer, Refusal, is_refused, is_taken};
use search::{take_search, take_search_within};
use withdrawal::{close_up, is_known, last_of};

// The load before its search: the calls as they stand, no journey, the table's horizon and mark.
#[tactic(auto, unfolding(crate::specs::Again::unsearched_of))]
fn unsearch(load: &mut Load)
    ensures { load.new ≡ unsearched_of load.old }
{
    load.journeys = [no_journey(); KEPT];
    load.journey_count = 0;
    load.horizon = load.table_horizon;
    load.limits = load.table_limits;
    load.searched = false;
    load.limit = None;
}

// The same by value.
pub fn unsearched(load: Load) -> Load
    ensures { result ≡ unsearched_of load }
{
    let mut next = load;
    unsearch(&mut next);
    next
}

// What a search within a limit answers as a step.
fn answer_of(tested: Result<Tested, Refusal>) -> Answer
    ensures { (l : Load) → stepped result l ≡ step_of (answered_by l tested) }
{
    tested.map(|_| Accepted::Taken)
}

// The load searched: within the limit where the search before it was stopped at one, in full otherwise. A load of more than one change,
// which no step stops, is searched in full.
#[tactic(auto, unfolding(crate::specs::Again::researched))]
fn search_as(limit: Option<u64>, load: &mut Load) -> Answer
    ensures { stepped result load.new ≡ researched limit load.old }
{
    match limit {
        Some(n) if load.settings.max_transfers <= 1 => answer_of(take_search_within(load, n)),
        _ => take_search(load),
    }
}

// What a step made of the unsearched load, searched as that load was; a refusal, also of the search, leaves the searched load.
fn searched_again(load: &mut Load, before: &Load, answer: Answer) -> Answer
    ensures { stepped result load.new ≡ again before.now (stepped answer load.old) }
{
    if is_refused(answer) {
        *load = *before;
        return answer;
    }
    let second = search_as(before.limit, load);
    if is_taken(second) {
        return answer;
    }
    *load = *before;
    second
}

// The same of a call: where it left the table, the searched load stays, but for its services, which an answered call closes.
fn added(load: &mut Load, before: &Load, answer: Answer) -> Answer
    ensures { stepped result load.new ≡ added_to before.now (stepped answer load.old) }
{
    if is_taken(answer) {
        return searched_again(load, before, answer);
    }
    if load.table_horizon == before.table_horizon {
        let week = load.week;
        *load = *before;
        load.week = week;
        return answer;
    }
    searched_again(load, before, answer)
}

// A call on any load, with the name of its service. By value it is the step in place, made on a copy.
pub fn add(load: Load, service: &[u8], input: CallInput) -> StepResult
    ensures { result ≡ add_spec_of load service.now input }
{
    let mut next = load;
    let answer = take_added(&mut next, service, input);
    StepResult { answer, load: next }
}

// The same in place.
pub fn take_added(load: &mut Load, service: &[u8], input: CallInput) -> Answer
    ensures { stepped result load.new ≡ add_spec_of load.old service.now input }
{
    if load.searched {
        let before = *load;
        unsearch(load);
        let answer = load.take_call_of(service, input);
        return added(load, &before, answer);
    }
    load.take_call_of(service, input)
}

// A call withdrawn from an unsearched load: 9, 24.
fn take_out(load: &mut Load, key: CallKey) -> Answer
    ensures { stepped result load.new ≡ taken_out load.old key }
{
    if is_known(key) {
        let held = first(&load.calls, load.call_count);
        let Some(place) = last_of(held, key) else {
            return Err(Refusal::CallUnknown);
        };
        close_up(&mut load.calls, place);
        load.call_count -= 1;
        load.horizon = load.table_horizon;
        load.limits = load.table_limits;
        return Ok(Accepted::Taken);
    }
    Err(Refusal::FieldRange)
}

// A call withdrawn from any load: 9, 24; of a searched load then 14, 11 of its search. By value it is the step in place, made on a copy.
pub fn withdraw(load: Load, key: CallKey) -> StepResult
    ensures { result ≡ withdraw_spec load key }
{
    let mut next = load;
    let answer = take_withdrawn(&mut next, key);
    StepResult { answer, load: next }
}

// The same in place.
pub fn take_withdrawn(load: &mut Load, key: CallKey) -> Answer
    ensures { stepped result load.new ≡ withdraw_spec load.old key }
{
    if load.searched {
        let before = *load;
        unsearch(load);
        let answer = take_out(load, key);
        return searched_again(load, &before, answer);
    }
    take_out(load, key)
}
