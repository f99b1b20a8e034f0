// What is asked of a change: another trip or day, a rule that doesn't forbid it, stops between which one may change, and time for it.
ghost use Rattle.std.specs.Prelude.{◌≡◌, ◌+◌, leb};
ghost use Rattle.withdrawal.specs.Removal.{counted, last_of};
ghost use Rattle.rules.specs.Rules.{same_pair};
ghost use Rattle.offers.specs.Offers.{same_run};
ghost use Rattle.connection.specs.Tests.{first_of, asking};
ghost use Rattle.connection.specs.Find.{boards, alights};
ghost use Rattle.connection.specs.Changes.{in_reach, forbids, number_in, pair_tests, change_tests};

use crate::tests::first_of;
use crate::{Cause, FoundLeg};
use calls::Call;
use rules::{Rule, same_pair};
use stops::STOPS;
use transfer::Transfers;

// A change from the ride that boards and alights at the first two calls to one that boards at the third.
#[derive(Clone, Copy, Debug, PartialEq, Eq)]
struct Change {
    board: Call,
    alight: Call,
    next: Call,
}

impl Change {
    // Whether it is to the trip and day that one comes by. Trip and day one by one: `search_input` compares them for its own record of a
    // call.
    fn is_within_a_run(&self) -> bool
        ensures { result ≡ same_run self.now.board self.now.next }
    {
        self.board.trip == self.next.trip && self.board.day == self.next.day
    }
}

#[tactic(auto, unfolding(crate::specs::Changes::in_reach))]
fn in_reach(from: u16, to: u16) -> bool
    ensures { result ≡ in_reach from to }
{
    usize::from(from) < STOPS && usize::from(to) < STOPS
}

// The place of the last of the rules for the pair.
fn pair_place(rules: &[Rule], from: u16, to: u16) -> Option<usize>
    ensures { counted result ≡ last_of (same_pair from to) rules.now }
{
    rules.iter().rposition(|&rule| same_pair(rule, from, to))
}

fn forbids_rule(rule: Option<Rule>) -> bool
    ensures { result ≡ forbids rule }
{
    rule.is_some_and(|by| by.transfer_type == 3)
}

// The number of a rule that was chosen among these; 0 where none was, which is then not read. No option, alone or with the rule:
// `pair_cause` makes the cause `Forbidden` before it is known whether it holds, and would unwrap the option to 0 all the same.
fn rule_number(rules: &[Rule], rule: Option<Rule>) -> usize
    ensures { result ≡ number_in rules.now rule }
{
    match rule {
        Some(by) => pair_place(rules, by.from, by.to).unwrap_or(0),
        None => 0,
    }
}

fn is_enough(arrival: u16, needed: u16, departure: u16) -> bool
    ensures { result ≡ leb (arrival + needed) departure }
{
    u32::from(arrival) + u32::from(needed) <= u32::from(departure)
}

// By the rule that holds, its number, and the seconds that the change between the stops takes.
fn pair_cause(
    i: u8,
    rule: Option<Rule>,
    number: usize,
    seconds: Option<u16>,
    change: &Change,
) -> Option<Cause>
    ensures { result ≡ first_of (pair_tests i rule number seconds change.now.board change.now.alight change.now.next) }
{
    let arrival = change.alight.arrival;
    let departure = change.next.departure;
    let needed = seconds.unwrap_or(0);
    let near = in_reach(change.alight.stop, change.next.stop);
    let enough = is_enough(arrival, needed, departure);
    first_of(&[
        (change.is_within_a_run(), Cause::SameRun(i)),
        (!near, Cause::NoChange(i)),
        (forbids_rule(rule), Cause::Forbidden(i, number)),
        (seconds.is_none(), Cause::NoChange(i)),
        (!enough, Cause::TooShort(i, needed, arrival, departure)),
    ])
}

// Of the change from one leg to the next, if it is asked; the test stands here, so that the causes are one chain.
pub fn change_cause(
    asked: bool,
    i: u8,
    transfers: &Transfers,
    from: &FoundLeg,
    to: &FoundLeg,
) -> Option<Cause>
    ensures { result ≡ first_of (asking asked (change_tests i transfers.now.rules.now transfers.now.parents.now transfers.now.places.now
        transfers.now.change (boards from.now) (alights from.now) (boards to.now))) }
{
    if !asked {
        return None;
    }
    let change = Change {
        board: from.boards(),
        alight: from.alights(),
        next: to.boards(),
    };
    let ends = transfers.ends(change.alight.stop, change.next.stop);
    let rule = ends.choose(transfers.rules);
    let number = rule_number(transfers.rules, rule);
    let seconds = transfers.change_by(rule, ends);
    pair_cause(i, rule, number, seconds, &change)
}
