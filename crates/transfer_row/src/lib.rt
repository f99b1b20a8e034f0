// The changes from one stop to the first of 128, as many as the row that is lent holds. One pass over the rules finds the best for each
// `to`; one pass over the stops takes the better of the rules for a stop and for its parent.
#![tactic(auto)]

ghost use Rattle.std.specs.Prelude.{◌≡◌, ◌<◌, ◌≤◌, min, length, get_or, set, replicate, None};
ghost use Rattle.laws.specs.Regions.{Region};
ghost use Rattle.laws.specs.Tables.{table};
ghost use Rattle.transfer.specs.Choice.{chosen};
ghost use Rattle.transfer.specs.Lent.{entry_in};
ghost use Rattle.transfer_row.specs.Slots.{slots, is_from, better_from, slot_of, best_to, picked, picked_in};
ghost use Rattle.stops.specs.Sizes.{stop_room, no_stop};

use rules::Rule;
use stops::STOPS;
use transfer::parts::{change_by, change_number};
use transfer::{Ends, Transfers};

// Each of 128 stops has a slot. One more, the last, is that of every number past them.
const PAST: usize = STOPS;

// How many there are.
const SLOTS: usize = STOPS + 1;

// The best rule for each slot.
type Best = [Option<Rule>; SLOTS];

// The bound is told beside the value: the index needs it.
fn slot_of(to: u16) -> usize
    ensures { (result ≡ slot_of to) × (result ≤ stop_room) }
{
    usize::from(to).min(PAST)
}

fn is_from(rule: Option<Rule>, from: u16) -> bool
    ensures { result ≡ is_from from rule }
{
    rule.is_some_and(|rule| rule.from == from)
}

// One more rule. In its slot one from the stop itself comes before one from its parent, and of equals the later.
fn read_rule(best: &mut Best, rule: Rule, from: u16, parent: u16)
    ensures { best.new ≡ set best.old (slot_of rule.to) (better_from from parent (get_or best.old (slot_of rule.to) None) rule) }
{
    let slot = slot_of(rule.to);
    if rule.from == from || (rule.from == parent && !is_from(best[slot], from)) {
        best[slot] = Some(rule);
    }
}

// The best for each slot.
fn read_rules(best: &mut Best, rules: &[Rule], from: u16, parent: u16)
    requires { best.old ≡ replicate slots None }
    ensures { best.new ≡ table slots (best_to rules.now from parent) }
{
    for &rule in rules {
        read_rule(best, rule, from, parent);
    }
}

// The best for a stop, unless of it and the best for its parent the latter alone is from the stop itself.
fn picked(from: u16, own: Option<Rule>, other: Option<Rule>) -> Option<Rule>
    ensures { result ≡ picked from own other }
{
    match own {
        Some(rule) if rule.from == from || !is_from(other, from) => own,
        _ => other,
    }
}

// The same of two stops and their parents.
fn rule_by(best: &Best, ends: Ends) -> Option<Rule>
    requires { ends.to < stop_room }
    ensures { result ≡ picked_in best.now ends }
{
    let own = best[usize::from(ends.to)];
    let other = best[slot_of(ends.to_parent)];
    picked(ends.from, own, other)
}

// The changes by the best rules. The parent and the place of `from` are read once: read anew for each stop, by `Transfers::ends` and
// `change_by`, a row took longer by four fifths.
fn by_best(row: &mut [u32], best: &Best, transfers: &Transfers, from: u16)
    requires { (best.now ≡ table slots (best_to transfers.now.rules.now from (get_or transfers.now.parents.now from no_stop)))
        × (get_or best.now stop_room None ≡ None) }
    ensures { Region (entry_in transfers.now from) 0 (min (length row.old) stop_room) row.old row.new }
{
    let parents = transfers.parents;
    let places = transfers.places;
    let from_parent = transfers.parent(from);
    let from_place = transfers.place(from);
    for k in 0..row.len().min(STOPS) {
        let ends = Ends {
            from,
            from_parent,
            to: k as u16,
            to_parent: parents[k],
        };
        let rule = rule_by(best, ends);
        let near = ends.are_near(from_place, places[k]);
        row[k] = change_number(change_by(rule, near, transfers.change));
    }
}

// The rule that holds between two stops: by all rules where the parent is past the stops, as their slot may hold another's.
#[tactic(auto, using(crate::proofs::Entries::rule_found))]
fn rule_of(best: &Best, rules: &[Rule], ends: Ends) -> Option<Rule>
    requires { (best.now ≡ table slots (best_to rules.now ends.from ends.from_parent)) × (ends.to < stop_room) }
    ensures { result ≡ chosen ends rules.now }
{
    if slot_of(ends.to_parent) == PAST {
        return ends.choose(rules);
    }
    rule_by(best, ends)
}

// The changes where the slot past the stops has a rule. With the test of `rule_of` in the loop of `by_best` a row without rules took longer
// by half. It takes what `by_best` and `change_row` take: a struct of the three would be made for one call each.
fn by_both(row: &mut [u32], best: &Best, transfers: &Transfers, from: u16)
    requires { best.now ≡ table slots (best_to transfers.now.rules.now from (get_or transfers.now.parents.now from no_stop)) }
    ensures { Region (entry_in transfers.now from) 0 (min (length row.old) stop_room) row.old row.new }
{
    for k in 0..row.len().min(STOPS) {
        let ends = transfers.ends(from, k as u16);
        let rule = rule_of(best, transfers.rules, ends);
        row[k] = change_number(transfers.change_by(rule, ends));
    }
}

// The changes from a stop: the seconds for each of 128 stops, or for the first of them in a shorter row, 65536 for never; in a longer one
// the rest stays. Where a rule from the stop or its parent names a number past the stops, which no rule of a load does, all rules are read
// again for each stop whose parent is such a number. For few entries and rules that is no faster: an entry takes twice the instructions,
// and to blank the slots takes few.
pub fn change_row(row: &mut [u32], transfers: &Transfers, from: u16)
    ensures { Region (entry_in transfers.now from) 0 (min (length row.old) stop_room) row.old row.new }
{
    let mut best = [None; SLOTS];
    read_rules(&mut best, transfers.rules, from, transfers.parent(from));
    if best[PAST].is_some() {
        by_both(row, &best, transfers, from);
    } else {
        by_best(row, &best, transfers, from);
    }
}
