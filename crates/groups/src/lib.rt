// The groups of a display (RULES 12): what is read of each one's load, the group of a number, and why a display is turned away.
#![tactic(auto)]

ghost use Rattle.std.specs.Prelude.{◌≡◌, eqb, ltb, option_copied};
ghost use Rattle.laws.specs.Lists.{anyb};
ghost use Rattle.groups.specs.Groups.{group_of, given_in, with_group, has_number, group_at, lowest_start};
ghost use Rattle.groups.specs.Refused.{is_wrong, twice, turned_away};

use load::Load;
use prefix::first;
use profile::{Journey, KEPT};

// What a display reads of a load, which is given for the group of a number. Its list stands by value, an array with a count as in a load:
// the load that it is read from is gone when the display is dealt. `searched` is one of the fields that are read, and says of no other
// whether it holds.
#[derive(Clone, Copy, Debug, Default, PartialEq, Eq)]
pub struct Group {
    pub number: u8,
    pub searched: bool,
    pub now: i64,
    pub horizon: u16,
    pub count: usize,
    pub journeys: [Journey; KEPT],
}

// A load, given for the group of a number. By its fields, as most of a load is not read.
pub fn group_of(number: u8, load: Load) -> Group
    ensures { result ≡ group_of number load }
{
    let journeys = load.journeys;
    Group {
        number,
        searched: load.searched,
        now: load.settings.now,
        horizon: load.horizon,
        count: load.journey_count,
        journeys,
    }
}

// Up to four groups, as they are given: an array and a count, since there is no heap.
#[derive(Clone, Copy, Debug, Default, PartialEq, Eq)]
pub struct Groups {
    groups: [Group; 4],
    count: usize,
}

impl Groups {
    pub fn given(&self) -> &[Group]
        ensures { result.now ≡ given_in self.now }
    {
        first(&self.groups, self.count)
    }

    // Whether there is room for one more: a fifth is left out.
    #[tactic(auto, unfolding(crate::specs::Groups::with_group))]
    pub fn add(&mut self, group: Group) -> bool
        ensures room { result ≡ ltb self.old.count 4 }
        ensures added { self.new ≡ with_group self.old group }
    {
        if self.count >= 4 {
            return false;
        }
        self.groups[self.count] = group;
        self.count += 1;
        true
    }
}

// The first of the groups that has the number.
pub fn group_at(given: &[Group], number: u8) -> Option<&Group>
    ensures { option_copied result ≡ group_at number given.now }
{
    given.iter().find(|group| group.number == number)
}

// The start of the lowest group.
fn lowest_start(given: &[Group]) -> i64
    ensures { result ≡ lowest_start given.now }
{
    group_at(given, 0)
        .or(group_at(given, 1))
        .or(group_at(given, 2))
        .or(group_at(given, 3))
        .map_or(0, |group| group.now)
}

// Whether a group turns the display away, where the lowest group starts so.
fn is_wrong(group: &Group, low: i64) -> bool
    ensures { result ≡ is_wrong low group.entry.now }
{
    let above = 3 < group.number;
    above || !group.searched || group.now != low
}

fn any_wrong(given: &[Group], low: i64) -> bool
    ensures { result ≡ anyb (is_wrong low) given.now }
{
    given.iter().any(|group| is_wrong(group, low))
}

fn has_number(given: &[Group], number: u8) -> bool
    ensures { result ≡ anyb (has_number number) given.now }
{
    given.iter().any(|group| group.number == number)
}

// Whether a group is given twice. The recursion is not deep: a number is a byte, so one of the first 257 groups stands again behind itself.
// Not by `any` over places, whose proof did not close: of a closure that reads `given[i + 1..]` no more is told than that it returned.
fn given_twice(given: &[Group]) -> bool
    ensures { result ≡ twice given.now }
{
    match given {
        [group, behind @ ..] => has_number(behind, group.number) || given_twice(behind),
        [] => false,
    }
}

// Whether the groups turn the display away, with 23.
pub fn turned_away(given: &[Group]) -> bool
    ensures { result ≡ turned_away given.now }
{
    given_twice(given) || any_wrong(given, lowest_start(given))
}
