// A display for up to four groups (RULES 12): dealt at once from their searched loads, then asked for a group's best.
#![tactic(auto)]

ghost use Rattle.std.specs.Prelude.{◌≡◌};
ghost use Rattle.display.specs.Display.{display_of, part_of};
ghost use Rattle.display.specs.Queries.{best_of_group, next_of_group};

use crate::part::{Part, count_in, part_in};
use best::{after, first_leaving};
use groups::{Group, group_at, turned_away};
use prefix::first;
use profile::Journey;
use refusal::Refusal;
use shares::shares;

pub mod part;

// The part of each group, by its number; or 23.
pub type Display = Result<[Part; 4], Refusal>;

// The display of the groups given.
pub fn deal(given: &[Group]) -> Display
    ensures { result ≡ display_of given.now }
{
    if turned_away(given) {
        return Err(Refusal::DisplayGroups);
    }
    let a = group_at(given, 0);
    let b = group_at(given, 1);
    let c = group_at(given, 2);
    let d = group_at(given, 3);
    let s = shares([count_in(a), count_in(b), count_in(c), count_in(d)]);
    Ok([
        part_in(a, s[0]),
        part_in(b, s[1]),
        part_in(c, s[2]),
        part_in(d, s[3]),
    ])
}

// The part of a group: none above 3, and none of a display that is turned away.
#[tactic(auto, unfolding(crate::specs::Display::part_of))]
pub fn part_of(display: Display, number: u8) -> Part
    ensures { result ≡ part_of display number }
{
    display.ok()?.get(usize::from(number)).copied().flatten()
}

// The best of the journeys shown that leaves at or after the second; none of a group without a display.
#[tactic(auto, unfolding(crate::specs::Queries::best_of_group))]
pub fn best_of_group(group: &Group, part: Part, second: i64) -> Option<Journey>
    ensures { result ≡ best_of_group group.entry.now part second }
{
    let shown = part?.ok()?;
    first_leaving(first(&group.journeys, shown.count), shown.window, second)
}

// What to take after missing a journey: the best that leaves later. Only its leave counts.
pub fn next_of_group(group: &Group, part: Part, second: i64, missed: Journey) -> Option<Journey>
    ensures { result ≡ next_of_group group.entry.now part second missed }
{
    best_of_group(group, part, after(second, missed.leave))
}
