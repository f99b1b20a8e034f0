// A group's part of a display: how many of its journeys are shown, up to which window, or why none is.
ghost use Rattle.std.specs.Prelude.{◌≡◌, length, option_copied};
ghost use Rattle.groups.specs.Groups.{list_of};
ghost use Rattle.display.specs.Parts.{count_in, window_of, falls_below, shown_by, part_for, part_in};

use groups::Group;
use prefix::first;
use profile::{Journey, LEAST_HORIZON};
use refusal::Refusal;

// What a group shows: the first `count` of its list, those due by the window.
#[derive(Clone, Copy, Debug, PartialEq, Eq)]
pub struct Shown {
    pub window: u16,
    pub count: usize,
}

// What a group shows, or 11 where the window would fall below 3600. None of a group that isn't given.
pub type Part = Option<Result<Shown, Refusal>>;

// The group's list.
fn listed(group: &Group) -> &[Journey]
    ensures { result.now ≡ list_of group.entry.now }
{
    first(&group.journeys, group.count)
}

// How long the list of a group is: 0 where it isn't given.
#[tactic(auto, unfolding(crate::specs::Parts::count_in))]
pub fn count_in(given: Option<&Group>) -> usize
    ensures { result ≡ count_in (option_copied given.entry) }
{
    given.map_or(0, |group| listed(group).len())
}

// The window of a list that gets so large a share.
fn window_at(list: &[Journey], share: usize, horizon: u16) -> u16
    ensures { result ≡ window_of list.now share horizon }
{
    match list.get(share) {
        Some(journey) => journey.arrival.saturating_sub(1),
        None => horizon,
    }
}

// Whether one of so many doesn't fit, and the window is below 3600.
#[tactic(auto, unfolding(crate::specs::Parts::falls_below))]
fn falls_below(count: usize, share: usize, window: u16) -> bool
    ensures { result ≡ falls_below count share window }
{
    share < count && window < LEAST_HORIZON
}

// How many of the journeys are due by the window.
fn due_by(list: &[Journey], window: u16) -> usize
    ensures { result ≡ length (shown_by window list.now) }
{
    list.iter()
        .filter(|journey| journey.arrival <= window)
        .count()
}

// The part of a group that gets such a share.
fn part_for(group: &Group, share: usize) -> Result<Shown, Refusal>
    ensures { result ≡ part_for group.entry.now share }
{
    let list = listed(group);
    let window = window_at(list, share, group.horizon);
    if falls_below(list.len(), share, window) {
        return Err(Refusal::NoRoom);
    }
    Ok(Shown {
        window,
        count: due_by(list, window),
    })
}

#[tactic(auto, unfolding(crate::specs::Parts::part_in))]
pub fn part_in(given: Option<&Group>, share: usize) -> Part
    ensures { result ≡ part_in (option_copied given.entry) share }
{
    Some(part_for(given?, share))
}
