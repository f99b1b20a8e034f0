// The lent arrays of a search, feed and changes: what is read of them about a stop or a pair of stops, and the tests and sums on what is
// read. Numbers and no records: with the calls as an array by value a pair of rides took 30 to 85 ns, against 0.4 to 1.2 (docs/SPEED.md).
#![tactic(auto)]

ghost use Rattle.std.specs.Prelude.{◌≡◌, ◌*◌, min, leb};
ghost use Rattle.search_input.specs.Feed.{
  member_at,
  origin_mask,
  target_mask,
  change_at,
  same_run,
  leave_of,
  arrival_of,
  figures_of,
  joined,
};
ghost use Rattle.calls.specs.Sizes.{call_room};

pub mod layout;

use crate::layout::{CALLS, CHANGES_SIZE, Changes, Feed, MEMBERS, NO_CHANGE, STOPS};
use profile::figures::Figures;

// A call, as the loops read it.
#[derive(Clone, Copy, Debug, PartialEq, Eq)]
pub struct FeedCall {
    pub trip: u16,
    pub day: u16,
    pub stop: u16,
    pub arrival: u16,
    pub departure: u16,
    pub board: bool,
    pub alight: bool,
}

// A first ride: the figures, the origin and the places of its calls that its rows have, and what a join asks of it.
#[derive(Clone, Copy, Debug, PartialEq, Eq)]
pub struct FirstRide {
    pub leave: u16,
    pub walk: u16,
    pub origin: u16,
    pub board: u16,
    pub alight: u16,
    pub trip: u16,
    pub day: u16,
    pub stop: u16,
    pub arrival: u16,
}

impl FirstRide {
    // The figures of a journey of so many rides that begins with this one and is due at `arrival`.
    pub fn figures(self, arrival: u16, rides: u16) -> Figures
        ensures { result ≡ figures_of self arrival rides }
    {
        Figures {
            leave: self.leave,
            arrival,
            rides,
            walk: self.walk,
        }
    }
}

// The membership byte of a stop.
#[tactic(auto, unfolding(crate::specs::Feed::member_at))]
pub fn member_at(feed: &Feed, stop: u16) -> u16
    ensures { result ≡ member_at feed.now stop }
{
    if (stop as usize) < STOPS {
        return feed[MEMBERS + stop as usize];
    }
    0
}

// The origins of a stop.
#[tactic(auto, unfolding(crate::specs::Feed::origin_mask))]
pub fn origins_of(feed: &Feed, stop: u16) -> u8
    ensures { result ≡ origin_mask feed.now stop }
{
    (member_at(feed, stop) % 16) as u8
}

// The targets of a stop.
#[tactic(auto, unfolding(crate::specs::Feed::target_mask))]
pub fn targets_of(feed: &Feed, stop: u16) -> u8
    ensures { result ≡ target_mask feed.now stop }
{
    (member_at(feed, stop) / 16 % 16) as u8
}

// The seconds of a change between two stops. No option: `NO_CHANGE` is more than any departure allows, so `join` tests it with the others.
#[tactic(auto, unfolding(crate::specs::Feed::change_at))]
pub fn change_at(changes: &Changes, from: u16, to: u16) -> u32
    ensures { result ≡ change_at changes.now from to }
{
    let at = from as usize * STOPS + to as usize;
    if at < CHANGES_SIZE {
        return changes[at];
    }
    NO_CHANGE
}

// Whether two calls are of one trip and day: two numbers of seven, no shorter to compare as pairs.
#[tactic(auto, unfolding(crate::specs::Feed::same_run))]
pub fn same_run(b: FeedCall, a: FeedCall) -> bool
    ensures { result ≡ same_run b a }
{
    b.trip == a.trip && b.day == a.day
}

// Whether the departure leaves time to walk.
pub fn can_walk(walk: u16, departure: u16) -> bool
    ensures { result ≡ leb (walk * 60) departure }
{
    walk as u32 * 60 <= departure as u32
}

#[tactic(auto, unfolding(crate::specs::Feed::leave_of))]
pub fn leave_of(walk: u16, departure: u16) -> u16
    ensures { result ≡ leave_of walk departure }
{
    u32::from(departure).saturating_sub(u32::from(walk) * 60) as u16
}

#[tactic(auto, unfolding(crate::specs::Feed::arrival_of))]
pub fn arrival_of(walk: u16, alighting: u16) -> u32
    ensures { result ≡ arrival_of walk alighting }
{
    alighting as u32 + walk as u32 * 60
}

// Whether the first ride joins one that boards at b, if the change takes so many seconds. Trip and day one by one, as in `same_run`.
#[tactic(auto, unfolding(crate::specs::Feed::joined))]
pub fn join(f: FirstRide, b: FeedCall, seconds: u32) -> bool
    ensures { result ≡ joined f b seconds }
{
    !(f.trip == b.trip && f.day == b.day) && f.arrival as u64 + seconds as u64 <= b.departure as u64
}

// How many calls are read.
pub fn at_most_calls(n: usize) -> usize
    ensures { result ≡ min n call_room }
{
    n.min(CALLS)
}
