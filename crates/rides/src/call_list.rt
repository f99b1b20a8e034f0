// The calls of a feed that a search reads, and its walks.
ghost use Rattle.std.specs.Prelude.{◌≡◌, ◌+◌, ◌≤◌, ◌<◌, ◌&&◌, ltb, min};
ghost use Rattle.search_input.specs.Feed.{call_at, same_run, origin_mask, target_mask, origin_walk_of, target_walk_of};
ghost use Rattle.rides.specs.Rows.{first_of};
ghost use Rattle.rides.specs.Sheets.{sheet_of};
ghost use Rattle.search_input.specs.Layout.{call_room};

use crate::bits::Digits;
use search_input::layout::Feed;
use search_input::{
    FeedCall, FirstRide, at_most_calls, leave_of, origins_of, same_run, targets_of,
};

// The first n calls of the feed. The array whole beside the count: members and walks stand behind the calls.
#[derive(Clone, Copy, Debug, PartialEq, Eq)]
pub struct Calls<'a> {
    pub feed: &'a Feed,
    pub n: usize,
    ghost fits: { n ≤ call_room },
}

// A ride, by the places of the calls where it boards and alights.
#[derive(Clone, Copy, Debug, PartialEq, Eq)]
pub struct Ride {
    pub board: usize,
    pub alight: usize,
    ghost placed: { (board < call_room) × (alight < call_room) },
}

impl<'a> Calls<'a> {
    // No more than the 512 that there are.
    pub fn first(feed: &'a Feed, n: usize) -> Calls<'a>
        ensures same { result.feed.now ≡ feed.now }
        ensures count { result.n ≡ min n call_room }
    {
        Calls {
            feed,
            n: at_most_calls(n),
        }
    }

    // The call at place i.
    #[tactic(auto, unfolding(search_input::specs::Feed::call_at))]
    pub fn at(&self, i: usize) -> FeedCall
        requires { i < call_room }
        ensures { result ≡ call_at self.now.feed.now i }
    {
        let at = i * 6;
        let flags = self.feed[at + 5];
        FeedCall {
            trip: self.feed[at],
            day: self.feed[at + 1],
            stop: self.feed[at + 2],
            arrival: self.feed[at + 3],
            departure: self.feed[at + 4],
            board: flags % 2 == 1,
            alight: flags / 2 % 2 == 1,
        }
    }

    // Whether the next call is of the trip and day of the call at j.
    pub fn goes_on(&self, j: usize) -> bool
        requires { j < call_room }
        ensures { result ≡ (ltb (j + 1) self.now.n && same_run (call_at self.now.feed.now j) (call_at self.now.feed.now (j + 1))) }
    {
        j + 1 < self.n && same_run(self.at(j), self.at(j + 1))
    }

    pub fn origins(&self, stop: u16) -> Digits
        ensures { result.left ≡ origin_mask self.now.feed.now stop }
    {
        Digits::of(origins_of(self.feed, stop))
    }

    pub fn targets(&self, stop: u16) -> Digits
        ensures { result.left ≡ target_mask self.now.feed.now stop }
    {
        Digits::of(targets_of(self.feed, stop))
    }

    #[tactic(auto, unfolding(search_input::specs::Feed::origin_walk_of))]
    pub(crate) fn origin_walk(&self, o: u8) -> u16
        requires { o < 4 }
        ensures { result ≡ origin_walk_of self.now.feed.now o }
    {
        self.feed[3200 + o as usize]
    }

    #[tactic(auto, unfolding(search_input::specs::Feed::target_walk_of))]
    pub fn target_walk(&self, x: u8) -> u16
        requires { x < 4 }
        ensures { result ≡ target_walk_of self.now.feed.now x }
    {
        self.feed[3204 + x as usize]
    }

    // The ride r as a first ride from origin o.
    pub fn first_ride(&self, r: Ride, o: u8) -> FirstRide
        requires { o < 4 }
        ensures { result ≡ first_of (sheet_of self.now.feed.now) r.board o r.alight }
    {
        let b = self.at(r.board);
        let a = self.at(r.alight);
        let walk = self.origin_walk(o);
        FirstRide {
            leave: leave_of(walk, b.departure),
            walk,
            origin: o as u16,
            board: r.board as u16,
            alight: r.alight as u16,
            trip: b.trip,
            day: b.day,
            stop: a.stop,
            arrival: a.arrival,
        }
    }
}
