// The lent arrays of a search.
ghost use Rattle.std.specs.Prelude.{◌≡◌, ◌<◌, ◌&&◌, min};
ghost use Rattle.search_input.specs.Feed.{call_at};
ghost use Rattle.rides.specs.Sheets.{joins_of};
ghost use Rattle.search_input.specs.Layout.{call_room};

use crate::call_list::Calls;
use search_input::layout::{Changes, Feed};
use search_input::{FirstRide, change_at, join};

// The calls, and the changes between stops.
#[derive(Clone, Copy, Debug, PartialEq, Eq)]
pub struct Lent<'a> {
    pub calls: Calls<'a>,
    pub changes: &'a Changes,
}

impl<'a> Lent<'a> {
    // With the first n calls, no more than the 512 that there are.
    pub fn first(feed: &'a Feed, changes: &'a Changes, n: usize) -> Lent<'a>
        ensures calls { result.calls.feed.now ≡ feed.now }
        ensures changes { result.changes.now ≡ changes.now }
        ensures count { result.calls.n ≡ min n call_room }
    {
        Lent {
            calls: Calls::first(feed, n),
            changes,
        }
    }

    // Whether the ride f joins one that boards at j.
    pub fn joins(&self, f: FirstRide, j: usize) -> bool
        requires { j < call_room }
        ensures { result ≡ joins_of self.now.calls.feed.now self.now.changes.now f j }
    {
        let b = self.calls.at(j);
        join(f, b, change_at(self.changes, f.stop, b.stop))
    }

    // Whether it does and one can board there.
    pub(crate) fn can_board(&self, f: FirstRide, j: usize) -> bool
        requires { j < call_room }
        ensures { result ≡ (call_at self.now.calls.feed.now j).board && joins_of self.now.calls.feed.now self.now.changes.now f j }
    {
        self.calls.at(j).board && self.joins(f, j)
    }
}
