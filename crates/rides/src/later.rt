// The later calls of the trip and day of one call.
ghost use Rattle.std.specs.Prelude.{◌≡◌, ◌+◌, ◌<◌, []};
ghost use Rattle.search_input.specs.Layout.{call_room};

use crate::call_list::Calls;
use search_input::{FeedCall, same_run};

// The places from `next` on, as far as their calls are of the trip and day of `call`.
#[derive(Clone, Copy, Debug, PartialEq, Eq, Drop)]
pub struct Later<'a> {
    pub calls: Calls<'a>,
    pub call: FeedCall,
    pub next: usize,
}

impl<'a> Later<'a> {
    ghost use Rattle.search_input.specs.Feed.{call_at};
    ghost use Rattle.rides.specs.Loops.{later_from};
    ghost use Rattle.rides.specs.Places.{later_left};

    // None at all.
    pub fn none(calls: &Calls<'a>) -> Later<'a>
        ensures { later_left result ≡ [] }
    {
        Later {
            calls: *calls,
            call: calls.at(0),
            next: calls.n,
        }
    }

    // Those after the call at j.
    pub fn than(calls: &Calls<'a>, j: usize) -> Later<'a>
        requires { j < call_room }
        ensures { later_left result ≡ later_from (call_at calls.now.feed.now) calls.now.n j (j + 1) }
    {
        Later {
            calls: *calls,
            call: calls.at(j),
            next: j + 1,
        }
    }
}

impl<'a> Iterator for Later<'a> {
    ghost use Rattle.std.specs.Iterator.{YieldsFirst, item_count};
    ghost use Rattle.rides.specs.Places.{later_left};

    type Item = usize;

    ghost next_gives = { YieldsFirst later_left };

    ghost remaining = { item_count later_left };

    fn next(&mut self) -> Option<usize> {
        let k = self.next;
        if k < self.calls.n && same_run(self.call, self.calls.at(k)) {
            self.next = k + 1;
            return Some(k);
        }
        None
    }
}
