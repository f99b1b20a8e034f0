// How many rides board at each place, and how many there are; made once.
ghost use Rattle.std.specs.Prelude.{◌≡◌, cond, ◌+◌, ◌≤◌, ◌<◌};
ghost use Rattle.search_input.specs.Feed.{call_at};
ghost use Rattle.limited_rides.specs.Counts.{alights_from, Counts};
ghost use Rattle.calls.specs.Sizes.{call_room};

use calls::CALLS;
use rides::call_list::Calls;

#[derive(Clone, Copy, Debug, PartialEq, Eq)]
pub struct RideCounts {
    pub board: [u32; CALLS],
    pub all: u32,
}

// The later calls of j's run where one can alight; `next` is that of the call after j.
fn alights_from(calls: &Calls, j: usize, next: u32) -> u32
    requires { (j < calls.now.n) × (next ≤ call_room)
        × (j + 1 < calls.now.n → next ≡ alights_from (call_at calls.now.feed.now) calls.now.n (j + 1)) }
    ensures { result ≡ alights_from (call_at calls.now.feed.now) calls.now.n j }
{
    if !calls.goes_on(j) {
        return 0;
    }
    if calls.at(j + 1).alight {
        next + 1
    } else {
        next
    }
}

// The rides that board at j, of which a alight later.
fn rides_at(calls: &Calls, j: usize, a: u32) -> u32
    requires { j < call_room }
    ensures { result ≡ cond (call_at calls.now.feed.now j).board a 0 }
{
    if calls.at(j).board { a } else { 0 }
}

pub fn counts_of(calls: &Calls) -> RideCounts
    ensures { Counts result calls.now.feed.now calls.now.n }
{
    let mut board = [0u32; CALLS];
    let mut next = 0u32;
    let mut all = 0u32;
    for j in (0..calls.n).rev() {
        next = alights_from(calls, j, next);
        let k = rides_at(calls, j, next);
        board[j] = k;
        all += k;
    }
    RideCounts { board, all }
}
